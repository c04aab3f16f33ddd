//! What is due in a net, by its key: of the items of one key the first stands.

ghost use Rattle.std.specs.Prelude.{◌≡◌, IfOk, OnOk};
ghost use Rattle.std.specs.BTreeMap.{values};
ghost use Rattle.sc_hosts.specs.Histories.{as_session};
ghost use Rattle.sc_hosts.specs.Ticks.{due_items};
ghost use Rattle.sc_ticks.specs.Firsts.{kept_first, kept_firsts};

use crate::due::{Dated, due_dated};
use sc_due::DueKey;
use sc_state::{Net, Session};
use sc_value::{NoMemory, sum};
use std::alloc::Global;
use std::collections::BTreeMap;

#[tactic(auto, unfolding(crate::specs::Firsts::kept_first))]
fn keep_first(now: u64, dated: Dated, kept: &mut BTreeMap<DueKey, Dated>) -> Result<(), NoMemory>
    ensures { OnOk result (kept.new.entries ≡ kept_first now dated kept.old.entries) }
{
    if dated.key.due <= now {
        kept.insert(dated.key, dated)?;
    }
    Ok(())
}

#[tactic(auto, using(crate::proofs::FirstItems::kept_last, crate::proofs::FirstItems::kept_none))]
fn keep_firsts(
    now: u64,
    all: &mut Vec<Dated>,
    kept: &mut BTreeMap<DueKey, Dated>,
) -> Result<(), NoMemory>
    ensures { OnOk result (kept.new.entries ≡ kept_firsts now kept.old.entries all.old.items) }
{
    while let Some(dated) = all.pop() {
        keep_first(now, dated, kept)?;
    }
    Ok(())
}

/// What is due at a moment, by due moment, host, serial and the timer's name.
#[tactic(auto, using(crate::proofs::FirstItems::due_kept))]
pub fn due_items(
    alloc: Global,
    now: u64,
    net: &Net<Session>,
) -> Result<BTreeMap<DueKey, Dated>, NoMemory>
    ensures { IfOk result (λ items. values items ≡ due_items as_session now net.now) }
{
    let past = sum(now, 1)?;
    let mut all = due_dated(alloc, past, net)?;
    let mut kept = BTreeMap::new(alloc);
    keep_firsts(now, &mut all.items, &mut kept)?;
    Ok(kept)
}
