//! Entries of sessions that have had their event.

ghost use Rattle.std.specs.Prelude.{◌≡◌, IfOk, OnOk};
ghost use Rattle.sc_value.specs.Lists.{change_nth};
ghost use Rattle.sc_hosts.specs.Nets.{change_host};
ghost use Rattle.sc_hosts.specs.Ticks.{mark_fired};
ghost use Rattle.sc_ticks.specs.Items.{with_fired};

use sc_due::DueKey;
use sc_parts::TimerName;
use sc_state::{Fired, Host, Live, Net, Session};
use sc_value::{CloneIn, NoMemory, Shared};
use std::alloc::Global;

#[tactic(auto, unfolding(crate::specs::Items::with_fired))]
fn with_fired(
    alloc: Global,
    due: u64,
    timer: TimerName,
    live: &Live<Session>,
) -> Result<Shared<Live<Session>>, NoMemory>
    ensures { IfOk result (λ own. own ≡ with_fired due timer live.now) }
{
    let mut own = live.clone_in(alloc)?;
    own.fired.push(Fired { due, timer })?;
    Shared::new(alloc, own)
}

#[tactic(auto, using(crate::proofs::MarkedHosts::marked_none))]
fn mark_fired(alloc: Global, key: DueKey, host: &mut Host<Session>) -> Result<(), NoMemory>
    ensures { OnOk result (host.new ≡ mark_fired key host.old) }
{
    let own = match host.live(key.app.serial) {
        Some(live) => with_fired(alloc, key.due, key.timer, live.get())?,
        None => return Ok(()),
    };
    host.set_live(own)
}

#[tactic(auto, using(sc_value::proofs::ListFacts::change_nth_at, sc_value::proofs::ListFacts::change_nth_none))]
fn mark_among(
    alloc: Global,
    number: u32,
    key: DueKey,
    hosts: &mut [Host<Session>],
) -> Result<(), NoMemory>
    ensures { OnOk result (hosts.new ≡ change_nth number (mark_fired key) hosts.old) }
{
    let at = number as usize;
    if at < hosts.len() {
        return mark_fired(alloc, key, &mut hosts[at]);
    }
    Ok(())
}

/// The entry of this key has had its event, at the host of this number.
pub fn mark_at(
    alloc: Global,
    number: u32,
    key: DueKey,
    net: &mut Net<Session>,
) -> Result<(), NoMemory>
    ensures { OnOk result (net.new ≡ change_host number (mark_fired key) net.old) }
{
    mark_among(alloc, number, key, &mut net.hosts.items)
}
