//! Changes of items in place.

ghost use Rattle.std.specs.Prelude.{◌≡◌, false, filter, map, OnOk};
ghost use Rattle.sc_value.specs.Lists.{change_first};

use crate::searching::{all_in, any_in, place_in};
use crate::{Change, Probe};
use sc_value::{List, NoMemory};

/// Changes the first item that passes, where there is one.
#[tactic(auto, using(sc_value::proofs::ListFacts::change_first_position, sc_value::proofs::ListFacts::change_first_none))]
pub fn change_one<T, P: Probe<T>, C: Change<T>>(
    items: &mut [T],
    probe: &P,
    change: &C,
) -> Result<(), NoMemory>
    ensures { OnOk result
        (items.new ≡ change_first (P.passes probe.now) (C.changed change.now) items.old) }
{
    match place_in(items, probe) {
        Some(at) => change.change(&mut items[at]),
        None => Ok(()),
    }
}

/// Changes all items.
#[inline(never)]
#[tactic(auto, using(crate::proofs::Steps::map_step))]
pub fn change_every<T, C: Change<T>>(items: &mut [T], change: &C) -> Result<(), NoMemory>
    ensures { OnOk result (items.new ≡ map (C.changed change.now) items.old) }
{
    for i in 0..items.len() {
        change.change(&mut items[i])?;
    }
    Ok(())
}

/// Changes the first item of a list that passes, where there is one.
pub fn change_one_in<T, P: Probe<T>, C: Change<T>>(
    items: &mut List<T>,
    probe: &P,
    change: &C,
) -> Result<(), NoMemory>
    ensures { OnOk result
        (items.new ≡ change_first (P.passes probe.now) (C.changed change.now) items.old) }
{
    change_one(&mut items.items, probe, change)
}

/// Changes all items of a list. Those that don't pass stay as they are.
#[tactic(auto, using(crate::proofs::PageLaws::none_changed))]
pub fn change_every_in<T, P: Probe<T>, C: Change<T>>(
    items: &mut List<T>,
    probe: &P,
    change: &C,
) -> Result<(), NoMemory>
    requires { (x : T) → P.passes probe.now x ≡ false → C.changed change.now x ≡ x }
    ensures { OnOk result (items.new ≡ map (C.changed change.now) items.old) }
{
    if !any_in(items.as_slice(), probe) {
        return Ok(());
    }
    change_every(&mut items.items, change)
}

/// Takes the items away that don't pass. It is rare beside a list of which all pass.
#[inline(never)]
pub fn keep_those<T: Drop, P: Probe<T>>(items: &mut List<T>, probe: &P)
    ensures { items.new ≡ filter (P.passes probe.now) items.old }
{
    items.items.retain(|item| probe.passes(item));
}

/// Takes the items away that don't pass. Mostly all do.
#[tactic(auto, using(crate::proofs::PageLaws::all_kept))]
pub fn keep_passing<T: Drop, P: Probe<T>>(items: &mut List<T>, probe: &P)
    ensures { items.new ≡ filter (P.passes probe.now) items.old }
{
    if all_in(items.as_slice(), probe) {
        return;
    }
    keep_those(items, probe);
}
