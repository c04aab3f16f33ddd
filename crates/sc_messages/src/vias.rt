//! The Vias of messages (RFC 3261 sections 16.6, 16.7 and 18.2.2).

ghost use Rattle.std.specs.Prelude.{◌≡◌, ◌++◌, ◌∷◌, [], drop, option_map, unwrap_or, slice_get, IfOk, OnOk};

use sc_value::{CloneIn, List, NoMemory, SharedList, Via};
use std::alloc::Global;

/// A Via, and behind it copies of others.
pub fn behind(alloc: Global, top: Via, vias: &[Via]) -> Result<SharedList<Via>, NoMemory>
    ensures { IfOk result (λ l. l ≡ top ∷ vias.now) }
{
    let mut all = List {
        items: Vec::with_capacity(alloc, vias.len().saturating_add(1))?,
    };
    all.push(top)?;
    add_copies(alloc, vias, &mut all)?;
    SharedList::from_list(alloc, all)
}

/// Copies of the Vias below the top one.
pub fn below(alloc: Global, vias: &[Via]) -> Result<SharedList<Via>, NoMemory>
    ensures { IfOk result (λ l. l ≡ drop 1 vias.now) }
{
    if vias.is_empty() {
        return Ok(SharedList::new(alloc));
    }
    let mut rest = List {
        items: Vec::with_capacity(alloc, vias.len() - 1)?,
    };
    add_copies(alloc, &vias[1..], &mut rest)?;
    SharedList::from_list(alloc, rest)
}

fn add_copies(alloc: Global, vias: &[Via], all: &mut List<Via>) -> Result<(), NoMemory>
    ensures { OnOk result (all.new ≡ all.old ++ vias.now) }
{
    for via in vias {
        all.push(via.clone_in(alloc)?)?;
    }
    Ok(())
}

/// A copy of the top Via alone, where there is one.
pub fn top_via(alloc: Global, vias: &[Via]) -> Result<SharedList<Via>, NoMemory>
    ensures { IfOk result
        (λ l. l ≡ unwrap_or (option_map (λ via. via ∷ []) (slice_get vias.now 0)) []) }
{
    let mut top = List::new(alloc);
    if let Some(via) = vias.first() {
        top.push(via.clone_in(alloc)?)?;
    }
    SharedList::from_list(alloc, top)
}
