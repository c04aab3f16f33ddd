//! Items that go because they don't pass a test.

ghost use Rattle.std.specs.Prelude.{◌≡◌, false, not, OnOk};
ghost use Rattle.sc_book.specs.Places.{passes_at};
ghost use Rattle.sc_book.specs.Gathering.{left_at, left_once};
ghost use Rattle.sc_book.specs.Keys.{AreFewer};

use crate::book::Book;
use crate::counted::Counted;
use crate::{Item, Probe};
use sc_value::NoMemory;
use std::collections::BTreeSet;

/// Takes away the items at these places that don't pass.
#[tactic(auto, using(crate::proofs::RowLaws::fewer_own, crate::proofs::RowLaws::fewer_on))]
pub fn keep_at<T: Item, P: Probe<T>>(
    probe: &P,
    places: &BTreeSet<u64>,
    items: &mut Counted<T>,
) -> Result<(), NoMemory>
    ensures left { OnOk result
        (items.new ≡ left_at (P.passes probe.now) items.old places.now.keys) }
    ensures fewer { AreFewer items.old items.new }
{
    for place in places {
        keep_one(probe, *place, items)?;
    }
    Ok(())
}

#[tactic(auto, using(crate::proofs::KeepLaws::once_fails, crate::proofs::KeepLaws::once_passes, crate::proofs::RowLaws::fewer_own, crate::proofs::RowLaws::fewer_without))]
fn keep_one<T: Item, P: Probe<T>>(
    probe: &P,
    place: u64,
    items: &mut Counted<T>,
) -> Result<(), NoMemory>
    ensures left { OnOk result (items.new ≡ left_once (P.passes probe.now) items.old place) }
    ensures fewer { AreFewer items.old items.new }
{
    if fails_at(probe, place, items.book()) {
        items.take(place)?;
    }
    Ok(())
}

fn fails_at<T: Item, P: Probe<T>>(probe: &P, place: u64, book: &Book<T>) -> bool
    ensures { result ≡ passes_at (λ x. not (P.passes probe.now x)) book.now place }
{
    match book.get(place) {
        Some(entry) => !probe.passes(entry.item().get()),
        None => false,
    }
}
