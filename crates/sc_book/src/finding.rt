//! The first item of a book that passes a test.

ghost use Rattle.std.specs.Prelude.{◌≡◌, ◌<◌, true, IfOk};
ghost use Rattle.std.specs.List.{find};
ghost use Rattle.std.specs.List.Sorted.{IsStrictlySortedBy};
ghost use Rattle.std.specs.Map.{values_of};
ghost use Rattle.std.specs.Option.{option_copied};
ghost use Rattle.std.specs.Ordering.{nat_cmp};
ghost use Rattle.sc_book.specs.Places.{passes_at};
ghost use Rattle.sc_book.specs.Words.{belongs};
ghost use Rattle.sc_book.specs.Gathering.{IsFirst};

use crate::book::Book;
use crate::{Item, Probe};
use sc_value::{NoMemory, Shared};
use std::alloc::Global;
use std::collections::BTreeSet;

impl<T: Item> Book<T> {
    /// The first item that passes. All that pass are of the group.
    #[tactic(auto, using(crate::proofs::FindLaws::find_at, crate::proofs::FindLaws::find_none))]
    pub fn find_first<P: Probe<T>>(
        &self,
        alloc: Global,
        group: u64,
        probe: &P,
    ) -> Result<Option<&Shared<T>>, NoMemory>
        requires { (x : T) → P.passes probe.now x ≡ true → belongs T.groups group x ≡ true }
        ensures { IfOk result
            (λ found. option_copied found ≡ find (P.passes probe.now) (values_of self.now)) }
    {
        match self.first_place(alloc, group, probe)? {
            Some(place) => Ok(self.item(place)),
            None => Ok(None),
        }
    }

    /// The place of the first item that passes. All that pass are of the group.
    pub fn first_place<P: Probe<T>>(
        &self,
        alloc: Global,
        group: u64,
        probe: &P,
    ) -> Result<Option<u64>, NoMemory>
        requires { (x : T) → P.passes probe.now x ≡ true → belongs T.groups group x ≡ true }
        ensures { IfOk result (λ place. IsFirst (P.passes probe.now) self.now place) }
    {
        if self.is_settled() && group != u64::MAX {
            return self.first_settled(group, probe);
        }
        self.first_gathered(alloc, group, probe)
    }

    // Whether no changes lie over the base.
    fn is_settled(&self) -> bool {
        self.changes.is_empty() && self.base.is_bare()
    }

    // The same, where no changes lie over the base; `NoMemory` where some do.
    fn first_settled<P: Probe<T>>(&self, group: u64, probe: &P) -> Result<Option<u64>, NoMemory>
        requires own { (x : T) → P.passes probe.now x ≡ true → belongs T.groups group x ≡ true }
        requires below { group < u64.MAX }
        ensures { IfOk result (λ place. IsFirst (P.passes probe.now) self.now place) }
    {
        if !self.changes.is_empty() {
            return Err(NoMemory);
        }
        let place = self.base.first_of(group, probe)?;
        Ok(place)
    }

    // The same, among the places that base and changes may have.
    fn first_gathered<P: Probe<T>>(
        &self,
        alloc: Global,
        group: u64,
        probe: &P,
    ) -> Result<Option<u64>, NoMemory>
        requires { (x : T) → P.passes probe.now x ≡ true → belongs T.groups group x ≡ true }
        ensures { IfOk result (λ place. IsFirst (P.passes probe.now) self.now place) }
    {
        let places = self.places_of(alloc, group)?;
        Ok(first_of(self, probe, &places))
    }
}

fn first_of<T: Item, P: Probe<T>>(book: &Book<T>, probe: &P, places: &BTreeSet<u64>) -> Option<u64>
    ensures first { result ≡ find (passes_at (P.passes probe.now) book.now) places.now.keys }
    ensures in_order { IsStrictlySortedBy nat_cmp places.now.keys }
{
    for place in places {
        if passes_at(book, probe, *place) {
            return Some(*place);
        }
    }
    None
}

fn passes_at<T: Item, P: Probe<T>>(book: &Book<T>, probe: &P, place: u64) -> bool
    ensures { result ≡ passes_at (P.passes probe.now) book.now place }
{
    match book.get(place) {
        Some(entry) => probe.passes(entry.item().get()),
        None => false,
    }
}
