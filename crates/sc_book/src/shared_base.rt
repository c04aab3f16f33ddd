ghost use Rattle.std.specs.Prelude.{◌≡◌, ◌<◌, [], OnOk, true};
ghost use Rattle.std.specs.Option.{option_copied};
ghost use Rattle.std.specs.Ordering.{nat_cmp};
ghost use Rattle.std.specs.FinMap.Entries.{is_sorted};
ghost use Rattle.sc_book.specs.Places.{all_laid, at_place};
ghost use Rattle.sc_book.specs.Words.{belongs, is_before};
ghost use Rattle.sc_book.specs.Gathering.{Covers, IsFirst, MorePlaces};
ghost use Rattle.sc_book.specs.Groups.{KeepsBook};
ghost use Rattle.sc_book.specs.Firsts.{free_of, earliest_at};
ghost use Rattle.sc_book.specs.Tops.{topped};

use crate::base::Base;
use crate::entry::Entry;
use crate::settling::{settle_in, settle_top_in};
use crate::top::Top;
use crate::{Item, Probe};
use sc_value::{CloneIn, NoMemory};
use std::alloc::Global;
use std::collections::{BTreeMap, BTreeSet};
use std::marker::Model;
use std::sync::Arc;

/// The items that several books have in common.
#[derive(Drop)]
pub struct SharedBase<T: Item> {
    /// None where there are no items yet, which takes no memory.
    base: Option<Arc<Base<T>>>,
}

impl<T: Item> Model for SharedBase<T> {
    ghost use Rattle.sc_book.specs.Places.{Placed, shared_items};

    ghost Value = { Placed T };

    ghost view = { λ s. shared_items s.base };
}

impl<T: Item> SharedBase<T> {
    /// No items. It takes no memory.
    pub fn new() -> SharedBase<T>
        ensures { result ≡ [] }
    {
        SharedBase { base: None }
    }

    /// The items are in the order of their places.
    pub fn order(&self)
        ensures { is_sorted nat_cmp self.now ≡ true }
    {
        match &self.base {
            Some(base) => base.order(),
            None => {}
        }
    }

    /// The item at a place.
    pub fn get(&self, place: u64) -> Option<&Entry<T>>
        ensures item { option_copied result ≡ at_place place self.now }
        ensures sorted { is_sorted nat_cmp self.now ≡ true }
    {
        match &self.base {
            Some(base) => base.get(place),
            None => None,
        }
    }

    /// The place of the first item of a group that passes. All that pass are of the group, and it
    /// isn't that of the greatest number.
    #[tactic(auto, using(crate::proofs::WalkLaws::first_nowhere))]
    pub fn first_of<P: Probe<T>>(&self, group: u64, probe: &P) -> Option<u64>
        requires own { (x : T) → P.passes probe.now x ≡ true → belongs T.groups group x ≡ true }
        requires below { group < u64.MAX }
        ensures { IsFirst (P.passes probe.now) self.now result }
    {
        match &self.base {
            Some(base) => base.first_of(group, probe),
            None => None,
        }
    }

    /// Adds the places of all items.
    #[tactic(auto, using(crate::proofs::PlaceSets::more_own, crate::proofs::PlaceSets::none_covered))]
    pub fn all_places(&self, places: &mut BTreeSet<u64>) -> Result<(), NoMemory>
        ensures more { OnOk result (MorePlaces places.old.keys places.new.keys) }
        ensures there { OnOk result (Covers (λ _. true) self.now places.new.keys) }
    {
        match &self.base {
            Some(base) => base.all_places(places),
            None => Ok(()),
        }
    }

    /// Adds the places of the items of a group, and maybe more.
    #[tactic(auto, using(crate::proofs::PlaceSets::more_own, crate::proofs::PlaceSets::none_covered))]
    pub fn places_of(&self, group: u64, places: &mut BTreeSet<u64>) -> Result<(), NoMemory>
        ensures more { OnOk result (MorePlaces places.old.keys places.new.keys) }
        ensures there { OnOk result (Covers (belongs T.groups group) self.now places.new.keys) }
    {
        match &self.base {
            Some(base) => base.places_of(group, places),
            None => Ok(()),
        }
    }

    /// Adds the places of the items that are due before a moment, and maybe more.
    #[tactic(auto, using(crate::proofs::PlaceSets::none_covered))]
    pub fn places_before(&self, moment: u64, places: &mut BTreeSet<u64>) -> Result<(), NoMemory>
        ensures { OnOk result (Covers (λ x. is_before moment (T.due x)) self.now places.new.keys) }
    {
        match &self.base {
            Some(base) => base.places_before(moment, places),
            None => Ok(()),
        }
    }

    /// The lowest number of a first event of the items at other places, with the first place of an
    /// item that has it.
    #[tactic(auto, using(crate::proofs::FirstLaws::none_earliest))]
    pub fn first_but(&self, places: &[u64]) -> Option<(u64, u64)>
        ensures { result ≡ earliest_at T.first (free_of places.now self.now) }
    {
        match &self.base {
            Some(base) => base.first_but(places),
            None => None,
        }
    }

    /// Lets the changes go in, where nobody else has the items. Where memory is wanting some stay.
    #[tactic(auto, using(crate::proofs::FreshLaws::kept_own))]
    pub fn settle(&mut self, alloc: Global, changes: &mut BTreeMap<u64, Option<Entry<T>>>)
        ensures same { all_laid self.new changes.new.entries
            ≡ all_laid self.old changes.old.entries }
        ensures kept { KeepsBook T.groups self.old changes.old.entries self.new
            changes.new.entries }
    {
        self.begin(alloc);
        match &mut self.base {
            Some(base) => settle_in(alloc, base, changes),
            None => {}
        }
    }

    /// Lets a change that lies over the items go in, where nobody else has them and there is memory
    /// for it.
    pub fn settle_top(&mut self, alloc: Global, top: &mut Option<Box<Top<T>>>)
        ensures { topped self.new top.new ≡ topped self.old top.old }
    {
        self.begin(alloc);
        match &mut self.base {
            Some(base) => settle_top_in(alloc, base, top),
            None => {}
        }
    }

    // Room for items, where there is none and memory for it.
    fn begin(&mut self, alloc: Global)
        ensures { self.new ≡ self.old }
    {
        if self.base.is_some() {
            return;
        }
        if let Ok(base) = Arc::new(alloc, Base::new(alloc)) {
            self.base = Some(base);
        }
    }
}

impl<T: Item> CloneIn for SharedBase<T> {
    fn clone_in(&self, _alloc: Global) -> Result<SharedBase<T>, NoMemory> {
        match &self.base {
            Some(base) => {
                let base = Arc::try_clone(base)?;
                Ok(SharedBase { base: Some(base) })
            }
            None => Ok(SharedBase::new()),
        }
    }
}
