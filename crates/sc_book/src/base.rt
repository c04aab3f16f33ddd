ghost use Rattle.std.specs.Prelude.{◌≡◌, ◌<◌, [], Some, OnOk, OnErr, true};
ghost use Rattle.std.specs.List.Sorted.{IsStrictlySortedBy};
ghost use Rattle.std.specs.Option.{option_copied, option_map};
ghost use Rattle.std.specs.Ordering.{nat_cmp};
ghost use Rattle.std.specs.Map.{keys_of};
ghost use Rattle.std.specs.FinMap.Entries.{is_sorted};
ghost use Rattle.sc_book.specs.Places.{at_place, with_item, without_item};
ghost use Rattle.sc_book.specs.Words.{belongs, is_before};
ghost use Rattle.sc_book.specs.Found.{numbers_of, AreFound, HasNumbers, AllGrown, AllKeptBut};
ghost use Rattle.sc_book.specs.Gathering.{Covers, IsFirst, MorePlaces};
ghost use Rattle.sc_book.specs.Firsts.{free_of, earliest_at};

use crate::entry::Entry;
use crate::firsts::first_in;
use crate::indexes::Indexes;
use crate::keys::add_keys;
use crate::numbers::Numbers;
use crate::walking::first_in_group;
use crate::{Item, Probe};
use sc_value::NoMemory;
use std::alloc::Global;
use std::collections::{BTreeMap, BTreeSet};
use std::marker::Model;

/// Items by their places, changed in place, with the indexes by which they are found.
#[derive(Drop)]
pub struct Base<T: Item> {
    items: BTreeMap<u64, Entry<T>>,
    indexes: Indexes,
}

impl<T: Item> Model for Base<T> {
    ghost use Rattle.sc_book.specs.Places.{Placed};
    ghost use Rattle.sc_book.specs.Found.{AreFound};

    ghost Value = { Placed T };

    ghost view = { λ b. b.items.entries };

    ghost invariant = { λ b. AreFound T.due T.first T.groups b.items.entries b.indexes };
}

impl<T: Item> Base<T> {
    /// No items. It takes no memory.
    #[tactic(auto, using(crate::proofs::FoundLaws::nothing_found))]
    pub fn new(alloc: Global) -> Base<T>
        ensures { result ≡ [] }
    {
        Base {
            items: BTreeMap::new(alloc),
            indexes: Indexes::new(alloc),
        }
    }

    /// The items are in the order of their places.
    pub fn order(&self)
        ensures { is_sorted nat_cmp self.now ≡ true }
    {
        let _ = &self.indexes;
    }

    /// The item at a place.
    #[tactic(auto, using(crate::proofs::PlaceLaws::seen_at))]
    pub fn get(&self, place: u64) -> Option<&Entry<T>>
        ensures item { option_copied result ≡ at_place place self.now }
        ensures sorted { is_sorted nat_cmp self.now ≡ true }
    {
        self.items.get(&place)
    }

    /// Puts an item at a place.
    pub fn put(&mut self, place: u64, entry: Entry<T>) -> Result<(), NoMemory>
        ensures ok { OnOk result (self.new ≡ with_item self.old place entry) }
        ensures err { OnErr result (self.new ≡ self.old) }
        ensures sorted { is_sorted nat_cmp self.new ≡ true }
    {
        put_in(&mut self.items, &mut self.indexes, place, entry)
    }

    /// Takes the item at a place away.
    pub fn take(&mut self, place: u64)
        ensures left { self.new ≡ without_item self.old place }
        ensures sorted { is_sorted nat_cmp self.new ≡ true }
    {
        take_in(&mut self.items, &mut self.indexes, place);
    }

    /// Adds the places of all items.
    #[tactic(auto, using(crate::proofs::PlaceSets::more_all, crate::proofs::PlaceSets::all_covered))]
    pub fn all_places(&self, places: &mut BTreeSet<u64>) -> Result<(), NoMemory>
        ensures more { OnOk result (MorePlaces places.old.keys places.new.keys) }
        ensures there { OnOk result (Covers (λ _. true) self.now places.new.keys) }
    {
        add_keys(&self.items, places)
    }

    /// Adds the places of the items of a group, and maybe more.
    #[tactic(auto, using(crate::proofs::FoundLaws::group_covers))]
    pub fn places_of(&self, group: u64, places: &mut BTreeSet<u64>) -> Result<(), NoMemory>
        ensures more { OnOk result (MorePlaces places.old.keys places.new.keys) }
        ensures there { OnOk result (Covers (belongs T.groups group) self.now places.new.keys) }
    {
        self.indexes.groups.places_at(group, places)
    }

    /// Adds the places of the items that are due before a moment, and maybe more.
    #[tactic(auto, using(crate::proofs::FoundLaws::due_covers))]
    pub fn places_before(&self, moment: u64, places: &mut BTreeSet<u64>) -> Result<(), NoMemory>
        ensures { OnOk result (Covers (λ x. is_before moment (T.due x)) self.now places.new.keys) }
    {
        self.indexes.dues.places_below(moment, places)
    }

    /// The place of the first item of a group that passes. All that pass are of the group, and it
    /// isn't that of the greatest number.
    pub fn first_of<P: Probe<T>>(&self, group: u64, probe: &P) -> Option<u64>
        requires own { (x : T) → P.passes probe.now x ≡ true → belongs T.groups group x ≡ true }
        requires below { group < u64.MAX }
        ensures { IsFirst (P.passes probe.now) self.now result }
    {
        first_in_group(&self.items, &self.indexes.groups, group, probe)
    }

    /// The lowest number of a first event of the items at other places, with the first place of an
    /// item that has it. The cost is linear in the number of the places.
    pub fn first_but(&self, places: &[u64]) -> Option<(u64, u64)>
        ensures { result ≡ earliest_at T.first (free_of places.now self.now) }
    {
        first_in(&self.items, &self.indexes, places)
    }
}

#[tactic(auto, using(crate::proofs::PlaceLaws::seen_at))]
fn numbers_at<T: Item>(items: &BTreeMap<u64, Entry<T>>, place: u64) -> Option<Numbers>
    ensures { result
        ≡ option_map (numbers_of T.due T.first T.groups) (at_place place items.now.entries) }
{
    match items.get(&place) {
        Some(entry) => Some(entry.numbers()),
        None => None,
    }
}

fn put_in<T: Item>(
    items: &mut BTreeMap<u64, Entry<T>>,
    indexes: &mut Indexes,
    place: u64,
    entry: Entry<T>,
) -> Result<(), NoMemory>
    requires { AreFound T.due T.first T.groups items.old.entries indexes.old }
    ensures ok { OnOk result (items.new.entries ≡ with_item items.old.entries place entry) }
    ensures err { OnErr result (items.new.entries ≡ items.old.entries) }
    ensures found { AreFound T.due T.first T.groups items.new.entries indexes.new }
{
    let new = entry.numbers();
    let old = numbers_at(items, place);
    match put_beside(items, indexes, old, place, entry) {
        Ok(()) => {
            end_numbers(indexes, old, Some(new), place);
            Ok(())
        }
        Err(NoMemory) => {
            end_numbers(indexes, Some(new), old, place);
            Err(NoMemory)
        }
    }
}

// Puts an item at a place, where the indexes have the numbers of the former one too.
#[tactic(auto, using(crate::proofs::PlaceLaws::inserted_entry, crate::proofs::FoundLaws::all_grown_own))]
fn put_beside<T: Item>(
    items: &mut BTreeMap<u64, Entry<T>>,
    indexes: &mut Indexes,
    old: Option<Numbers>,
    place: u64,
    entry: Entry<T>,
) -> Result<(), NoMemory>
    requires { HasNumbers old place indexes.old }
    ensures ok { OnOk result (items.new.entries ≡ with_item items.old.entries place entry) }
    ensures err { OnErr result (items.new.entries ≡ items.old.entries) }
    ensures ordered { OnOk result (IsStrictlySortedBy nat_cmp (keys_of items.new.entries)) }
    ensures grown { AllGrown indexes.old indexes.new }
    ensures there { OnOk result
        (HasNumbers (Some (numbers_of T.due T.first T.groups entry)) place indexes.new) }
{
    indexes.add(old, entry.numbers(), place)?;
    items.insert(place, entry)?;
    Ok(())
}

// The numbers of a former item of a place go, but for those of the one that is there now.
#[tactic(auto, using(crate::proofs::FoundLaws::all_kept_own))]
fn end_numbers(indexes: &mut Indexes, former: Option<Numbers>, now: Option<Numbers>, place: u64)
    ensures { AllKeptBut now place indexes.old indexes.new }
{
    match former {
        Some(former) => indexes.end(former, now, place),
        None => {}
    }
}

#[tactic(auto, using(crate::proofs::PlaceLaws::sorted_of, crate::proofs::PlaceLaws::removed_entry))]
fn take_in<T: Item>(items: &mut BTreeMap<u64, Entry<T>>, indexes: &mut Indexes, place: u64)
    requires { AreFound T.due T.first T.groups items.old.entries indexes.old }
    ensures left { items.new.entries ≡ without_item items.old.entries place }
    ensures found { AreFound T.due T.first T.groups items.new.entries indexes.new }
{
    let old = numbers_at(items, place);
    items.remove(&place);
    end_numbers(indexes, old, None, place);
}
