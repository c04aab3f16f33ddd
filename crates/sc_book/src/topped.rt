ghost use Rattle.std.specs.Prelude.{◌≡◌, ◌<◌, [], OnOk, OnErr, IfOk, true};
ghost use Rattle.std.specs.Option.{option_copied};
ghost use Rattle.sc_book.specs.Places.{Placed, all_laid, at_place, with_item_at};
ghost use Rattle.sc_book.specs.Words.{belongs, is_before};
ghost use Rattle.sc_book.specs.Gathering.{Covers, IsFirst, MorePlaces};
ghost use Rattle.sc_book.specs.Groups.{KeepsBook};
ghost use Rattle.sc_book.specs.Firsts.{free_of, earliest_at};
ghost use Rattle.sc_book.specs.Tops.{topped};

use crate::entry::Entry;
use crate::shared_base::SharedBase;
use crate::top::{Top, add_place, found_under};
use crate::{Item, Probe};
use sc_value::{CloneIn, NoMemory};
use std::alloc::Global;
use std::collections::{BTreeMap, BTreeSet};
use std::marker::Model;

/// A base with one change that may lie over it: most steps change one item of a book.
#[derive(Drop)]
pub struct Topped<T: Item> {
    base: SharedBase<T>,
    top: Option<Box<Top<T>>>,
    alloc: Global,
}

impl<T: Item> Model for Topped<T> {
    ghost use Rattle.sc_book.specs.Places.{Placed};
    ghost use Rattle.sc_book.specs.Tops.{topped};

    ghost Value = { Placed T };

    ghost view = { λ t. topped t.base t.top };
}

impl<T: Item> Topped<T> {
    /// No items. It takes no memory.
    pub fn new(alloc: Global) -> Topped<T>
        ensures { result ≡ [] }
    {
        Topped {
            base: SharedBase::new(),
            top: None,
            alloc,
        }
    }

    /// No items from now on. It takes no memory.
    pub fn clear(&mut self)
        ensures { self.new ≡ [] }
    {
        self.base = SharedBase::new();
        self.top = None;
    }

    /// Whether no change lies over the base.
    pub fn is_bare(&self) -> bool {
        self.top.is_none()
    }

    /// Whether a change at this place may lie over the base.
    pub fn has_room(&self, place: u64) -> bool {
        match &self.top {
            Some(top) => top.place == place,
            None => true,
        }
    }

    /// The item at a place.
    pub fn get(&self, place: u64) -> Option<&Entry<T>>
        ensures { option_copied result ≡ at_place place self.now }
    {
        match &self.top {
            Some(top) => found_under(top, &self.base, place),
            None => self.base.get(place),
        }
    }

    /// Lays a change over the base. `NoMemory` too where that of another place lies there.
    #[tactic(auto, using(crate::proofs::TopLaws::laid_again))]
    pub fn lay(&mut self, place: u64, change: Option<Entry<T>>) -> Result<(), NoMemory>
        ensures ok { OnOk result (self.new ≡ with_item_at self.old place change) }
        ensures err { OnErr result (self.new ≡ self.old) }
    {
        self.base.order();
        match &mut self.top {
            Some(top) => {
                if top.place != place {
                    return Err(NoMemory);
                }
                top.change = change;
            }
            None => {
                self.top = Some(Box::new(self.alloc, Top { place, change })?);
            }
        }
        Ok(())
    }

    /// The place of the first item of a group that passes. All that pass are of the group, and it
    /// isn't that of the greatest number. `NoMemory` where a change lies over the base.
    pub fn first_of<P: Probe<T>>(&self, group: u64, probe: &P) -> Result<Option<u64>, NoMemory>
        requires own { (x : T) → P.passes probe.now x ≡ true → belongs T.groups group x ≡ true }
        requires below { group < u64.MAX }
        ensures { IfOk result (λ place. IsFirst (P.passes probe.now) self.now place) }
    {
        match &self.top {
            Some(_) => Err(NoMemory),
            None => Ok(self.base.first_of(group, probe)),
        }
    }

    /// Adds the places of all items.
    #[tactic(auto, using(crate::proofs::PlaceSets::more_on))]
    pub fn all_places(&self, places: &mut BTreeSet<u64>) -> Result<(), NoMemory>
        ensures more { OnOk result (MorePlaces places.old.keys places.new.keys) }
        ensures there { OnOk result (Covers (λ _. true) self.now places.new.keys) }
    {
        self.base.all_places(places)?;
        if let Some(top) = &self.top {
            add_place(top.place, places)?;
        }
        Ok(())
    }

    /// Adds the places of the items of a group, and maybe more.
    #[tactic(auto, using(crate::proofs::PlaceSets::more_on))]
    pub fn places_of(&self, group: u64, places: &mut BTreeSet<u64>) -> Result<(), NoMemory>
        ensures more { OnOk result (MorePlaces places.old.keys places.new.keys) }
        ensures there { OnOk result (Covers (belongs T.groups group) self.now places.new.keys) }
    {
        self.base.places_of(group, places)?;
        if let Some(top) = &self.top {
            add_place(top.place, places)?;
        }
        Ok(())
    }

    /// Adds the places of the items that are due before a moment, and maybe more. `NoMemory` too
    /// where a change lies over the base.
    pub fn places_before(&self, moment: u64, places: &mut BTreeSet<u64>) -> Result<(), NoMemory>
        ensures { OnOk result (Covers (λ x. is_before moment (T.due x)) self.now places.new.keys) }
    {
        match &self.top {
            Some(_) => Err(NoMemory),
            None => self.base.places_before(moment, places),
        }
    }

    /// The lowest number of a first event of the items at other places, with the first place of an
    /// item that has it. `NoMemory` where a change lies over the base.
    pub fn first_but(&self, places: &[u64]) -> Result<Option<(u64, u64)>, NoMemory>
        ensures { IfOk result (λ next. next ≡ earliest_at T.first (free_of places.now self.now)) }
    {
        match &self.top {
            Some(_) => Err(NoMemory),
            None => Ok(self.base.first_but(places)),
        }
    }

    /// Lets the changes go in, where nobody else has the items: that one first which lies here.
    /// Where memory is wanting some stay.
    #[tactic(auto, using(crate::proofs::FreshLaws::kept_own, crate::proofs::TopLaws::kept_under))]
    pub fn settle(&mut self, alloc: Global, changes: &mut BTreeMap<u64, Option<Entry<T>>>)
        ensures same { all_laid self.new changes.new.entries
            ≡ all_laid self.old changes.old.entries }
        ensures kept { KeepsBook T.groups self.old changes.old.entries self.new
            changes.new.entries }
    {
        self.settle_top(alloc);
        match &self.top {
            Some(_) => {}
            None => self.base.settle(alloc, changes),
        }
    }

    // Lets the change that lies here go in, where there is one.
    fn settle_top(&mut self, alloc: Global)
        ensures { self.new ≡ self.old }
    {
        if self.top.is_some() {
            self.base.settle_top(alloc, &mut self.top);
        }
    }
}

// A copy of a change, where there is one.
fn copy_of<T: Item>(
    alloc: Global,
    top: &Option<Box<Top<T>>>,
) -> Result<Option<Box<Top<T>>>, NoMemory>
    ensures { IfOk result (λ copy. (es : Placed T) → topped es copy ≡ topped es top.now) }
{
    match top {
        Some(top) => Ok(Some(Box::new(alloc, top.clone_in(alloc)?)?)),
        None => Ok(None),
    }
}

impl<T: Item> CloneIn for Topped<T> {
    fn clone_in(&self, alloc: Global) -> Result<Topped<T>, NoMemory> {
        let base = self.base.clone_in(alloc)?;
        let top = copy_of(alloc, &self.top)?;
        Ok(Topped { base, top, alloc })
    }
}
