ghost use Rattle.std.specs.Prelude.{◌≡◌, ◌==◌, ◌++◌, ◌∷◌, [], OnOk, OnErr, IfOk, true, false, length, sum_by};
ghost use Rattle.std.specs.List.{filter, find};
ghost use Rattle.std.specs.Option.{option_copied};
ghost use Rattle.sc_value.specs.Lists.{change_first, remove_first};
ghost use Rattle.sc_book.specs.Words.{belongs, earliest, has_key, is_before, is_free};

use crate::counted::Counted;
use crate::keeping::keep_at;
use crate::{Keyed, Probe};
use sc_value::{CloneIn, List, NoMemory, Shared};
use std::alloc::Global;
use std::marker::Model;

/// Items in the order of their numbers. A contract sees their list.
#[derive(Drop)]
pub struct Rows<T: Keyed> {
    items: Counted<T>,
    /// All numbers are below it.
    next: u64,
}

impl<T: Keyed> Model for Rows<T> {
    ghost use Rattle.std.specs.Prelude.{List as Items};
    ghost use Rattle.std.specs.Map.{values_of};
    ghost use Rattle.sc_book.specs.Keys.{AreRows};

    ghost Value = { Items T };

    ghost view = { λ r. values_of r.items };

    ghost invariant = { λ r. AreRows T.key r.items r.next };
}

impl<T: Keyed> Rows<T> {
    /// No items. It takes no memory.
    pub fn new(alloc: Global) -> Rows<T>
        ensures { result ≡ [] }
    {
        Rows {
            items: Counted::new(alloc),
            next: 0,
        }
    }

    /// How many items there are, in constant time.
    pub fn len(&self) -> usize
        ensures { result ≡ length self.now }
    {
        self.items.len()
    }

    /// Whether there is no item.
    pub fn is_empty(&self) -> bool
        ensures { result ≡ (length self.now == 0) }
    {
        self.items.len() == 0
    }

    /// The sum of the weights, in constant time.
    pub fn total(&self) -> u64
        ensures { result ≡ sum_by T.weight self.now }
    {
        self.items.total()
    }

    /// The item of this number. The cost is logarithmic.
    #[tactic(auto, using(crate::proofs::RowLaws::found_keyed))]
    pub fn find(&self, key: u64) -> Option<&Shared<T>>
        ensures { option_copied result ≡ find (has_key T.key key) self.now }
    {
        self.items.book().item(key)
    }

    /// The first item that passes. All that pass are of the group. The cost is linear in the number
    /// of the items of the group, and logarithmic in that of all.
    pub fn find_first<P: Probe<T>>(
        &self,
        alloc: Global,
        group: u64,
        probe: &P,
    ) -> Result<Option<&Shared<T>>, NoMemory>
        requires { (x : T) → P.passes probe.now x ≡ true → belongs T.groups group x ≡ true }
        ensures { IfOk result (λ found. option_copied found ≡ find (P.passes probe.now) self.now) }
    {
        self.items.book().find_first(alloc, group, probe)
    }

    /// The items of a group, in order.
    pub fn of(&self, alloc: Global, group: u64) -> Result<List<Shared<T>>, NoMemory>
        ensures { IfOk result (λ own. own ≡ filter (belongs T.groups group) self.now) }
    {
        self.items.book().of(alloc, group)
    }

    /// The items that are due before a moment, in order. The cost is linear in their number.
    /// `NoMemory` too where changes aren't settled.
    pub fn due_before(&self, alloc: Global, moment: u64) -> Result<List<Shared<T>>, NoMemory>
        ensures { IfOk result (λ own. own ≡ filter (λ x. is_before moment (T.due x)) self.now) }
    {
        self.items.book().due_before(alloc, moment)
    }

    /// The lowest number of a first event of the items whose own number isn't among these, with the
    /// own number of the first item that has it. `NoMemory` too where changes aren't settled.
    pub fn first_but(&self, skip: &[u64]) -> Result<Option<(u64, u64)>, NoMemory>
        ensures { IfOk result
            (λ next.
            next ≡ earliest T.key T.first (filter (λ x. is_free skip.now (T.key x)) self.now)) }
    {
        self.items.book().first_but(skip)
    }

    /// All items, in order: a walk.
    pub fn as_list(&self, alloc: Global) -> Result<List<Shared<T>>, NoMemory>
        ensures { IfOk result (λ all. all ≡ self.now) }
    {
        self.items.book().as_list(alloc)
    }

    /// Puts an item at the end. `NoMemory` too where its number isn't above all that there were.
    #[tactic(auto, using(crate::proofs::RowLaws::pushed))]
    pub fn push(&mut self, item: Shared<T>) -> Result<(), NoMemory>
        ensures ok { OnOk result (self.new ≡ self.old ++ item ∷ []) }
        ensures err { OnErr result (self.new ≡ self.old) }
    {
        let key = item.get().key();
        if key < self.next || key == u64::MAX {
            return Err(NoMemory);
        }
        self.items.put(key, item)?;
        self.next = key + 1;
        Ok(())
    }

    /// Puts an item in place of the one of its number, where there is one.
    pub fn set(&mut self, item: Shared<T>) -> Result<(), NoMemory>
        ensures ok { OnOk result
            (self.new ≡ change_first (has_key T.key (T.key item)) (λ _. item) self.old) }
        ensures err { OnErr result (self.new ≡ self.old) }
    {
        let key = item.get().key();
        match self.items.book().get(key) {
            Some(_) => self.items.put(key, item),
            None => Ok(()),
        }
    }

    /// Puts an item in place of the first one that passes, where there is one. All that pass are of
    /// the group. `NoMemory` too where that one has another number.
    pub fn set_first<P: Probe<T>>(
        &mut self,
        alloc: Global,
        group: u64,
        probe: &P,
        item: Shared<T>,
    ) -> Result<(), NoMemory>
        requires { (x : T) → P.passes probe.now x ≡ true → belongs T.groups group x ≡ true }
        ensures ok { OnOk result
            (self.new ≡ change_first (P.passes probe.now) (λ _. item) self.old) }
        ensures err { OnErr result (self.new ≡ self.old) }
    {
        let place = match self.items.book().first_place(alloc, group, probe)? {
            Some(place) => place,
            None => return Ok(()),
        };
        if item.get().key() != place {
            return Err(NoMemory);
        }
        self.items.put(place, item)
    }

    /// Takes the item of a number away, where there is one.
    pub fn remove(&mut self, key: u64) -> Result<(), NoMemory>
        ensures ok { OnOk result (self.new ≡ remove_first (has_key T.key key) self.old) }
        ensures err { OnErr result (self.new ≡ self.old) }
    {
        self.items.take(key)
    }

    /// Takes the first item that passes away, where there is one. All that pass are of the group.
    #[tactic(auto, using(crate::proofs::FindLaws::remove_at, crate::proofs::FindLaws::remove_none))]
    pub fn remove_first<P: Probe<T>>(
        &mut self,
        alloc: Global,
        group: u64,
        probe: &P,
    ) -> Result<(), NoMemory>
        requires { (x : T) → P.passes probe.now x ≡ true → belongs T.groups group x ≡ true }
        ensures ok { OnOk result (self.new ≡ remove_first (P.passes probe.now) self.old) }
        ensures err { OnErr result (self.new ≡ self.old) }
    {
        match self.items.book().first_place(alloc, group, probe)? {
            Some(place) => self.items.take(place),
            None => Ok(()),
        }
    }

    /// Takes all items of a group away that don't pass. All that aren't of the group pass. Where
    /// memory is wanting, some may be gone.
    #[tactic(auto, using(crate::proofs::RowLaws::rows_fewer))]
    pub fn keep_in<P: Probe<T>>(
        &mut self,
        alloc: Global,
        group: u64,
        probe: &P,
    ) -> Result<(), NoMemory>
        requires { (x : T) → belongs T.groups group x ≡ false → P.passes probe.now x ≡ true }
        ensures { OnOk result (self.new ≡ filter (P.passes probe.now) self.old) }
    {
        let places = self.items.book().places_of(alloc, group)?;
        keep_at(probe, &places, &mut self.items)
    }

    /// Takes all items away that don't pass: a walk. Where memory is wanting, some may be gone.
    #[tactic(auto, using(crate::proofs::KeepLaws::left_of_all, crate::proofs::RowLaws::rows_fewer))]
    pub fn keep<P: Probe<T>>(&mut self, alloc: Global, probe: &P) -> Result<(), NoMemory>
        ensures { OnOk result (self.new ≡ filter (P.passes probe.now) self.old) }
    {
        let places = self.items.book().all_places(alloc)?;
        keep_at(probe, &places, &mut self.items)
    }

    /// No items from now on. It takes no memory.
    pub fn clear(&mut self)
        ensures { self.new ≡ [] }
    {
        self.items.clear();
        self.next = 0;
    }

    /// Lets the changes go in place, where there is no other copy. Where memory is wanting, some
    /// are left to the next time.
    pub fn settle(&mut self, alloc: Global)
        ensures { self.new ≡ self.old }
    {
        self.items.settle(alloc);
    }
}

impl<T: Keyed> CloneIn for Rows<T> {
    fn clone_in(&self, alloc: Global) -> Result<Rows<T>, NoMemory> {
        let items = self.items.clone_in(alloc)?;
        Ok(Rows {
            items,
            next: self.next,
        })
    }
}
