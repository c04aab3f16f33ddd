ghost use Rattle.std.specs.Prelude.{◌≡◌, [], Some, OnOk, OnErr, IfOk, true};
ghost use Rattle.std.specs.Option.{option_copied, option_map, unwrap_or};
ghost use Rattle.std.specs.Ordering.{nat_cmp};
ghost use Rattle.std.specs.FinMap.Entries.{is_sorted};
ghost use Rattle.sc_book.specs.Places.{at_place, with_item, without_item};
ghost use Rattle.sc_book.specs.Firsts.{free_of, earliest_at};

use crate::Item;
use crate::entry::Entry;
use crate::index::Index;
use crate::indexes::add_groups;
use crate::topped::Topped;
use sc_value::{NoMemory, Shared};
use std::alloc::Global;
use std::collections::BTreeMap;
use std::marker::Model;

/// Items by their places, of which a copy costs little: it has the same base, and changes of its
/// own that lie over it.
#[derive(Drop)]
pub struct Book<T: Item> {
    pub(crate) base: Topped<T>,
    /// What was changed since; None takes an item away.
    pub(crate) changes: BTreeMap<u64, Option<Entry<T>>>,
    /// The places of what was put there, by the groups; there may be more.
    pub(crate) fresh: Index,
}

impl<T: Item> Model for Book<T> {
    ghost use Rattle.sc_book.specs.Places.{Placed, all_laid};
    ghost use Rattle.sc_book.specs.Groups.{IsBook};

    ghost Value = { Placed T };

    ghost view = { λ b. all_laid b.base b.changes.entries };

    ghost invariant = { λ b. IsBook T.groups b.base b.changes.entries b.fresh };
}

impl<T: Item> Book<T> {
    /// No items. It takes no memory.
    pub fn new(alloc: Global) -> Book<T>
        ensures { result ≡ [] }
    {
        Book::of_base(alloc, Topped::new(alloc))
    }

    /// The items of a base, without changes. It takes no memory.
    #[tactic(auto, using(crate::proofs::PlaceLaws::none_laid, crate::proofs::FreshLaws::none_book))]
    pub fn of_base(alloc: Global, base: Topped<T>) -> Book<T>
        requires { is_sorted nat_cmp base ≡ true }
        ensures { result ≡ base }
    {
        Book {
            base,
            changes: BTreeMap::new(alloc),
            fresh: Index::new(alloc),
        }
    }

    /// The item at a place, with what it tells. The cost is logarithmic.
    #[tactic(auto, using(crate::proofs::PlaceLaws::found_over, crate::proofs::PlaceLaws::order_over))]
    pub fn get(&self, place: u64) -> Option<&Entry<T>>
        ensures item { option_copied result ≡ at_place place self.now }
        ensures sorted { is_sorted nat_cmp self.now ≡ true }
    {
        newest(self.changes.get(&place), &self.base, place)
    }

    /// The item at a place.
    pub fn item(&self, place: u64) -> Option<&Shared<T>>
        ensures { option_copied result ≡ at_place place self.now }
    {
        match self.get(place) {
            Some(entry) => Some(entry.item()),
            None => None,
        }
    }

    /// Puts an item at a place. The cost is logarithmic in the number of the changes.
    #[tactic(auto, using(crate::proofs::TopLaws::bare_book, crate::proofs::TopLaws::bare_put))]
    pub fn put(&mut self, place: u64, entry: Entry<T>) -> Result<(), NoMemory>
        ensures ok { OnOk result (self.new ≡ with_item self.old place entry) }
        ensures err { OnErr result (self.new ≡ self.old) }
    {
        if self.changes.is_empty() && self.base.has_room(place) {
            self.base.lay(place, Some(entry))?;
            return Ok(());
        }
        self.put_over(place, entry)
    }

    // The same, over the changes that there are.
    fn put_over(&mut self, place: u64, entry: Entry<T>) -> Result<(), NoMemory>
        ensures ok { OnOk result (self.new ≡ with_item self.old place entry) }
        ensures err { OnErr result (self.new ≡ self.old) }
    {
        let former = groups_in(&self.base, place);
        add_groups(&mut self.fresh, former, entry.numbers().groups, place)?;
        self.changes.insert(place, Some(entry))?;
        Ok(())
    }

    /// Takes the item at a place away. The cost is logarithmic in the number of the changes.
    #[tactic(auto, using(crate::proofs::TopLaws::bare_book, crate::proofs::TopLaws::bare_take))]
    pub fn take(&mut self, place: u64) -> Result<(), NoMemory>
        ensures ok { OnOk result (self.new ≡ without_item self.old place) }
        ensures err { OnErr result (self.new ≡ self.old) }
    {
        if self.changes.is_empty() && self.base.has_room(place) {
            self.base.lay(place, None)?;
            return Ok(());
        }
        self.take_over(place)
    }

    // The same, over the changes that there are.
    #[tactic(auto, using(crate::proofs::PlaceLaws::taken_over, crate::proofs::FreshLaws::take_book))]
    fn take_over(&mut self, place: u64) -> Result<(), NoMemory>
        ensures ok { OnOk result (self.new ≡ without_item self.old place) }
        ensures err { OnErr result (self.new ≡ self.old) }
    {
        self.changes.insert(place, None)?;
        Ok(())
    }

    /// The lowest number of a first event of the items at other places, with the first place of an
    /// item that has it. `NoMemory` where changes didn't go into the base.
    pub fn first_but(&self, places: &[u64]) -> Result<Option<(u64, u64)>, NoMemory>
        ensures { IfOk result (λ next. next ≡ earliest_at T.first (free_of places.now self.now)) }
    {
        if !self.changes.is_empty() {
            return Err(NoMemory);
        }
        let next = self.base.first_but(places)?;
        Ok(next)
    }

    /// No items from now on. It takes no memory.
    #[tactic(auto, using(crate::proofs::PlaceLaws::none_laid, crate::proofs::FreshLaws::none_book))]
    pub fn clear(&mut self)
        ensures { self.new ≡ [] }
    {
        self.base.clear();
        self.changes.clear();
        self.fresh.clear();
    }

    /// Lets the changes go into the base, where no other book has it: then the next copy has no
    /// changes. Where memory is wanting, some stay as they are.
    #[tactic(auto, using(crate::proofs::FreshLaws::empty_book))]
    pub fn settle(&mut self, alloc: Global)
        ensures { self.new ≡ self.old }
    {
        if self.changes.is_empty() && self.base.is_bare() {
            return;
        }
        self.base.settle(alloc, &mut self.changes);
        if self.changes.is_empty() {
            self.fresh.clear();
        }
    }
}

// The groups of the item at a place, where there is one.
fn groups_in<T: Item>(base: &Topped<T>, place: u64) -> Option<(u64, u64)>
    ensures { result ≡ option_map T.groups (at_place place base.now) }
{
    match base.get(place) {
        Some(entry) => Some(entry.numbers().groups),
        None => None,
    }
}

// The newest of the change at a place, where there is one, and of the base's item.
fn newest<'a, T: Item>(
    change: Option<&'a Option<Entry<T>>>,
    base: &'a Topped<T>,
    place: u64,
) -> Option<&'a Entry<T>>
    ensures { option_copied result
        ≡ unwrap_or (option_copied change.entry) (at_place place base.entry.now) }
{
    match change {
        Some(Some(entry)) => Some(entry),
        Some(None) => None,
        None => base.get(place),
    }
}
