ghost use Rattle.std.specs.Prelude.{◌≡◌, [], true, length, sum_by, OnOk, OnErr};
ghost use Rattle.std.specs.Map.{values_of};
ghost use Rattle.std.specs.Option.{option_map};
ghost use Rattle.std.specs.Ordering.{nat_cmp};
ghost use Rattle.std.specs.FinMap.Entries.{is_sorted};
ghost use Rattle.sc_book.specs.Places.{at_place, with_item, without_item};

use crate::Item;
use crate::book::Book;
use crate::counts::Counts;
use crate::entry::Entry;
use sc_value::{CloneIn, NoMemory, Shared};
use std::alloc::Global;
use std::marker::Model;

/// A book that knows how many items it has, and what their weights come to.
#[derive(Drop)]
pub struct Counted<T: Item> {
    book: Book<T>,
    counts: Counts,
}

impl<T: Item> Model for Counted<T> {
    ghost use Rattle.sc_book.specs.Places.{Placed};
    ghost use Rattle.sc_book.specs.Counts.{AreCounts};

    ghost Value = { Placed T };

    ghost view = { λ c. c.book };

    ghost invariant = { λ c. AreCounts T.weight c.book c.counts };
}

impl<T: Item> Counted<T> {
    /// No items. It takes no memory.
    #[tactic(auto, using(crate::proofs::CountLaws::no_counts))]
    pub fn new(alloc: Global) -> Counted<T>
        ensures { result ≡ [] }
    {
        Counted {
            book: Book::new(alloc),
            counts: Counts::new(),
        }
    }

    /// The items.
    pub fn book(&self) -> &Book<T>
        ensures { result.now ≡ self.now }
    {
        &self.book
    }

    /// How many items there are.
    pub fn len(&self) -> usize
        ensures { result ≡ length (values_of self.now) }
    {
        self.counts.items
    }

    /// What the weights come to.
    pub fn total(&self) -> u64
        ensures { result ≡ sum_by T.weight (values_of self.now) }
    {
        self.counts.total
    }

    /// Puts an item at a place.
    #[tactic(auto, using(crate::proofs::CountLaws::counted_items))]
    pub fn put(&mut self, place: u64, item: Shared<T>) -> Result<(), NoMemory>
        ensures ok { OnOk result (self.new ≡ with_item self.old place item) }
        ensures err { OnErr result (self.new ≡ self.old) }
    {
        let entry = Entry::new(item)?;
        let former = weight_in(&self.book, place);
        let counts = self.counts.with(former, entry.weight())?;
        self.book.put(place, entry)?;
        self.counts = counts;
        Ok(())
    }

    /// Takes the item at a place away.
    #[tactic(auto, using(crate::proofs::CountLaws::counted_items))]
    pub fn take(&mut self, place: u64) -> Result<(), NoMemory>
        ensures ok { OnOk result (self.new ≡ without_item self.old place) }
        ensures err { OnErr result (self.new ≡ self.old) }
        ensures sorted { is_sorted nat_cmp self.old ≡ true }
    {
        let former = weight_in(&self.book, place);
        let counts = self.counts.without(former);
        self.book.take(place)?;
        self.counts = counts;
        Ok(())
    }

    /// No items from now on. It takes no memory.
    #[tactic(auto, using(crate::proofs::CountLaws::no_counts))]
    pub fn clear(&mut self)
        ensures { self.new ≡ [] }
    {
        self.book.clear();
        self.counts = Counts::new();
    }

    /// Lets the changes go into the base, where no other book has it.
    pub fn settle(&mut self, alloc: Global)
        ensures { self.new ≡ self.old }
    {
        self.book.settle(alloc);
    }
}

impl<T: Item> CloneIn for Counted<T> {
    fn clone_in(&self, alloc: Global) -> Result<Counted<T>, NoMemory> {
        let book = self.book.clone_in(alloc)?;
        Ok(Counted {
            book,
            counts: self.counts,
        })
    }
}

// The weight of the item at a place, where there is one.
fn weight_in<T: Item>(book: &Book<T>, place: u64) -> Option<u64>
    ensures weight { result ≡ option_map T.weight (at_place place book.now) }
    ensures sorted { is_sorted nat_cmp book.now ≡ true }
{
    match book.get(place) {
        Some(entry) => Some(entry.weight()),
        None => None,
    }
}
