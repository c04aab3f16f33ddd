ghost use Rattle.std.specs.Prelude.{◌≡◌, ◌==◌, ◌+◌, ◌<◌, ◌≤◌, ◌++◌, ◌∷◌, [], ◌↔◌, length, vec_len, vec_capacity, IsTrue, IfErr, OnOk, OnErr};
ghost use Rattle.std.specs.Option.{option_copied};
ghost use Rattle.std.specs.List.{slice_get};
ghost use Rattle.sc_journal.specs.Pushing.{IsFull, RefusesPush};

use std::alloc::{AllocError, Global};
use std::marker::Model;

/// A list of items that only grows. It keeps its limits and how many bytes its items have.
#[derive(Drop)]
pub struct Journal<T> {
    items: Vec<T>,
    used: u64,
    most_items: u64,
    most_bytes: u64,
}

impl<T> Model for Journal<T> {
    ghost use Rattle.std.specs.Prelude.{◌≤◌, ◌-◌, length, vec_capacity};
    ghost use Rattle.sc_journal.specs.Kept.{Kept};

    ghost Value = { Kept T };

    ghost view = { λ j.
        record {
          items = j.items.items;
          used = j.used;
          room = vec_capacity j.items - length j.items.items;
          most_items = j.most_items;
          most_bytes = j.most_bytes;
        } };

    ghost invariant = { λ j. (length j.items.items ≤ j.most_items) × (j.used ≤ j.most_bytes) };
}

/// Why an item was not put. It is handed back, and the journal is as it was.
#[derive(Drop)]
pub enum PushRefused<T> {
    /// The journal has its most items, or with the item would have more than its most bytes; the
    /// two limits.
    Full {
        item: T,
        most_items: u64,
        most_bytes: u64,
    },
    /// Want of memory.
    NoMemory {
        item: T,
    },
}

impl<T> Journal<T> {
    /// An empty journal that takes at most so many items, of at most so many bytes together. It
    /// takes no memory.
    pub fn new(alloc: Global, items: u64, bytes: u64) -> Journal<T>
        ensures { result
            ≡ record {
              items = [];
              used = 0;
              room = result.room;
              most_items = items;
              most_bytes = bytes;
            } }
    {
        Journal {
            items: Vec::new(alloc),
            used: 0,
            most_items: items,
            most_bytes: bytes,
        }
    }

    /// How many items there are.
    pub fn len(&self) -> u64
        ensures { result ≡ length self.now.items }
    {
        self.items.len() as u64
    }

    /// Whether there is no item.
    pub fn is_empty(&self) -> bool
        ensures { result ≡ (length self.now.items == 0) }
    {
        self.items.is_empty()
    }

    /// The item of this place, from 0; None exactly where the place isn't below the length.
    pub fn get(&self, place: u64) -> Option<&T>
        ensures { option_copied result ≡ slice_get self.now.items place }
    {
        item_at(self.items.as_slice(), place as usize)
    }

    /// The most items that it takes.
    pub fn most_items(&self) -> u64
        ensures { result ≡ self.now.most_items }
    {
        self.most_items
    }

    /// The most bytes that it takes.
    pub fn most_bytes(&self) -> u64
        ensures { result ≡ self.now.most_bytes }
    {
        self.most_bytes
    }

    /// Whether an item of so many bytes finds no room: the journal has its most items, or with it
    /// would have more than its most bytes.
    pub fn is_full(&self, bytes: u64) -> bool
        ensures full { IsTrue result ↔ IsFull self.now bytes }
    {
        self.items.len() as u64 == self.most_items || bytes > self.most_bytes - self.used
    }

    /// Puts an item of so many bytes at the end.
    ///
    /// # Errors
    ///
    /// `Full` exactly where the journal has its most items, or with the item would have more than its
    /// most bytes, else `NoMemory` for want of memory. The item is handed back, and the journal is
    /// as it was.
    pub fn push(&mut self, item: T, bytes: u64) -> Result<(), PushRefused<T>>
    where
        T: Drop,
        ensures ok { OnOk result
            (self.new
            ≡ record self.old {
              items = self.old.items ++ item ∷ [];
              used = self.old.used + bytes;
              room = self.new.room;
            }) }
        ensures room { OnOk result (¬ (IsFull self.old bytes)) }
        ensures err { OnErr result (self.new ≡ record self.old { room = self.new.room }) }
        ensures refused { IfErr result (λ cause. RefusesPush self.old item bytes cause) }
    {
        if self.is_full(bytes) {
            return Err(PushRefused::Full {
                item,
                most_items: self.most_items,
                most_bytes: self.most_bytes,
            });
        }
        match self.reserve() {
            Ok(()) => {
                self.put(item, bytes);
                Ok(())
            }
            Err(_) => Err(PushRefused::NoMemory { item }),
        }
    }

    /// Makes room for one more item. For want of memory all is as before.
    pub fn reserve(&mut self) -> Result<(), AllocError>
        ensures ok { OnOk result
            ((0 < self.new.room) × (self.new ≡ record self.old { room = self.new.room })) }
        ensures err { OnErr result (self.new ≡ record self.old { room = self.new.room }) }
    {
        self.items.reserve(1)
    }

    /// Puts an item of so many bytes at the end, into room that was made for it.
    pub fn put(&mut self, item: T, bytes: u64)
    where
        T: Drop,
        requires room { 0 < self.old.room }
        requires items { length self.old.items < self.old.most_items }
        requires bytes { self.old.used + bytes ≤ self.old.most_bytes }
        ensures { self.new
            ≡ record self.old {
              items = self.old.items ++ item ∷ [];
              used = self.old.used + bytes;
              room = self.new.room;
            } }
    {
        self.used += bytes;
        put_item(&mut self.items, item);
    }
}

fn put_item<T: Drop>(items: &mut Vec<T>, item: T)
    requires { vec_len items.old < vec_capacity items.old }
    ensures { items.new.items ≡ items.old.items ++ item ∷ [] }
{
    match items.push(item) {
        Ok(()) => {}
        Err(_) => unreachable!(),
    }
}

fn item_at<T>(items: &[T], place: usize) -> Option<&T>
    ensures { option_copied result ≡ slice_get items.now place }
{
    items.get(place)
}
