ghost use Rattle.std.specs.Prelude.{◌≡◌, ◌≤◌, ℕ, List, Some, option_copied, IsTrue, ◌↔◌};
ghost use Rattle.sc_edge.specs.Faults.{Rose};
ghost use Rattle.sc_edge.specs.MemoryShelf.{after_read, bytes_under, fails};
ghost use Rattle.sc_edge.specs.Shelving.{Gives};

use crate::plan::{counted, is_planned};
use crate::{Shelf, Shelved};
use sc_value::{CloneIn, List, Text};
use std::alloc::Global;
use std::marker::Model;

/// A name, and the bytes that a shelf in memory holds under it.
#[derive(Drop)]
pub struct Item {
    /// The name.
    pub name: Text,
    /// The bytes.
    pub bytes: Text,
}

/// A shelf in memory. A read fails where it is told to, and where nothing stands under the name.
#[derive(Drop)]
pub struct MemShelf {
    alloc: Global,
    items: List<Item>,
    failing: List<u64>,
    reads: u64,
    faults: u64,
}

impl Model for MemShelf {
    ghost use Rattle.sc_edge.specs.MemoryShelf.{ShelfState};

    ghost Value = { ShelfState };

    ghost view = { λ s.
        record { items = s.items; failing = s.failing; reads = s.reads; faults = s.faults } };
}

impl MemShelf {
    /// A shelf of these items; of two with one name the first counts. The reads whose numbers stand
    /// in `failing` fail, where the first read has number 1.
    pub fn new(alloc: Global, items: List<Item>, failing: List<u64>) -> MemShelf
        ensures { result ≡ record { items = items; failing = failing; reads = 0; faults = 0 } }
    {
        MemShelf {
            alloc,
            items,
            failing,
            reads: 0,
            faults: 0,
        }
    }

    /// How many reads failed.
    pub fn faults(&self) -> u64
        ensures { result ≡ self.now.faults }
    {
        self.faults
    }
}

impl Shelf for MemShelf {
    ghost holds = { λ s name. bytes_under s.items name };

    ghost faults = { λ s. s.faults };

    fn read(&mut self, name: &Text, max: usize) -> Shelved
        ensures same { (n : List ℕ) → bytes_under self.new.items n ≡ bytes_under self.old.items n }
        ensures later { self.old.faults ≤ self.new.faults }
        ensures gives { Gives result (bytes_under self.old.items name.now) max
            (Rose self.old.faults self.new.faults) }

        // It fails exactly where it is told to, or nothing stands under the name.
        ensures failed { (result ≡ Shelved.Failed) ↔ IsTrue (fails self.old name.now) }
        ensures after { self.new ≡ after_read self.old name.now }
    {
        self.reads = counted(self.reads);
        if is_planned(self.failing.as_slice(), self.reads) {
            self.faults = counted(self.faults);
            return Shelved::Failed;
        }
        match bytes_of(self.items.as_slice(), name) {
            Some(bytes) => copied(self.alloc, bytes, max),
            None => {
                self.faults = counted(self.faults);
                Shelved::Failed
            }
        }
    }
}

// The bytes of the first item of this name.
fn bytes_of<'a>(items: &'a [Item], name: &Text) -> Option<&'a Text>
    ensures { option_copied result ≡ bytes_under items.now name.now }
{
    items
        .iter()
        .find(|item| item.name.as_bytes() == name.as_bytes())
        .map(|item| &item.bytes)
}

// A copy of the bytes, if they are at most `max`.
fn copied(alloc: Global, bytes: &Text, max: usize) -> Shelved
    ensures gives { Gives result (Some bytes.now) max ⊥ }
{
    if bytes.len() > max {
        return Shelved::Long;
    }
    match bytes.clone_in(alloc) {
        Ok(copy) => Shelved::Got(copy),
        Err(_) => Shelved::NoMemory,
    }
}
