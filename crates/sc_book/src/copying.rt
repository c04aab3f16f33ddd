//! Copies of books.

ghost use Rattle.std.specs.Prelude.{◌≡◌, OnOk};
ghost use Rattle.sc_book.specs.Places.{all_laid, with_item_at};

use crate::Item;
use crate::book::Book;
use crate::entry::Entry;
use sc_value::{CloneIn, NoMemory};
use std::alloc::Global;
use std::collections::BTreeMap;

impl<T: Item> CloneIn for Book<T> {
    #[tactic(auto, using(crate::proofs::FreshLaws::settled_items))]
    fn clone_in(&self, alloc: Global) -> Result<Book<T>, NoMemory> {
        let mut copy = Book::of_base(alloc, self.base.clone_in(alloc)?);
        if self.changes.is_empty() {
            return Ok(copy);
        }
        add_changes(alloc, &self.changes, &mut copy)?;
        Ok(copy)
    }
}

#[tactic(auto, unfolding(crate::specs::Places::all_laid))]
fn add_changes<T: Item>(
    alloc: Global,
    changes: &BTreeMap<u64, Option<Entry<T>>>,
    copy: &mut Book<T>,
) -> Result<(), NoMemory>
    ensures { OnOk result (copy.new ≡ all_laid copy.old changes.now.entries) }
{
    for (place, change) in changes {
        add_change(alloc, *place, change, copy)?;
    }
    Ok(())
}

#[tactic(auto, unfolding(crate::specs::Places::with_item_at))]
fn add_change<T: Item>(
    alloc: Global,
    place: u64,
    change: &Option<Entry<T>>,
    copy: &mut Book<T>,
) -> Result<(), NoMemory>
    ensures { OnOk result (copy.new ≡ with_item_at copy.old place change.now) }
{
    match change {
        Some(entry) => copy.put(place, entry.clone_in(alloc)?),
        None => copy.take(place),
    }
}
