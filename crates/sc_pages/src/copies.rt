//! Copies of items, behind those of a list.

ghost use Rattle.std.specs.Prelude.{◌≡◌, ◌++◌, OnOk};
ghost use Rattle.sc_queue.specs.Joined.{joined};

use crate::Paged;
use crate::page::Page;
use sc_value::{CloneIn, List, NoMemory};
use std::alloc::Global;

/// A copy of each of these items goes behind the list.
pub fn add_items<T: CloneIn>(alloc: Global, items: &[T], list: &mut List<T>) -> Result<(), NoMemory>
    ensures { OnOk result (list.new ≡ list.old ++ items.now) }
{
    for item in items {
        let copy = item.clone_in(alloc)?;
        list.push(copy)?;
    }
    Ok(())
}

/// A copy of each item of these pages goes behind the list.
pub fn add_pages<T: Paged>(
    alloc: Global,
    pages: &[Page<T>],
    list: &mut List<T>,
) -> Result<(), NoMemory>
    ensures { OnOk result (list.new ≡ list.old ++ joined pages.now) }
{
    for page in pages {
        add_items(alloc, page.items(), list)?;
    }
    Ok(())
}
