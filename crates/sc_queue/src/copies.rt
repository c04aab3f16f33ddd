//! Copies of items, behind those of a list.

ghost use Rattle.std.specs.Prelude.{◌≡◌, ◌++◌, OnOk};
ghost use Rattle.sc_queue.specs.Joined.{joined};

use sc_value::{CloneIn, List, NoMemory, Shared};
use std::alloc::Global;

/// A copy of each of these items goes behind the list.
pub fn add_items<T: CloneIn>(alloc: Global, items: &[T], list: &mut List<T>) -> Result<(), NoMemory>
    ensures { OnOk result (list.new ≡ list.old ++ items.now) }
{
    for item in items {
        let copy = item.clone_in(alloc)?;
        list.push(copy)?;
    }
    Ok(())
}

/// A copy of each item of these parts goes behind the list.
pub fn add_parts<T: CloneIn>(
    alloc: Global,
    parts: &[Shared<List<T>>],
    list: &mut List<T>,
) -> Result<(), NoMemory>
    ensures { OnOk result (list.new ≡ list.old ++ joined parts.now) }
{
    for part in parts {
        add_items(alloc, part.get().as_slice(), list)?;
    }
    Ok(())
}
