//! Lists, whose items are written one after the other.

ghost use Rattle.std.specs.Prelude.{◌≡◌, ◌++◌, List, ℕ, OnOk};
ghost use Rattle.std.specs.List.{flat_map};

use sc_value::{NoMemory, Text};
use std::alloc::Global;

/// A way to write an item.
pub trait Form<T> {
    ghost form: { T → List ℕ };

    fn put(alloc: Global, item: &T, out: &mut Text) -> Result<(), NoMemory>
        ensures { OnOk result (out.new ≡ out.old ++ form item.now) };
}

pub fn put_items<T, F: Form<T>>(alloc: Global, items: &[T], out: &mut Text) -> Result<(), NoMemory>
    ensures { OnOk result (out.new ≡ out.old ++ flat_map F.form items.now) }
{
    for item in items {
        F::put(alloc, item, out)?;
    }
    Ok(())
}
