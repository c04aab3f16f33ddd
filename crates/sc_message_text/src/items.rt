//! Lists, whose items are written one after the other.

ghost use Rattle.std.specs.Prelude.{◌≡◌, ◌++◌, List, ℕ, OnOk};
ghost use Rattle.std.specs.List.{flat_map};

use sc_value::NoMemory;

// A way to write an item.
pub trait Form<T> {
    ghost form: { T → List ℕ };

    fn put(item: &T, out: &mut Vec<u8>) -> Result<(), NoMemory>
        ensures { OnOk result (out.new.items ≡ out.old.items ++ form item.now) };
}

pub fn put_items<T, F: Form<T>>(items: &[T], out: &mut Vec<u8>) -> Result<(), NoMemory>
    ensures { OnOk result (out.new.items ≡ out.old.items ++ flat_map F.form items.now) }
{
    for item in items {
        F::put(item, out)?;
    }
    Ok(())
}
