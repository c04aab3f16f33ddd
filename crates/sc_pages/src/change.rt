ghost use Rattle.std.specs.Prelude.{◌≡◌, Bool, OnOk};

use sc_value::NoMemory;

/// A test of items.
pub trait Probe<T> {
    ghost passes: { Self → T → Bool };

    /// Whether the item passes.
    fn passes(&self, item: &T) -> bool
        ensures { result ≡ passes self.now item.now };
}

/// A change of an item.
pub trait Change<T> {
    ghost changed: { Self → T → T };

    /// Changes the item. `Err` for want of memory alone.
    fn change(&self, item: &mut T) -> Result<(), NoMemory>
        ensures { OnOk result (item.new ≡ changed self.now item.old) };
}
