ghost use Rattle.std.specs.Prelude.{◌≡◌, ℕ, Option, IfOk};

use sc_value::NoMemory;

/// What an item tells of itself, by which it is found.
pub trait Item: Drop {
    ghost weight: { Self → ℕ };

    ghost due: { Self → Option ℕ };

    ghost first: { Self → Option ℕ };

    ghost groups: { Self → ℕ × ℕ };

    /// Its part of the total.
    fn weight(&self) -> u64
        ensures { result ≡ weight self.now };

    /// The least moment at which something of it is due, None where nothing is. `NoMemory` where
    /// the moment is past the greatest number.
    fn due(&self) -> Result<Option<u64>, NoMemory>
        ensures { IfOk result (λ moment. moment ≡ due self.now) };

    /// The number of the first event that waits in it, None where none does.
    fn first(&self) -> Option<u64>
        ensures { result ≡ first self.now };

    /// The two groups in which it is found with others.
    fn groups(&self) -> (u64, u64)
        ensures { result ≡ groups self.now };
}

/// An item with a number of its own, by which it is found alone.
pub trait Keyed: Item {
    ghost key: { Self → ℕ };

    /// Its number.
    fn key(&self) -> u64
        ensures { result ≡ key self.now };
}
