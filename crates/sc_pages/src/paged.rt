ghost use Rattle.std.specs.Prelude.{◌≡◌, ℕ, Bool};

use sc_value::CloneIn;

/// An item with a number.
pub trait Paged: CloneIn {
    ghost number: { Self → ℕ };

    ghost rests: { Self → Bool };

    /// Its number.
    fn number(&self) -> u32
        ensures { result ≡ number self.now };

    /// Whether the walks that go over all items find nothing to do with it.
    fn rests(&self) -> bool
        ensures { result ≡ rests self.now };
}
