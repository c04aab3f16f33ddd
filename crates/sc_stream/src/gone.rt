//! Bytes that are let go. They are there for contracts alone, and no memory holds them.

ghost use Rattle.std.specs.Prelude.{◌≡◌, List, ℕ, ◌++◌};
ghost use Rattle.std.specs.Borrow.{ftrue};

use std::marker::Model;

/// Bytes that are let go. The value has no size, and its functions do nothing when the program
/// runs.
#[derive(Drop)]
pub struct Gone {
    pub ghost bytes: { List ℕ },
}

impl Model for Gone {
    ghost also_owns = { λ _. ftrue };
}

impl Gone {
    /// These bytes.
    pub fn of(_bytes: &[u8]) -> Gone
        ensures { result.bytes ≡ _bytes.now }
    {
        Gone {}
    }

    /// The bytes, and a piece behind them.
    pub fn with(&self, _piece: &[u8]) -> Gone
        ensures { result.bytes ≡ self.now.bytes ++ _piece.now }
    {
        Gone {}
    }
}
