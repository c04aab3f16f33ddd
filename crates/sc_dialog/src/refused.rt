ghost use Rattle.std.specs.Prelude.{◌≡◌};

use sc_value::NoMemory;

/// Why a dialog doesn't take a request of the peer.
#[derive(Clone, Copy, Debug, PartialEq, Eq)]
pub enum DialogRefused {
    /// The request's sequence number `got` is lower than `last`, the greatest that the dialog
    /// received before (RFC 3261 section 12.2.2).
    LowCseq { last: u32, got: u32 },
    /// There was no memory for the new target.
    NoMemory,
}

impl From<NoMemory> for DialogRefused {
    ghost use Rattle.sc_dialog.specs.declared.refused.DialogRefused.TheVariants.{NoMemory};

    ghost from_gives = { λ _ e. e ≡ NoMemory };

    fn from(_cause: NoMemory) -> DialogRefused {
        DialogRefused::NoMemory
    }
}
