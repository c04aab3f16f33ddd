ghost use Rattle.std.specs.Prelude.{◌≡◌};

use sc_uri_text::UriRefused;
use sc_value::NoMemory;

/// Why a header's value wasn't read.
#[derive(Clone, Copy, Debug, PartialEq, Eq)]
pub enum Unread {
    /// The value is outside the grammar of its header (RFC 3261 section 25.1).
    Fault,
    /// There was no memory to read the value. It says nothing of the value.
    NoMemory,
}

impl From<NoMemory> for Unread {
    ghost use Rattle.sc_head_text.specs.declared.unread.Unread.TheVariants.{NoMemory};

    ghost from_gives = { λ _ e. e ≡ NoMemory };

    fn from(_cause: NoMemory) -> Unread {
        Unread::NoMemory
    }
}

impl From<UriRefused> for Unread {
    ghost use Rattle.sc_head_text.specs.Answers.{unread_of};

    ghost from_gives = { λ cause e. e ≡ unread_of cause };

    fn from(cause: UriRefused) -> Unread {
        match cause {
            UriRefused::Refused { at: _, kind: _ } => Unread::Fault,
            UriRefused::NoMemory => Unread::NoMemory,
        }
    }
}
