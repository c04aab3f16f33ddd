ghost use Rattle.std.specs.Prelude.{◌≡◌};

use sc_head_text::Unread;
use sc_value::NoMemory;
use thiserror::Error;

/// Why a text is no message.
#[derive(Debug, Clone, Copy, PartialEq, Eq, Error)]
pub enum MessageRefused {
    /// The text spells no message (RFC 3261 section 7). `at` is the place where it goes wrong, in
    /// bytes from 0, and `kind` is what is wrong there: 1 to 12, as [`crate::read_message`] tells.
    #[error("the text is no message: fault {kind} at byte {at}")]
    Refused { at: usize, kind: u8 },
    /// There was no memory to read the text. It says nothing of the text.
    #[error("no memory")]
    NoMemory,
}

impl From<NoMemory> for MessageRefused {
    ghost use Rattle.sc_message_text.specs.declared.refused.MessageRefused.TheVariants.{NoMemory};

    ghost from_gives = { λ _ e. e ≡ NoMemory };

    fn from(_cause: NoMemory) -> MessageRefused {
        MessageRefused::NoMemory
    }
}

// Why a line is refused.
#[derive(Debug, Clone, Copy, PartialEq, Eq)]
pub enum LineRefused {
    // The line has a fault of this kind.
    Fault(u8),
    // There was no memory to read the line. It says nothing of the line.
    NoMemory,
}

impl From<NoMemory> for LineRefused {
    ghost use Rattle.sc_message_text.specs.declared.refused.LineRefused.TheVariants.{NoMemory};

    ghost from_gives = { λ _ e. e ≡ NoMemory };

    fn from(_cause: NoMemory) -> LineRefused {
        LineRefused::NoMemory
    }
}

impl From<Unread> for LineRefused {
    ghost use Rattle.sc_message_text.specs.Answers.{value_refused};

    ghost from_gives = { λ cause e. e ≡ value_refused cause };

    fn from(cause: Unread) -> LineRefused {
        match cause {
            Unread::Fault => LineRefused::Fault(9),
            Unread::NoMemory => LineRefused::NoMemory,
        }
    }
}
