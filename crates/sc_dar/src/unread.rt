ghost use Rattle.std.specs.Prelude.{◌≡◌};

use sc_value::NoMemory;

/// Why a line gives no list.
#[derive(Debug, Clone, Copy, PartialEq, Eq)]
pub(crate) enum Unread {
    /// The line is refused, by the kind of what is wrong first.
    Fault { kind: u8 },
    NoMemory,
}

impl From<NoMemory> for Unread {
    ghost use Rattle.sc_dar.specs.declared.unread.Unread.TheVariants.{NoMemory};

    ghost from_gives = { λ _ e. e ≡ NoMemory };

    fn from(_cause: NoMemory) -> Unread {
        Unread::NoMemory
    }
}

/// The kinds of refusals.
pub(crate) const NO_SEPARATOR: u8 = 1;

pub(crate) const BAD_TUPLE: u8 = 2;

pub(crate) const BAD_REGION: u8 = 3;

pub(crate) const BAD_MODIFIER: u8 = 4;

pub(crate) const BAD_ORDER: u8 = 5;

pub(crate) const UNKNOWN_APPLICATION: u8 = 6;

pub(crate) const BAD_ROUTE: u8 = 7;

pub(crate) const LONG: u8 = 8;

pub(crate) const TOO_MANY: u8 = 9;

pub(crate) const DOUBLE_METHOD: u8 = 10;
