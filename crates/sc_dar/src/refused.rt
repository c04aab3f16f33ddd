ghost use Rattle.std.specs.Prelude.{◌≡◌};

use sc_value::NoMemory;
use thiserror::Error;

/// Why a text is no routing table.
#[derive(Debug, Clone, Copy, PartialEq, Eq, Error)]
pub enum DarRefused {
    /// The text is refused. Lines are judged in order, the tuples of a line in order, and of one
    /// tuple the lowest kind counts. What stands between the bracket of a tuple and the next comma
    /// or the end is judged after the tuple.
    #[error("the text is no routing table: fault {kind} in line {line}")]
    Refused {
        /// The number of the line at fault, from 1; of a line that is joined from several rows the
        /// number of the first. It is 0 for kind 8.
        line: u64,
        /// 1 the line doesn't begin with a method and `:` or `=`; 2 what follows isn't tuples of
        /// six texts in quotes with commas between; 3 a region isn't ORIGINATING, TERMINATING or
        /// NEUTRAL; 4 a modifier isn't ROUTE, ROUTE_BACK or NO_ROUTE; 5 the orders of the method
        /// aren't 0, 1, 2 and so on; 6 no application has this name; 7 a route is neither empty nor
        /// a `sip:` URI, bare or in angle brackets; 8 the text has more than 65,536 bytes; 9 the
        /// method has more than 64 tuples; 10 an earlier line has the method too, which comes
        /// before what is wrong with the line's tuples.
        kind: u8,
    },
    /// There was no memory to read the text. It says nothing of the text.
    #[error("no memory")]
    NoMemory,
}

impl From<NoMemory> for DarRefused {
    ghost use Rattle.sc_dar.specs.declared.refused.DarRefused.TheVariants.{NoMemory};

    ghost from_gives = { λ _ e. e ≡ NoMemory };

    fn from(_cause: NoMemory) -> DarRefused {
        DarRefused::NoMemory
    }
}
