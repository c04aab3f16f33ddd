ghost use Rattle.std.specs.Prelude.{◌≡◌};

use sc_value::NoMemory;
use thiserror::Error;

/// Why a text is no URI.
#[derive(Debug, Clone, Copy, PartialEq, Eq, Error)]
pub enum UriRefused {
    /// The text is outside the grammar of URIs (RFC 3261 sections 19.1.1 and 25.1). `at` is the
    /// place of the first part at fault, in bytes from 0, and `kind` is which part it is: 1 the
    /// scheme (place 0), 2 the host (after the `@`, or after the scheme's colon), 3 the port
    /// (after its colon), 4 a parameter or the headers (after their `;` or `?`). A text of
    /// another scheme with a blank, an angle bracket, CR, LF or NUL in it is refused by its
    /// scheme; a user with one is refused by its host, at the place after the scheme's colon.
    #[error("the text is no URI: fault {kind} at byte {at}")]
    Refused { at: usize, kind: u8 },
    /// There was no memory to read the text. It says nothing of the text.
    #[error("no memory")]
    NoMemory,
}

impl From<NoMemory> for UriRefused {
    ghost use Rattle.sc_uri_text.specs.declared.refused.UriRefused.TheVariants.{NoMemory};

    ghost from_gives = { λ _ e. e ≡ NoMemory };

    fn from(_cause: NoMemory) -> UriRefused {
        UriRefused::NoMemory
    }
}
