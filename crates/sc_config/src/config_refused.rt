use sc_value::Text;
use thiserror::Error;

/// Why a text gives no settings.
#[derive(Debug, Drop, Error)]
pub enum ConfigRefused {
    /// The text is refused. Of several faults the first is told, by kinds in the order 6, 1, 7, 2,
    /// 3, 4, 5.
    #[error("the text is no configuration: fault {kind} of the key `{key}`")]
    Refused {
        /// 1 the text is no TOML, or not UTF-8; 2 a key is missing; 3 a value has a wrong type or
        /// range; 4 a second application has this name; 5 no kind has this name; 6 the text has
        /// more than 65,536 bytes; 7 a key isn't known.
        kind: u8,
        /// The key at fault: empty for 1 and 6, the application's name for 4, the kind for 5, and
        /// the host's name for a wrong entry of `hosts`.
        key: Text,
    },
    /// Memory ran out.
    #[error("no memory")]
    NoMemory,
}

/// The kinds of refusals.
pub(crate) const SYNTAX: u8 = 1;

pub(crate) const MISSING: u8 = 2;

pub(crate) const RANGE: u8 = 3;

pub(crate) const DOUBLE_NAME: u8 = 4;

pub(crate) const UNKNOWN_KIND: u8 = 5;

pub(crate) const LONG: u8 = 6;

pub(crate) const UNKNOWN_KEY: u8 = 7;
