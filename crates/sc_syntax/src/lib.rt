//! The syntax of messages and of their parts (RFC 3261 sections 7 and 25.1): definitions and laws,
//! the states of a scan, and what the lines of a message leave. A text is cut at its separators,
//! and each part is read as a whole.
#![tactic(auto)]

mod ending;
mod front;
mod left;
mod scan;

pub use ending::Ending;
pub use front::Front;
pub use left::{HeadParts, Header, Left, Lists, Singles, Start};
pub use scan::Scan;
