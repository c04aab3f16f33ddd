//! What comes from outside: a message goes to the transaction that it belongs to, to the session
//! that it names, or begins a session; else it is answered at once (RFC 3261 sections 8.2, 12.2.2,
//! 17.1.3 and 17.2.3).
#![tactic(auto)]

mod answers;
mod arriving;
mod beginning;
mod finding;
mod later;
mod messages;
mod sorting;

pub use answers::{answer_bad, bad_by};
pub use arriving::arrived;
