//! What an application session, a host and the net of hosts do: the definitions in which the
//! container's promises are to be stated, in `specs/`, and laws of them.
#![tactic(auto)]

mod laws;
mod sorts;

pub use laws::{beginnings_send_beginnings, deliveries_end};
pub use sorts::Sort;
