//! What the clock and the loss of a place change in the net of hosts: the entries that are due, in
//! the order of time, and the client transactions whose request can't be answered any more.
#![tactic(auto)]

mod due;
mod entries;
mod firing;
mod firsts;
mod losses;
mod marking;
mod ordered;
mod passing;
mod running;

pub use entries::{SessionEntry, entries_of};
pub use firing::ticked;
pub use losses::lost;
pub use running::runs;
