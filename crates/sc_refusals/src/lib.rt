//! Which refusal each call of a turn gets, the first in the order in which they are tried. A call
//! is judged by what the turn shows, by the drafts of the turn, and by how many calls it has made.
#![tactic(auto)]

mod asking;
mod judging;
mod linking;
mod named;
mod proxying;
mod sums;
mod texts;

pub use judging::{MOST_CALLS, refusal};
