//! The turns of a server's round: they are lent to the workers over a board, and what they brought
//! is taken. Where no worker takes a turn it is made here.
#![tactic(auto)]

mod lending;
mod seat;

pub use lending::work_once;
pub use seat::{Seat, await_at, dismiss_at};
