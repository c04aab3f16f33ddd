//! The parts of a server's round: what comes from the edge makes steps, turns are taken, and what
//! was sent is put. After each of them a server stands where its journal's run does.
#![tactic(auto)]

mod hearing;
mod polling;
mod putting;
mod stepping;
mod turning;

pub use polling::{Came, take_got};
pub use putting::{Went, put_place};
pub use stepping::{Core, Turning};
pub use turning::{end_epoch, list, take_moment, take_order};
