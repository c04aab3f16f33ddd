//! What the accepted calls of a turn do beside what they leave of the view: what is sent, and what
//! the application session knows of it.
#![tactic(auto)]

mod ending;
mod working;

pub use ending::{cancels_all, goodbyes_of, owed_all};
pub use working::{does, starts, worked, worked_all};
