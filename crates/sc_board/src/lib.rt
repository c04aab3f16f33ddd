//! The board between the rounds of a server and its workers: a queue of jobs and a queue of
//! results, both bounded, and the workers that take jobs, make their turns and bring the results.
//!
//! The pass that [`Board::new`] gives posts jobs and collects results. A pass is split off it for
//! each worker, and joined to it at the end. Each pass keeps, in contracts alone, what it posted,
//! took, brought and collected.
#![tactic(auto)]

mod bell;
mod board;
mod crewing;
mod job;
mod jobs;
mod pass;
mod results;
mod steps;
mod working;

pub use board::Board;
pub use crewing::{beside_crew, crew};
pub use job::Job;
pub use jobs::JobView;
pub use pass::BoardPass;
pub use results::ResultView;
pub use working::{make_turn, work};
