//! The command `trace`: a run of a script, or of a recording, as a ladder diagram. The run is that
//! of `replay`, or that of `play`, by the same calls of the switch. What is drawn (`sc_ladder`) is
//! outside of the promises: every function is proved to be safe and to end, and no clause says what
//! the picture shows.
#![tactic(auto)]

mod hearing;
mod lines;
mod putting;
mod reading;
mod recorded;
mod telling;
mod tracing;
mod turns;

pub use sc_replay::Status;
pub use tracing::trace;
