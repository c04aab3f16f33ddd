//! The flight recorder of a server: a notice that writes the steps that it is told to a sink, and
//! what ends the server where the sink takes no more.
#![tactic(auto)]

mod closing_edge;
mod recorder;
mod write_sink;
mod writing;

pub use closing_edge::ClosingEdge;
pub use recorder::Recorder;
pub use write_sink::WriteSink;
pub use writing::{Unrecorded, put_steps};
