//! Output under the system's limit on the size of a file. A write that begins at the limit ends the
//! program by a signal, so none is begun there: a [`LimitedSink`] fails first, and its caller hears
//! of it as of any other failure.
#![tactic(auto)]

mod limited_sink;
mod measure;
mod room;
mod standard;

pub use limited_sink::LimitedSink;
pub use measure::fitting;
pub use room::{Stream, room_behind, room_of};
pub use standard::output;
