//! Messages from the bytes of a stream, which come in any pieces (RFC 3261 sections 7.5 and 18.3).
//! Once a stream can give no more messages it keeps its answer, and no byte.
#![tactic(auto)]

mod answering;
mod ends;
mod fields;
mod first;
mod fronts;
mod gone;
mod laws;
mod streams;

pub use fronts::front;
pub use laws::fronts_stay;
pub use streams::{Heard, Stream};
