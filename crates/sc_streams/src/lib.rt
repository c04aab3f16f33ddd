//! What is kept of each place's stream (RFC 3261 section 18.3).
//!
//! Bytes that come from a place go behind what is kept of it ([`Streams::feed`]), messages come out
//! whole ([`Streams::next`]), and what is kept of a place that is lost is dropped
//! ([`Streams::drop_of`]). No place's stream changes another's.
#![tactic(auto)]

mod streams;

pub use streams::{Pending, Streams};
