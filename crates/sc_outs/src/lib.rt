//! What a server has still to put to each outside place.
//!
//! A message that is sent comes behind what is left of its place ([`Outs::owe`]), a put takes from
//! the front of it ([`Outs::put`]), and a place that fails drops it ([`Outs::lose`]). A peer's
//! connection that failed gets nothing more. So the bytes that a place took are a front of all that
//! was sent there, or of each stretch between two of its failures.
#![tactic(auto)]

mod entries;
mod gone;
mod held;
mod outs;
mod putting;

pub use outs::Outs;
