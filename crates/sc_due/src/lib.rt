//! Entries that become due at a moment, taken in the order of time.
#![tactic(auto)]

mod due;
mod key;

pub use due::Due;
pub use key::DueKey;
