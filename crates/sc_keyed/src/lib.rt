//! By what a host knows its transactions, as laws: each has a key of its own.
#![tactic(auto)]

mod laws;

pub use laws::{branches_are_new, keys_are_own};
