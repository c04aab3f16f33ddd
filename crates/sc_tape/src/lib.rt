//! A run of a server that is recorded: the steps of its journal, in the text that a recording is.
#![tactic(auto)]

mod taping;

pub use taping::{Taped, serve_recorded};
