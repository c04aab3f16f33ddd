//! What a configuration and a routing table may have that is accepted and can't work, one line a
//! warning. It is outside of the promises: every function is proved to be safe and to end, and no
//! clause says which lines are written.
#![tactic(auto)]

mod apps;
mod comments;
mod kinds;
mod lines;
mod methods;
mod settings;
mod tables;
mod targets;
mod tuples;
mod warning;

pub use warning::write_warnings;
