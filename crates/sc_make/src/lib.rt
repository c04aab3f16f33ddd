//! The script of many calls, with which a container is loaded.
#![tactic(auto)]

mod calls;
mod lines;
mod messages;
mod names;

pub use calls::script;
