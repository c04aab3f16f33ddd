//! A switch takes the steps that the lines of a script say.
#![tactic(auto)]

mod following;
mod hearing;
mod lines;
mod playing;
mod stepping;

pub use following::follow;
