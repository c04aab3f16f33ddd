//! Recordings: the steps of a container's journals as text, a line for each, that can be taken
//! again. A step that the lines of a script can't say has a line too: the moment of a turn, what
//! its servlet called, a text that was no message, the end of an epoch.
#![tactic(auto)]

mod answers;
mod calls;
mod forms;
mod heads;
mod parts;
mod steps;
mod words;

pub use calls::calls_text;
pub use steps::{epoch_text, step_text};
