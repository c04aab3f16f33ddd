//! The command `play`: takes the steps of a recording again, and writes what is sent. Its parts are
//! public, for others that play a recording and show something else of it.
#![tactic(auto)]

mod early;
mod hearing;
mod places;
mod playing;
mod rows;
mod running;
mod stepping;

pub use early::{Early, Unread, early_turns};
pub use hearing::heads_in;
pub use playing::{play, read_recording};
pub use rows::{APART, Entry, Row, row_at};
pub use running::{Unplayed, end_epoch, is_last_step, status_of};
pub use stepping::{Player, Untaken, forget, lease_for, lend_early};
