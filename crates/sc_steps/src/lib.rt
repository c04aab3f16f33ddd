//! The steps of the container: what each makes of the net of hosts. A session takes a turn, or is
//! withdrawn; then all messages between hosts are delivered.
#![tactic(auto)]

mod endings;
mod leaving;
mod lives;
mod silent;
mod stepping;
mod turning;
mod waking;

pub use lives::{live_at, ringing_at};
pub use sc_finish::Made;
pub use stepping::{after_begun, after_step};
