//! Session timers (RFC 4028): the calls with which a servlet grants an interval, begins and ends
//! timers, and refreshes sessions, at any point of its turn, and the servlet of this kind that
//! every container comes with, which keeps its charter (JSR 289 sections 3 and 9). What they
//! remember of a SipSession stands in the attribute `st` with the SipSession's number, which
//! nothing else is to write.
#![tactic(auto)]

mod beginning;
mod expiries;
mod granting;
mod intervals;
mod laws;
mod refreshes;
mod refreshing;
mod stopping;
mod timed_texts;
mod timing;

pub use beginning::{begin, stop};
pub use expiries::granted_fields;
pub use intervals::{Interval, granted};
pub use laws::begun_timers_are_in_time;
pub use refreshes::Refreshes;
pub use refreshing::{Fired, answered, fire};
