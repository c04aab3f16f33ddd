//! Sessions that keep session timers, over their whole lives, as laws.
#![tactic(auto)]

mod laws;

pub use laws::{
    granted_timers_are_in_time, live_timed_sessions_make_acts, timed_acts_are_chained,
    timed_lives_make_acts, timed_turns_are_acts,
};
