//! What the scripts of reliable provisional responses and of session timers promise over any list
//! of their calls, as laws.
#![tactic(auto)]

mod laws;

pub use laws::{offers_are_counted, offers_wait, timers_are_in_time};
