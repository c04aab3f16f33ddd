//! What was due as time passed has had its event, as laws.
#![tactic(auto)]

mod laws;

pub use laws::{
    due_entries_are_taken, due_items_are_once, moments_end_timers, nothing_is_due,
    ticks_send_nothing,
};
