//! What waits in an application session, event by event, as laws.
#![tactic(auto)]

mod laws;

pub use laws::events_wait_in_order;
