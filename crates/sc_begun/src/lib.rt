//! What begins an application session, and what it gives to send first, as laws.
#![tactic(auto)]

mod laws;

pub use laws::{initial_requests_have_no_tag, sessions_begin_without_tag};
