//! A later request reaches the session that it names, and no other, as laws.
#![tactic(auto)]

mod laws;

pub use laws::{delivered_requests_reach_their_session, later_requests_reach_their_session};
