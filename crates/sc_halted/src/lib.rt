//! The answer at each stop of a later request, as laws.
#![tactic(auto)]

mod laws;

pub use laws::{later_requests_are_passed_on_or_answered, later_requests_go_on_or_are_answered};
