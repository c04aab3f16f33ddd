//! What one step does with a later request, as laws.
#![tactic(auto)]

mod laws;

pub use laws::{requests_go_their_way, turns_pass_on_what_came};
