//! When the search of a proxied request is over, as a law.
#![tactic(auto)]

mod laws;

pub use laws::{ended_searches_are_answered, searches_end_with_a_response};
