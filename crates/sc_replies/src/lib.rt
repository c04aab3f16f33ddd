//! The answers that an application session tells of are orders that it gives to its host, as laws.
#![tactic(auto)]

mod laws;

pub use laws::{
    answers_are_given, answers_have_the_fields_of_their_requests, live_answers_are_given,
    requests_are_kept_as_they_came,
};
