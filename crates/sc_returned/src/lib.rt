//! Which Record-Route the answers to an INVITE have where its way through the container ends, as a
//! law.
#![tactic(auto)]

mod laws;

pub use laws::answers_return_the_record_route;
