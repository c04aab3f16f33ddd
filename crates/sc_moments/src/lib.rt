//! The moment of a net is that of the last tick: what a run's clock shows, that no tick of a script
//! that is read is passed over, and that no event becomes first after that moment, as laws.
#![tactic(auto)]

mod laws;

pub use laws::{first_events_are_past, moments_are_of_ticks, ticks_are_taken};
