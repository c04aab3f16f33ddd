//! What the calls of reliable provisional responses promise over every list of them, as a law (RFC
//! 3262).
#![tactic(auto)]

mod laws;

pub use laws::calls_are_acts;
