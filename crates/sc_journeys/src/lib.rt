//! How the journey of a later request ends, as a law.
#![tactic(auto)]

mod laws;

pub use laws::later_requests_go_all_the_way_or_stop;
