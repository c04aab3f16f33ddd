//! Laws on the hosts of a net: live sessions are found by their names, since no two sessions of a
//! host have one number, and there is one host for each application.
#![tactic(auto)]

mod laws;

pub use laws::{hosts_are_applications, sessions_are_found};
