//! That what a session proxies has the list by which it is known, as laws.
#![tactic(auto)]

mod laws;

pub use laws::proxied_requests_have_their_lists;
