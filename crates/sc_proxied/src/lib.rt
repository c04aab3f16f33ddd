//! What a proxied request is, of the list of all that happened to it, as laws.
#![tactic(auto)]

mod laws;

pub use laws::proxies_are_of_their_lists;
