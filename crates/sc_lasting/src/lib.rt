//! What lasts over the whole life of an application session, as laws.
#![tactic(auto)]

mod laws;

pub use laws::{
    links_are_of_calls, links_are_pairs, proxies_go_on, requests_last, sessions_last,
    states_move_on,
};
