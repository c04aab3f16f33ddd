//! The life of a live application session, as laws.
#![tactic(auto)]

mod laws;

pub use laws::{
    live_links_are_of_calls, live_proxies_go_on, live_requests_last, live_sessions_last,
    live_states_move_on, lives_are_of_journals, lives_go_on,
};
