//! The state of a SipSession is that of what happened in it, as laws.
#![tactic(auto)]

mod laws;

pub use laws::{
    live_states_are_of_what_happened, states_are_of_what_happened, states_go_with_responses,
    states_need_their_messages, what_comes_of_others_has_its_cause,
};
