//! Looking up in what a turn shows: requests, SipSessions, timers and drafts by their numbers,
//! links, states and roles. Each call is the definition of the same name in `sc_hosts`.
#![tactic(auto)]

mod drafts;
mod requests;
mod views;

pub use drafts::{draft_in, draft_place};
pub use requests::{AwaitingAck, awaiting, awaits_ack, begun_by, is_first, is_set};
pub use views::{
    Numbered, has_session, is_begun, is_ended, is_gone_in, is_initial_state, is_open_state,
    is_proxy, is_terminated, partner, request_in, session_count, session_in, session_place,
    timer_in, timer_place,
};
