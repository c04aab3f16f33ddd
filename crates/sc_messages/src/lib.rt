//! The messages that a host makes: what it puts on a request that it sends, the responses that it
//! gives, and CANCEL and ACK (RFC 3261 sections 8, 9.1, 12.2, 16.6 and 17.1.1.3).
#![tactic(auto)]

mod own;
mod parts;
mod requests;
mod responses;
mod sides;
mod vias;

pub use own::own_address;
pub use requests::{
    ack_of, asked_request, begins_dialog, cancel_of, from_here, leg_request, on_branch,
    passed_request, proxied_request,
};
pub use responses::{
    bad_response, given_response, makes_dialog, own_response, response_to, trying_response,
    without_via,
};
pub use sides::{tagged, untagged, with_tag};
