//! The transactions of a host (RFC 3261 section 17, RFC 6026): which one a message belongs to, and
//! what an item more changes in the host.
#![tactic(auto)]

mod clients;
mod ends;
mod names;
mod probes;
mod servers;

pub use clients::{client_for, out_of_client, pass_client, ringing_branches, with_client};
pub use ends::goes_to;
pub use names::is_ap_value;
pub use sc_stages::{is_ack, is_cancel, is_invite, is_over, is_proceeding, method_of};
pub use sc_state::{
    due_of_client, due_of_server, is_cancel_client, is_invite_client, is_invite_server,
    is_same_app, state_of_client, state_of_server,
};
pub use servers::{acked_server, cancelled_server, has_final, pass_server, repeated_server};
