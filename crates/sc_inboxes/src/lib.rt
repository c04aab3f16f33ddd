//! What a host keeps of what comes to it: the inboxes of its sessions, its server transactions, and
//! the answers that it gives at once (RFC 3261 sections 8.2 and 17.2). What changes a host says
//! what it answers by a [`Told`].
#![tactic(auto)]

mod inboxes;
mod refusals;
mod server_parts;
mod told;
mod uris;

pub use inboxes::{is_full, is_full_at, live_in, queue};
pub use refusals::{edge_response, refuse_full, refuse_unknown};
pub use server_parts::{with_server, with_trying};
pub use told::{Told, answering, asking, quiet, replying};
pub use uris::{is_own_routed, named_live, own_uri, unrouted, uri_param, without_top};
