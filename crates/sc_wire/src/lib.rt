//! How a host sends: where a request goes that leaves, and what is put on the links between hosts.
#![tactic(auto)]

mod answers;
mod destinations;
mod naming;
mod routes;
mod sending;
mod wire;

pub use answers::respond;
pub use destinations::{destination, next_uri};
pub use naming::{acknowledge, named_host, send_later};
pub use routes::{Position, popped_route, position_of, unrouted_initial};
pub use sending::begin_by;
pub use wire::{host_at, put, put_reply, queue_for, with_client_at};
