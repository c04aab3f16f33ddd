//! What an application session, a host and the net of hosts are made of: the definitions of the
//! container's steps speak of these types. All is plain data but for a host, which finds what it
//! has by its name, keeps what is due in order, and lets go of the transactions that are over.
#![tactic(auto)]

mod copies;
mod groups;
mod host;
mod hosting;
mod keeping;
mod keyed;
mod lists;
mod net;
mod orders;
mod paged;
mod probes;
mod proxy;
mod queue;
mod session;
mod standing;
mod timed;
mod working;

pub use groups::{branch_number, serial_number, text_number, via_number};
pub use host::{Client, Coming, Fired, Live, Peer, Reply, Server, Taken};
pub use hosting::Host;
pub use net::{Entry, Net, Note};
pub use orders::{Order, Outcome};
pub use proxy::{Branch, Passing, Proxy};
pub use queue::{Queued, Waiting};
pub use sc_queue::Queue;
pub use sc_txn::{ClientPast, ServerPast};
pub use session::{Got, Invited, Kept, Known, Leg, Session, Way};
pub use standing::{
    due_of_client, due_of_server, is_cancel_client, is_client, is_invite_client, is_invite_server,
    is_same_app, state_of_client, state_of_server,
};
pub use timed::{Timed, is_fired};
pub use working::{Asked, Draft, Play, Prepared, Working, Written};
