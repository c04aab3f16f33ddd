//! Client and server transactions (RFC 3261 section 17, RFC 6026): their states and timers, what is
//! told and what is sent. They hold no message: their users send and keep those. And lists of what
//! has passed a transaction, which keep beside them what has become of it.
#![tactic(auto)]

mod client;
mod client_past;
mod server;
mod server_past;

pub use client::ClientTxn;
pub use client_past::ClientPast;
pub use sc_parts::{ClientOut, TxnState};
pub use server::ServerTxn;
pub use server_past::ServerPast;
