//! The net of hosts: how what a session gives to send is sent, where a request goes that leaves,
//! and how messages between hosts are delivered.
#![tactic(auto)]

mod cancels;
mod deliveries;
mod orders;
mod taking;

pub use cancels::pass_client_at;
pub use deliveries::{deliver_first, delivered, is_busy};
pub use orders::{obey, obeyed};
pub use taking::taken_at;
