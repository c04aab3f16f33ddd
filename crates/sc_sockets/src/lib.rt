//! The outside over the system: connections over TCP sockets ([`MioEdge`]) and the time
//! ([`WallClock`]).
#![tactic(auto)]

mod book;
mod clock;
mod counts;
mod edge;
mod line;
mod polling;
mod putting;
mod reading;
mod slot;
mod slots;
mod sockets;
mod writing;

pub use clock::WallClock;
pub use edge::MioEdge;
