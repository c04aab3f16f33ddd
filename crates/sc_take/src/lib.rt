//! What a host takes from outside or from another host, and what it answers at once (RFC 3261
//! sections 8.2, 9.2, 12.2.2 and 17). What changes a host says what it answers by a [`Told`].
#![tactic(auto)]

mod beginning;
mod claims;
mod later;
mod responses;
mod sharing;
mod sorting;
mod taking;

pub use claims::server_for;
pub use responses::cancelling;
pub use sorting::sort_of;
pub use taking::takes;
