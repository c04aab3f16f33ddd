//! A turn begins: what its event makes of the application session, what the container answers by
//! itself, and what is shown (JSR 289 section 6, RFC 3261 sections 12.2.2 and 9.2).
#![tactic(auto)]

mod cancels;
mod later;
mod preparing;
mod receiving;
mod timers;

pub use preparing::prepared;
pub use timers::has_expired;
