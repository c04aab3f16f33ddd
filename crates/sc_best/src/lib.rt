//! The best of the final responses to a proxied request, and what is forwarded of it (RFC 3261
//! section 16.7).
#![tactic(auto)]

mod choice;
mod forwarding;

pub use choice::best;
pub use forwarding::{forwarded, gather};
