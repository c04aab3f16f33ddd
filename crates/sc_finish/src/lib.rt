//! A turn ends: what the container does after its calls (JSR 289 sections 6.1.2 and 6.2.4, RFC 3261
//! section 16), and what invalidation sends.
#![tactic(auto)]

mod faults;
mod later;
mod parting;
mod readiness;
mod sweeping;
mod turns;

pub use parting::goodbye;
pub use readiness::is_ready;
pub use turns::{Made, outcome, outcome_from};
