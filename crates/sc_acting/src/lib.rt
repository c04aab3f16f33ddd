//! What the proxies of an application session do at the end of a turn: branches that start,
//! CANCELs, and what is forwarded (RFC 3261 section 16).
#![tactic(auto)]

mod acting;
mod changing;
mod closing;
mod forwarding;
mod quiet;

pub use acting::all_act;
pub use changing::{draw, give};
