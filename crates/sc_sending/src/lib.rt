//! What the accepted calls of a turn send: answers, requests of drafts, acknowledgements and
//! proxied requests, and what the application session knows of them.
#![tactic(auto)]

mod drafting;
mod proxying;
mod replying;
mod sending;

pub use drafting::{directs, drafts_later, drafts_leg, drafts_own, forgets};
pub use proxying::{cancels, event_of, proxies};
pub use replying::{answering, answering_begun, answering_by, answers};
pub use sending::{acknowledges, dialog_in, next_branch, sends};
