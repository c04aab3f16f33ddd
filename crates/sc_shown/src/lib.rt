//! What an event shows to its turn, and what a response makes of the application session before it
//! is shown (JSR 289 section 6, RFC 3261 section 13.2.2.4).
#![tactic(auto)]

mod again;
mod branches;
mod copies;
mod responses;
mod shown;
mod successes;

pub use again::has_begun;
pub use branches::prepared_branch;
pub use copies::{branch_copy, invited_by, kept_copy, proxy_copy, sent_copy, timer_copy};
pub use responses::prepared_own;
pub use shown::{Shown, one_response, showing, showing_in, silent};
