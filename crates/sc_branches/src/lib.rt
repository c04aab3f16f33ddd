//! A proxied request: its targets and branches, and what a response, a timer or a CANCEL makes of
//! them (RFC 3261 section 16).
#![tactic(auto)]

mod changing;
mod hearing;
mod making;
mod options;
mod sending;
mod targets;
mod telling;

pub use changing::{stopped, with_targets};
pub use hearing::{ended_by, heard, is_global};
pub use making::{new_branch, new_proxy};
pub use options::{
    branch_due, branch_in, has_branch, has_open, is_invite, is_open, is_parallel, is_supervised,
    records_route, recurses,
};
pub use sending::{can_choose, can_pass, cancelled_now, is_exhausted, starting};
pub use targets::added_targets;
pub use telling::{is_timed_out, is_told_whole, to_cancel};
