//! Methods of requests and classes of response codes.
#![tactic(auto)]

mod codes;
mod methods;
mod words;

pub use codes::{is_failure, is_final, is_success};
pub use methods::{is_ack, is_bye, is_cancel, is_invite, is_notify, is_subscribe};
