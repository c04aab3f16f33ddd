//! Dialogs (RFC 3261 section 12): their state, kept message by message, and the requests that are
//! made in them.
//!
//! A dialog keeps its state and not its messages. The contracts say for every list of messages that
//! a dialog stands for, which list it stands for after a call.
#![tactic(auto)]

mod dialog;
mod refused;
mod requests;
mod routes;
mod sides;
mod targets;

pub use dialog::Dialog;
pub use refused::DialogRefused;
pub use requests::{ack_request, asked_method, cseq, is_askable, kept_fields, next_request};
pub use sc_terms::Inside;
pub use targets::{request_target, response_target, sets_target};
