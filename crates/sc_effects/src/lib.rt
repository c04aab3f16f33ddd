//! What calls leave of the view and the drafts of their turn, what they answer, and the states of
//! SipSessions after responses. Values are changed in place, and nothing is sent.
#![tactic(auto)]

mod answering;
mod calling;
mod ending;
mod keeping;
mod known;
mod looking;
mod making;
mod sending;
mod states;
mod tidying;

pub use answering::{answered, answered_begun, answered_by, answered_in, request_copy};
pub use calling::{accepted, after_call, after_calls, after_listed, answer_of, begun};
pub use ending::{final_noted, is_owed};
pub use keeping::{moment_after, remove_timer};
pub use known::{ProxyNumbered, kept_of, own_tag_of, proxy_of};
pub use looking::{in_state, is_confirmed, is_early, is_uac, linked, removed, unlinked};
pub use making::{new_call_id, new_session, new_tag};
pub use states::{after_initial, after_response, ends_subscription};
pub use tidying::tidy;
