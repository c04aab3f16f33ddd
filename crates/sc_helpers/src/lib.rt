//! What the servlets share that every container comes with (reliable provisional responses, session
//! timers, event notification): parts of texts, and scripts that go on where a call was accepted.
#![tactic(auto)]

mod answering;
mod fields;
mod laws;
mod making;
mod numbers;
mod pieces;
mod running;
mod sending;
mod stepping;
mod stopping;

pub use answering::{answer_first, answer_only, try_answer, try_reply};
pub use fields::{field_of, lists_option};
pub use laws::accepted_calls_are_played;
pub use making::{field, number_field, numbered, one, two};
pub use numbers::{leading_number, strict_number};
pub use pieces::{cut, number_after, session_after, three_pieces};
pub use running::{has_attribute, timer_named};
pub use sending::{try_remove_attribute, try_remove_if, try_send_in};
pub use stepping::{try_cancel_some, try_respond, try_set_attribute, try_start_timer};
pub use stopping::{Stopped, counted, heard, wanting};
