//! What a later request gets that comes to no session, or that its session shows to nobody, as
//! laws.
#![tactic(auto)]

mod laws;

pub use laws::{
    delivered_requests_are_answered_where_they_stop, later_requests_are_answered_where_they_stop,
    turns_answer_what_no_dialog_takes,
};
