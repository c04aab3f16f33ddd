//! Which application sessions a later request of a dialog visits, as laws.
#![tactic(auto)]

mod laws;

pub use laws::{
    later_requests_come_first_or_are_answered, later_requests_come_to_the_first,
    later_requests_keep_to_the_way, later_requests_pass_by_who_left,
    later_requests_stop_before_the_first,
};
