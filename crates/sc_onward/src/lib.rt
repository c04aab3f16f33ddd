//! Later requests go on along their way, as laws.
#![tactic(auto)]

mod laws;

pub use laws::{
    later_requests_are_passed_on, later_requests_go_all_the_way, later_requests_go_on_or_stop,
    later_requests_go_to_the_next, requests_have_new_branches, sent_requests_come_to_the_first,
};
