//! A turn that was lent out goes on to show what there is until its session's own turn or end, as
//! laws.
#![tactic(auto)]

mod laws;

pub use laws::{
    first_events_stay, journals_are_joined, kept_leases_stay, leases_are_of_live_sessions,
    leases_stay, views_leave_out_ringing,
};
