//! Sessions that give provisional responses reliably, over their whole lives, as laws.
#![tactic(auto)]

mod laws;

pub use laws::{
    first_invites_are_unknown, live_early_sessions_make_acts, nothing_is_remembered_early,
    played_lives_make_acts,
};
