//! Which Record-Route an INVITE has where its way through the container ends, as a law.
#![tactic(auto)]

mod laws;

pub use laws::invites_record_their_way;
