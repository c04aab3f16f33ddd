//! Under which Vias requests are sent, as laws.
#![tactic(auto)]

mod laws;

pub use laws::clients_have_own_vias;
