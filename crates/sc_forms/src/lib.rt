//! Hosts keep their sessions as what they are, or as their whole histories: both make the same net,
//! send the same, and allow the same steps.
#![tactic(auto)]

mod laws;

pub use laws::{epochs_agree, forms_agree, readers_agree};
