//! What is next in a net, which journals follow the lines of a script, what comes to an edge makes,
//! and what a run's output is, as definitions; the law that the form in which hosts keep their
//! sessions changes none of it, and that each beginning of what is heard is heard in part.
#![tactic(auto)]

mod laws;

pub use laws::{beginnings_are_heard, scripts_agree};
