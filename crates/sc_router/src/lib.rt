//! The Default Application Router (JSR 289 appendix C): which application a request goes to, or by
//! which route it leaves.
#![tactic(auto)]

mod lists;
mod own;
mod returning;
mod routing;
mod subscriber;

pub use own::is_own;
pub use routing::next;
pub use sc_parts::Choice;
pub use sc_value::Directive;
