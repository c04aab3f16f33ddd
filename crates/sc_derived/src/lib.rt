//! Derived sessions: in which SipSession a response to an INVITE is handled, and what an answer
//! that came first makes of the others (JSR 289 section 6.2.3).
#![tactic(auto)]

mod derived;
mod ending;

pub use derived::{handled, is_of};
pub use ending::{overtaken, without_derived};
