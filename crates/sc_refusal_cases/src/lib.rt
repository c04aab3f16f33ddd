//! Tables of texts that spell no message, each with the place and the kind of its first fault (RFC
//! 3261 section 7). A crate with tests is proved twice, so they stand here.
#![tactic(auto)]

#[cfg(test)]
mod refusal_tests;
mod refusals;
#[cfg(test)]
mod tables;

pub use refusals::is_refused;
