//! A journal: a list that only grows, up to a limit of its items and one of their bytes.
#![tactic(auto)]

mod journal;

pub use journal::{Journal, PushRefused};
