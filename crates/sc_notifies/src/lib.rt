//! Event notification (RFC 6665): the calls with which a servlet takes SUBSCRIBEs and tells its
//! subscribers, at any point of its turn, and the servlet of this kind that every container comes
//! with, which keeps its charter (JSR 289 sections 3 and 9). What they remember of a SipSession's
//! subscription stands in the attributes `sub` and `ev` with the SipSession's number, which nothing
//! else is to write.
#![tactic(auto)]

mod accepting;
mod changing;
mod ending;
mod laws;
mod notifies;
mod notifying;
mod refused;
mod rules;
mod standing;
mod sub_texts;
mod subscribing;

pub use accepting::{Grant, accept};
pub use changing::{activate, change};
pub use ending::{end, failed, fire};
pub use laws::{calls_are_acts, subscriptions_keep_to_the_table};
pub use notifies::Notifies;
pub use refused::{Asked, NotifyRefused, RuleRefused};
pub use rules::{Rule, asked_for, rule_in};
