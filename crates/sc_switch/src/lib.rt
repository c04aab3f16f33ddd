//! The switch: it takes the messages that arrive, lends out the turns of application sessions, and
//! commits what they bring. Each accepted step stands in its journal.
#![tactic(auto)]

mod brought;
mod called;
mod copying;
mod counting;
mod laws;
mod leasing;
mod lengths;
mod listing;
mod next;
mod ran;
mod readied;
mod refused;
mod sizes;
mod starting;
mod stepping;
mod switch;

pub use laws::leases_are_counted;
pub use next::Next;
pub use ran::{Ran, Status};
pub use refused::{CommitRefused, Committed, Epoch, EpochRefused, StepRefused};
pub use sc_journal::Journal;
pub use switch::Switch;
