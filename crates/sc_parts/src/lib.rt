//! What the layers share: what a container is set up with, the words of transactions, the names of
//! timers, and where the router sends a request. Plain data, with the order of those names.
#![tactic(auto)]

mod choice;
mod copies;
mod setup;
mod timers;
mod transactions;

pub use choice::Choice;
pub use setup::Setup;
pub use timers::TimerName;
pub use transactions::{ClientItem, ClientOut, ServerItem, TxnState};
