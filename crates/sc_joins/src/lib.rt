//! A dialog that is moved message by message is the one that the list of its messages gives, as
//! laws.
#![tactic(auto)]

mod laws;

pub use laws::dialogs_are_of_their_messages;
