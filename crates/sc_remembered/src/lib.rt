//! What an application session remembers from turn to turn, as laws.
#![tactic(auto)]

mod laws;

pub use laws::{
    acts_are_chained, attributes_are_of_calls, early_lives_make_acts, early_turns_are_acts,
};
