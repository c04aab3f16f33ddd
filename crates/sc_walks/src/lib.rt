//! What each definition of a step keeps, for any relation of nets with a few laws: lemmas for other
//! crates, with no function of its own.
#![tactic(auto)]
