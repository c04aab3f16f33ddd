//! What all orders of a turn have in common, for any kind of orders of which a few facts are
//! known: lemmas for other crates, with no function of its own.
#![tactic(auto)]
