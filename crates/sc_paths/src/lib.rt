//! Which application sessions a later request of a dialog visits: definitions alone, in `specs/`,
//! tried on worked cases.
#![tactic(auto)]
