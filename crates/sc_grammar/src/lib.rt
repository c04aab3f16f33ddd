//! What text spells a message and in which text it is written: definitions alone, in `specs/`.
#![tactic(auto)]
