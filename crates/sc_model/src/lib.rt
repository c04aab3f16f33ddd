//! The definitions that the container's contracts are stated in, in `specs/`, and laws of them.
#![tactic(auto)]
