//! Cases on `replay` over a shelf and a sink in memory: each read and each put fails in turn.
#![tactic(auto)]

#[cfg(test)]
mod fault_tests;
#[cfg(test)]
mod running;
