//! Cases on the outside in memory, the output under a limit and the journal.
//! A crate with tests is proved twice, so they stand here.
#![tactic(auto)]

#[cfg(test)]
mod edge_tests;
#[cfg(test)]
mod journal_tests;
#[cfg(test)]
mod limit_tests;
#[cfg(test)]
mod outside_tests;
