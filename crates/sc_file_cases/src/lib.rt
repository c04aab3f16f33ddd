//! Cases on the texts of configurations, routing tables and scripts.
//! A crate with tests is proved twice, so they stand here.
#![tactic(auto)]

#[cfg(test)]
mod config_tests;
#[cfg(test)]
mod dar_tests;
#[cfg(test)]
mod make_tests;
#[cfg(test)]
mod script_tests;
