//! Cases on `serve_alone` over an edge in memory: what is heard, what fails, and how a run ends.
#![tactic(auto)]

#[cfg(test)]
mod ending_tests;
#[cfg(test)]
mod failing_tests;
#[cfg(test)]
mod hearing_tests;
