//! Cases on `serve_alone` over settings, a clock and orders, and on `serve` beside its workers.
#![tactic(auto)]

#[cfg(test)]
mod crew_tests;
#[cfg(test)]
mod kinds;
#[cfg(test)]
mod listing_tests;
#[cfg(test)]
mod meeting;
#[cfg(test)]
mod setting_tests;
#[cfg(test)]
mod step_tests;
