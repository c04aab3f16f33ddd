//! Tests of the watch, the order desk and the console, in one thread and in several.
#![tactic(auto)]

#[cfg(test)]
mod console_tests;
#[cfg(test)]
mod desk_tests;
#[cfg(test)]
mod watch_tests;
