//! Cases on the switch: turns that are brought twice or with another lease, servlets that fail,
//! timers, proxies that try one target after another, full queues, epochs, and journals that are
//! handed on in parts. Each is a row: orders, and the lines that are told of what comes of them.
#![tactic(auto)]

#[cfg(test)]
mod bench;
#[cfg(test)]
mod commit_tests;
#[cfg(test)]
mod deeds;
#[cfg(test)]
mod drafts;
#[cfg(test)]
mod ending_tests;
#[cfg(test)]
mod epoch_tests;
#[cfg(test)]
mod failing_tests;
#[cfg(test)]
mod leases;
#[cfg(test)]
mod letters;
#[cfg(test)]
mod limit_tests;
#[cfg(test)]
mod listing_tests;
#[cfg(test)]
mod orders;
#[cfg(test)]
mod part_tests;
#[cfg(test)]
mod planned;
#[cfg(test)]
mod plans;
#[cfg(test)]
mod proxy_tests;
#[cfg(test)]
mod session_tests;
#[cfg(test)]
mod settings;
#[cfg(test)]
mod telling;
#[cfg(test)]
mod telling_leases;
#[cfg(test)]
mod telling_steps;
#[cfg(test)]
mod timer_tests;
#[cfg(test)]
mod trying;
#[cfg(test)]
mod withdrawal_tests;
