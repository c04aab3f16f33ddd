//! Cases on the calls of a turn: one for each refusal, and one of each call that no application
//! makes; and on the calls of helpers, which make several of them.
#![tactic(auto)]

#[cfg(test)]
mod asking;
#[cfg(test)]
mod calling;
#[cfg(test)]
mod creating_tests;
#[cfg(test)]
mod every_call_tests;
#[cfg(test)]
mod helping;
#[cfg(test)]
mod keeping_tests;
#[cfg(test)]
mod leg_tests;
#[cfg(test)]
mod linking_tests;
#[cfg(test)]
mod notifying;
#[cfg(test)]
mod notifying_tests;
#[cfg(test)]
mod offering;
#[cfg(test)]
mod offering_tests;
#[cfg(test)]
mod playing;
#[cfg(test)]
mod proxying_tests;
#[cfg(test)]
mod reading;
#[cfg(test)]
mod refreshing;
#[cfg(test)]
mod refreshing_tests;
#[cfg(test)]
mod remembering;
#[cfg(test)]
mod responding_tests;
#[cfg(test)]
mod rows;
#[cfg(test)]
mod sending_tests;
#[cfg(test)]
mod telling;
#[cfg(test)]
mod telling_tests;
#[cfg(test)]
mod views;
