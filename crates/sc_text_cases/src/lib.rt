//! Cases on the texts of messages, their addresses and fields, read and written.
//! A crate with tests is proved twice, so they stand here.
#![tactic(auto)]

#[cfg(test)]
mod ascii_tests;
#[cfg(test)]
mod head_text_tests;
#[cfg(test)]
mod message_text_tests;
#[cfg(test)]
mod uri_text_tests;
#[cfg(test)]
mod whole_message_tests;
