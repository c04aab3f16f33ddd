//! Blanks, tokens, quoted strings, numbers and names within a text, and its pieces between signs
//! (RFC 3261 section 25.1). Nothing here takes memory.
#![tactic(auto)]

mod blanks;
mod cuts;
mod numbers;
mod places;

pub use blanks::{front_len, trim, trim_back, trim_front, word_len};
pub use cuts::{begins, cut, has, place_or_len};
pub use numbers::{read_port, read_u64};
pub use places::{quoted_end, token_end};
pub use sc_value::{is_blank, is_token_byte, same_name};
