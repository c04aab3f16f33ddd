//! Messages as text: the written form of a message, and which message a text spells (RFC 3261
//! section 7).
#![tactic(auto)]

mod addresses;
mod ends;
mod finishing;
mod folds;
mod headers;
mod heads;
mod items;
mod keeping;
mod lines;
mod messages;
mod names;
mod pieces;
mod refused;
mod starts;
mod taking;
mod uris;
mod whole;

pub use addresses::put_address;
pub use ends::{begins_break, end_of, split_piece, split_start};
pub use finishing::{lacking, put_together};
pub use folds::join;
pub use keeping::has_branch;
pub use lines::{put_address_line, put_cseq_line, put_line, put_via_line};
pub use messages::{bytes_of, text_of, write};
pub use names::{call_id_name, cseq_name, from_name, to_name, via_name};
pub use refused::MessageRefused;
pub use sc_ascii::{trim, trim_back};
pub use starts::is_status_line;
pub use uris::uri_text;
pub use whole::{read_head, read_message, read_parts};
