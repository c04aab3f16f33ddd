//! Which texts spell a message: definitions, in `specs/`, and laws of them, with the texts that a
//! reader takes and a writer writes.
#![tactic(auto)]

mod laws;
mod made;

pub use laws::{read_keeps_grammar, spelled_exactly, value_is_trimmed, written_is_spelled};
pub use made::written_again;
