ghost use Rattle.std.specs.Prelude.{◌≡◌, Err, IsTrue};
ghost use Rattle.sc_syntax.specs.Messages.{message_of};

use sc_message_text::{MessageRefused, read_message};
use sc_value::Discard;
use std::alloc::Global;

/// Whether a text is refused as a message, at this place in bytes from 0 and with this kind. False
/// says nothing.
#[tactic(auto, unfolding(sc_message_text::specs::Answers::Reads))]
pub fn is_refused(alloc: Global, text: &[u8], at: usize, kind: u8) -> bool
    ensures { IsTrue result → message_of text.now ≡ Err (record { at = at; kind = kind }) }
{
    match read_message(alloc, text) {
        Ok(message) => {
            message.discard();
            false
        }
        Err(
            MessageRefused::Refused {
                at: place,
                kind: told,
            },
        ) => place == at && told == kind,
        Err(MessageRefused::NoMemory) => false,
    }
}
