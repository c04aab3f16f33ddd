//! The small pieces of a text: one byte, and parts that may be missing. For want of memory the text
//! may hold a part of the piece.

ghost use Rattle.std.specs.Prelude.{◌≡◌, ◌++◌, [], ◌∷◌, OnOk};
ghost use Rattle.std.specs.Option.{option_copied};
ghost use Rattle.sc_grammar.specs.Written.{ended_text, port_text, scheme, signed_text};

use crate::growing::{Growing, put_number};
use sc_value::{NoMemory, Text};

/// Appends one byte.
pub fn put_byte(byte: u8, out: &mut Text) -> Result<(), NoMemory>
    ensures { OnOk result (out.new ≡ out.old ++ byte ∷ []) }
{
    out.append(&[byte])
}

/// Appends `sip:`.
#[tactic(auto, unfolding(sc_grammar::specs::Written::scheme))]
pub(crate) fn put_scheme<G: Growing>(out: &mut G) -> Result<(), NoMemory>
    ensures { OnOk result (G.bytes out.new ≡ G.bytes out.old ++ scheme) }
{
    out.put_bytes(b"sip:")
}

/// Appends nothing, or the sign and the text.
#[tactic(auto, unfolding(sc_grammar::specs::Written::signed_text))]
pub fn put_signed<G: Growing>(sign: u8, text: Option<&Text>, out: &mut G) -> Result<(), NoMemory>
    ensures { OnOk result
        (G.bytes out.new ≡ G.bytes out.old ++ signed_text sign (option_copied text.entry)) }
{
    match text {
        Some(text) => {
            out.put_one(sign)?;
            out.put_bytes(text.as_bytes())
        }
        None => Ok(()),
    }
}

/// Appends nothing, or the text and the sign.
#[tactic(auto, unfolding(sc_grammar::specs::Written::ended_text))]
pub fn put_ended<G: Growing>(text: Option<&Text>, sign: u8, out: &mut G) -> Result<(), NoMemory>
    ensures { OnOk result
        (G.bytes out.new ≡ G.bytes out.old ++ ended_text (option_copied text.entry) sign) }
{
    match text {
        Some(text) => {
            out.put_bytes(text.as_bytes())?;
            out.put_one(sign)
        }
        None => Ok(()),
    }
}

/// Appends nothing, or a colon and the port.
#[tactic(auto, unfolding(sc_grammar::specs::Written::port_text))]
pub fn put_port<G: Growing>(port: Option<u16>, out: &mut G) -> Result<(), NoMemory>
    ensures { OnOk result (G.bytes out.new ≡ G.bytes out.old ++ port_text port) }
{
    match port {
        Some(port) => {
            out.put_one(b':')?;
            put_number(u64::from(port), out)
        }
        None => Ok(()),
    }
}
