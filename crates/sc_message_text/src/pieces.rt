//! The small pieces of a message's text that are always the same.

ghost use Rattle.std.specs.Prelude.{◌≡◌, ◌++◌, OnOk};
ghost use Rattle.sc_grammar.specs.Written.{crlf, version};

use sc_uri_text::Growing;
use sc_value::NoMemory;

#[tactic(auto, unfolding(sc_grammar::specs::Written::crlf))]
pub fn put_line_end<G: Growing>(out: &mut G) -> Result<(), NoMemory>
    ensures { OnOk result (G.bytes out.new ≡ G.bytes out.old ++ crlf) }
{
    out.put_bytes(b"\r\n")
}

#[tactic(auto, unfolding(sc_grammar::specs::Written::version))]
pub fn put_version<G: Growing>(out: &mut G) -> Result<(), NoMemory>
    ensures { OnOk result (G.bytes out.new ≡ G.bytes out.old ++ version) }
{
    out.put_bytes(b"SIP/2.0")
}
