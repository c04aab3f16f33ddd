//! The values of Via and CSeq (RFC 3261 sections 20.42 and 20.16).

ghost use Rattle.std.specs.Prelude.{◌≡◌, ◌++◌, ◌∷◌, [], OnOk};
ghost use Rattle.sc_grammar.specs.Written.{cseq_text, params_text, port_text, version, via_text};

use crate::pieces::put_version;
use sc_uri_text::{Growing, put_number, put_params, put_port};
use sc_value::{CSeq, NoMemory, Via};

#[tactic(auto, unfolding(sc_grammar::specs::Written::via_text))]
pub fn put_via<G: Growing>(via: &Via, out: &mut G) -> Result<(), NoMemory>
    ensures { OnOk result (G.bytes out.new ≡ G.bytes out.old ++ via_text via.now) }
{
    put_transport(via, out)?;
    put_sent_by(via, out)
}

// The protocol and the space after it.
fn put_transport<G: Growing>(via: &Via, out: &mut G) -> Result<(), NoMemory>
    ensures { OnOk result
        (G.bytes out.new
        ≡ G.bytes out.old ++ (version ++ 47 ∷ [] ++ via.now.transport ++ 32 ∷ [])) }
{
    put_version(out)?;
    out.put_one(b'/')?;
    out.put_bytes(via.transport.as_bytes())?;
    out.put_one(b' ')
}

// The host with its port, and the parameters.
fn put_sent_by<G: Growing>(via: &Via, out: &mut G) -> Result<(), NoMemory>
    ensures { OnOk result
        (G.bytes out.new
        ≡ G.bytes out.old
        ++ (via.now.host ++ port_text via.now.port ++ params_text via.now.params)) }
{
    out.put_bytes(via.host.as_bytes())?;
    put_port(via.port, out)?;
    put_params(via.params.as_slice(), out)
}

#[tactic(auto, unfolding(sc_grammar::specs::Written::cseq_text))]
pub fn put_cseq<G: Growing>(cseq: &CSeq, out: &mut G) -> Result<(), NoMemory>
    ensures { OnOk result (G.bytes out.new ≡ G.bytes out.old ++ cseq_text cseq.now) }
{
    put_number(u64::from(cseq.number), out)?;
    out.put_one(b' ')?;
    out.put_bytes(cseq.method.as_bytes())
}
