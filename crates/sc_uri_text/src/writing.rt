//! URIs as text.

ghost use Rattle.std.specs.Prelude.{◌≡◌, ◌++◌, OnOk, OnErr};
ghost use Rattle.sc_grammar.specs.Written.{param_text, params_text, sip_uri_text, uri_text};

use crate::growing::Growing;
use crate::pieces::{put_ended, put_port, put_scheme, put_signed};
use sc_value::{NoMemory, Param, SipUri, Text, Uri, shared_value};
use std::alloc::Global;

/// Puts the text of a URI at the end (RFC 3261 section 19.1.1). The one error is want of memory,
/// on which `out` is as before.
pub fn write(alloc: Global, uri: &Uri, out: &mut Text) -> Result<(), NoMemory>
    ensures ok { OnOk result (out.new ≡ out.old ++ uri_text uri.now) }
    ensures err { OnErr result (out.new ≡ out.old) }
{
    let mut text = Text::new(alloc);
    put_uri(uri, &mut text)?;
    out.append(text.as_bytes())
}

/// As [`write`]; but for want of memory `out` may hold a part of the text.
#[tactic(auto, unfolding(sc_grammar::specs::Written::uri_text))]
pub fn put_uri<G: Growing>(uri: &Uri, out: &mut G) -> Result<(), NoMemory>
    ensures { OnOk result (G.bytes out.new ≡ G.bytes out.old ++ uri_text uri.now) }
{
    match uri {
        Uri::Sip(uri) => put_sip_uri(uri, out),
        Uri::Other(text) => out.put_bytes(text.as_bytes()),
    }
}

#[tactic(auto, unfolding(sc_grammar::specs::Written::sip_uri_text))]
fn put_sip_uri<G: Growing>(uri: &SipUri, out: &mut G) -> Result<(), NoMemory>
    ensures { OnOk result (G.bytes out.new ≡ G.bytes out.old ++ sip_uri_text uri.now) }
{
    put_scheme(out)?;
    put_ended(uri.user.as_ref(), b'@', out)?;
    out.put_bytes(uri.host.as_bytes())?;
    put_port(uri.port, out)?;
    put_params(uri.params.as_slice(), out)?;
    put_signed(b'?', shared_value(&uri.headers), out)
}

/// Appends the parameters, each behind a semicolon (RFC 3261 section 25.1). For want of memory
/// `out` may hold a part of them.
#[tactic(auto, unfolding(sc_grammar::specs::Written::params_text))]
pub fn put_params<G: Growing>(params: &[Param], out: &mut G) -> Result<(), NoMemory>
    ensures { OnOk result (G.bytes out.new ≡ G.bytes out.old ++ params_text params.now) }
{
    for param in params {
        put_param(param, out)?;
    }
    Ok(())
}

#[tactic(auto, unfolding(sc_grammar::specs::Written::param_text))]
fn put_param<G: Growing>(param: &Param, out: &mut G) -> Result<(), NoMemory>
    ensures { OnOk result (G.bytes out.new ≡ G.bytes out.old ++ param_text param.now) }
{
    out.put_one(b';')?;
    out.put_bytes(param.name.as_bytes())?;
    put_signed(b'=', param.value.as_ref(), out)
}
