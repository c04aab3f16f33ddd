//! Host and port (RFC 3261 section 25.1).

ghost use Rattle.std.specs.Prelude.{◌≡◌, ◌≤◌, ◌+◌, ◌^◌, length};
ghost use Rattle.sc_syntax.specs.UriParts.{is_port_start, port_in, sent_at};
ghost use Rattle.sc_uri_text.specs.Answers.{IsRead, IsReadAs};

use crate::UriRefused;
use crate::hosts::{host_len, is_host};
use sc_ascii::{begins, read_port};

/// A host with or without port, 0 to 65535, and no more (RFC 3261 section 25.1). The text's first
/// byte stands at place `at`, in bytes, and the error is the place and the kind of the first part
/// at fault, 2 the host or 3 the port.
#[tactic(auto, unfolding(sc_syntax::specs::UriParts::sent_at, sc_syntax::specs::UriParts::then_read))]
pub fn read_sent(text: &[u8], at: usize) -> Result<(&[u8], Option<u16>), UriRefused>
    requires { at + length text.now ≤ 2 ^ 63 }
    ensures { IsReadAs (λ sent. (sent.0.now, sent.1)) result (sent_at at text.now) }
{
    let len = host_len(text);
    let (host, rest) = text.split_at(len);
    if !is_host(host) || !is_port_start(rest) {
        return Err(UriRefused::Refused { at, kind: 2 });
    }
    match port_in(rest, at + len + 1) {
        Ok(port) => Ok((host, port)),
        Err(refused) => Err(refused),
    }
}

#[tactic(auto, unfolding(sc_syntax::specs::UriParts::is_port_start))]
fn is_port_start(text: &[u8]) -> bool
    ensures { result ≡ is_port_start text.now }
{
    text.is_empty() || begins(text, b':')
}

// Nothing, or a sign and the port's digits, which stand at this place.
#[tactic(auto, unfolding(sc_syntax::specs::UriParts::port_in))]
fn port_in(text: &[u8], at: usize) -> Result<Option<u16>, UriRefused>
    ensures { IsRead result (port_in at text.now) }
{
    match text {
        [] => Ok(None),
        [_, digits @ ..] => match read_port(digits) {
            Some(port) => Ok(Some(port)),
            None => Err(UriRefused::Refused { at, kind: 3 }),
        },
    }
}
