//! Vias (RFC 3261 section 20.42).

ghost use Rattle.std.specs.Prelude.{◌≡◌, IfOk, true};
ghost use Rattle.std.specs.List.{All};
ghost use Rattle.std.specs.Option.{option_copied};
ghost use Rattle.std.specs.Result.{result_ok};
ghost use Rattle.sc_syntax.specs.UriParts.{sent_at};
ghost use Rattle.sc_syntax.specs.SpelledVias.{AreViasSpelled};
ghost use Rattle.sc_syntax.specs.Vias.{behind_slash, behind_version, hop_in, via_of, vias_of, via_with};
ghost use Rattle.sc_head_text.specs.Answers.{Gives, GivesAs, GivesSpelled};
ghost use Rattle.sc_tokens.specs.Hosts.{is_host};
ghost use Rattle.sc_tokens.specs.Tokens.{is_one_line, is_token};
ghost use Rattle.sc_value.specs.ParamRules.{AreHeaderParams};
ghost use Rattle.sc_value.specs.ViaValues.{IsVia};

use crate::Unread;
use crate::params::read_params;
use crate::parts::{Readable, read_parts, split_part};
use crate::words::split_word;
use sc_ascii::{cut, trim};
use sc_syntax::Scan;
use sc_uri_text::read_sent;
use sc_value::{List, NoMemory, Param, Text, Via, is_token};
use std::alloc::Global;

/// The Vias of a value, commas between: `SIP/2.0/transport host:port;params`, in their order (RFC
/// 3261 section 20.42). Blanks may stand round commas, slashes and semicolons, and one at least
/// stands before the host; none stands round `=` or the port's colon. The value is of one line, so
/// nothing of a Via ends its line. `Fault` exactly where an item is outside the grammar; `NoMemory`
/// says nothing of the value.
#[tactic(auto, unfolding(sc_syntax::specs::Vias::vias_of, crate::specs::Parts::parts_behind))]
pub fn read_vias(alloc: Global, b: &[u8]) -> Result<List<Via>, Unread>
    requires { is_one_line b.now ≡ true }
    ensures exact { Gives result (vias_of b.now) }
    ensures spelled { GivesSpelled result (λ vias. AreViasSpelled b.now vias) }
    ensures kept { IfOk result (λ vias. All IsVia vias) }
{
    read_parts(alloc, Some(b), b',', Scan::Params)
}

impl Readable for Via {
    ghost read_of = { via_of };

    fn read(alloc: Global, text: &[u8]) -> Result<Via, Unread> {
        let (first, rest) = split_part(text, b';', Scan::Params);
        match read_params(alloc, rest) {
            Ok(params) => read_via_with(alloc, first, params),
            Err(unread) => Err(unread),
        }
    }
}

// The first part, with these parameters.
#[tactic(auto, unfolding(sc_syntax::specs::Vias::via_with))]
fn read_via_with(alloc: Global, text: &[u8], params: List<Param>) -> Result<Via, Unread>
    requires { AreHeaderParams params }
    ensures { Gives result (via_with text.now params) }
{
    match behind_version(text) {
        Some(rest) => read_hop(alloc, trim(rest), params),
        None => Err(Unread::Fault),
    }
}

// What stands behind `SIP/2.0/`.
#[tactic(auto, unfolding(sc_syntax::specs::Vias::behind_version))]
fn behind_version(text: &[u8]) -> Option<&[u8]>
    ensures { option_copied result ≡ behind_version text.now }
{
    match behind_slash(b"SIP", text) {
        Some(rest) => behind_slash(b"2.0", rest),
        None => None,
    }
}

// What stands behind the first slash, where this word stands before it.
#[tactic(auto, unfolding(sc_syntax::specs::Vias::behind_slash))]
fn behind_slash<'a>(word: &[u8], text: &'a [u8]) -> Option<&'a [u8]>
    ensures { option_copied result ≡ behind_slash word.now text.now }
{
    let (front, rest) = cut(text, b'/');
    if trim(front) == word { rest } else { None }
}

// Transport, host and port, with these parameters.
#[tactic(auto, unfolding(sc_syntax::specs::Vias::hop_in))]
fn read_hop(alloc: Global, text: &[u8], params: List<Param>) -> Result<Via, Unread>
    requires { AreHeaderParams params }
    ensures { Gives result (hop_in text.now params) }
{
    let (transport, sent) = split_word(text);
    if !is_token(transport) {
        return Err(Unread::Fault);
    }
    let (host, port) = match read_host(sent) {
        Ok(sent) => sent,
        Err(unread) => return Err(unread),
    };
    let via = build(alloc, transport, host, port, params)?;
    Ok(via)
}

#[tactic(auto, using(crate::proofs::ValueSteps::unread_uri))]
fn read_host(text: &[u8]) -> Result<(&[u8], Option<u16>), Unread>
    ensures { GivesAs (λ sent. (sent.0.now, sent.1)) result (result_ok (sent_at 0 text.now)) }
{
    match read_sent(text, 0) {
        Ok(sent) => Ok(sent),
        Err(refused) => Err(Unread::from(refused)),
    }
}

fn build(
    alloc: Global,
    transport: &[u8],
    host: &[u8],
    port: Option<u16>,
    params: List<Param>,
) -> Result<Via, NoMemory>
    requires transport { is_token transport.now ≡ true }
    requires host { is_host host.now ≡ true }
    requires params { AreHeaderParams params }
    ensures { IfOk result
        (λ via.
        via
        ≡ record { transport = transport.now; host = host.now; port = port; params = params }) }
{
    let transport = Text::from_slice(alloc, transport)?;
    let host = Text::from_slice(alloc, host)?;
    Ok(Via {
        transport,
        host,
        port,
        params,
    })
}
