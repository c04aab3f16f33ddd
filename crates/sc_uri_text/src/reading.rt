//! URIs from text (RFC 3261 sections 19.1.1 and 25.1).

ghost use Rattle.std.specs.Prelude.{◌≡◌, ◌≤◌, ◌+◌, ◌^◌, ◌++◌, ◌∷◌, Some, IfOk, length, true};
ghost use Rattle.std.specs.Option.{option_copied, option_map_or};
ghost use Rattle.sc_tokens.specs.Bytes.{is_open};
ghost use Rattle.sc_tokens.specs.Hosts.{is_host};
ghost use Rattle.sc_tokens.specs.UriTokens.{IsOtherSpelled, IsUser, is_scheme};
ghost use Rattle.sc_value.specs.ParamRules.{AreUriParams};
ghost use Rattle.sc_value.specs.declared.parts.Uri.TheVariants.{Sip};
ghost use Rattle.sc_syntax.specs.UriParts.{headers_at};
ghost use Rattle.sc_syntax.specs.Uris.{other_of, sip_at, sip_behind, uri_behind, uri_of};
ghost use Rattle.sc_uri_text.specs.Answers.{IsRead, IsReadAs};

use crate::UriRefused;
use crate::classes::{is_open, is_scheme};
use crate::copies::{copy_of, shared_copy_of};
use crate::params::read_params;
use crate::sent::read_sent;
use sc_ascii::{cut, same_name};
use sc_value::{List, NoMemory, OtherUri, Param, SipUri, Text, Uri};
use std::alloc::Global;

/// The URI that the text is (RFC 3261 sections 19.1.1 and 25.1). The scheme may have any case, and
/// the port, 0 to 65535, leading zeros; percent escapes stay as they are. A text of another scheme
/// than `sip` is kept as written. The error is the place and the kind of the first part at fault,
/// or want of memory.
#[tactic(auto, unfolding(sc_syntax::specs::Uris::uri_of), using(crate::proofs::ReadingSteps::parts_joined))]
pub fn read(alloc: Global, b: &[u8]) -> Result<Uri, UriRefused>
    ensures { IsRead result (uri_of b.now) }
{
    let (scheme, rest) = cut(b, b':');
    if !is_scheme(scheme) {
        return Err(UriRefused::Refused { at: 0, kind: 1 });
    }
    match rest {
        Some(rest) => read_by_scheme(alloc, b, scheme, rest),
        None => Err(UriRefused::Refused { at: 0, kind: 1 }),
    }
}

#[tactic(auto, unfolding(sc_syntax::specs::Uris::uri_behind, sc_tokens::specs::UriTokens::sip_scheme), using(crate::proofs::ReadingSteps::other_kept))]
fn read_by_scheme(alloc: Global, text: &[u8], scheme: &[u8], rest: &[u8]) -> Result<Uri, UriRefused>
    requires fits { length scheme.now + length rest.now + 1 ≤ length text.now }
    requires parts { text.now ≡ scheme.now ++ 58 ∷ rest.now }
    requires scheme { is_scheme scheme.now ≡ true }
    ensures { IsRead result (uri_behind text.now scheme.now rest.now) }
{
    if same_name(scheme, b"sip") {
        read_sip(alloc, rest, scheme.len() + 1)
    } else {
        read_other(alloc, text)
    }
}

#[tactic(auto, unfolding(sc_syntax::specs::Uris::other_of))]
fn read_other(alloc: Global, text: &[u8]) -> Result<Uri, UriRefused>
    requires { is_open text.now ≡ true → IsOtherSpelled text.now text.now }
    ensures { IsRead result (other_of text.now) }
{
    if !is_open(text) {
        return Err(UriRefused::Refused { at: 0, kind: 1 });
    }
    let other = OtherUri::from_slice(alloc, text)?;
    Ok(Uri::Other(other))
}

// What stands after the scheme's colon, at this place.
#[tactic(auto, using(crate::proofs::ReadingSteps::with_user, crate::proofs::ReadingSteps::closed_user, crate::proofs::ReadingSteps::no_user, crate::proofs::ReadingSteps::user_kept, crate::proofs::ReadingSteps::no_user_kept))]
fn read_sip(alloc: Global, text: &[u8], at: usize) -> Result<Uri, UriRefused>
    requires { at + length text.now ≤ 2 ^ 63 }
    ensures { IsRead result (sip_at at text.now) }
{
    match cut(text, b'@') {
        (user, Some(rest)) => {
            if !is_open(user) {
                return Err(UriRefused::Refused { at, kind: 2 });
            }
            read_behind(alloc, Some(user), rest, at + user.len() + 1)
        }
        (_, None) => read_behind(alloc, None, text, at),
    }
}

// What stands behind the user, at this place: host and port, parameters, headers.
#[tactic(auto, using(crate::proofs::ReadingSteps::has_room))]
fn read_behind(
    alloc: Global,
    user: Option<&[u8]>,
    text: &[u8],
    at: usize,
) -> Result<Uri, UriRefused>
    requires fits { at + length text.now ≤ 2 ^ 63 }
    requires user { IsUser (option_copied user) (Some text.now) }
    ensures { IsRead result (sip_behind at (option_copied user.entry) text.now) }
{
    let (front, headers) = cut(text, b'?');
    let (sent, params) = cut(front, b';');
    let (host, port) = match read_sent(sent, at) {
        Ok(sent) => sent,
        Err(refused) => return Err(refused),
    };
    let params = match read_params(alloc, params, at + sent.len() + 1) {
        Ok(params) => params,
        Err(refused) => return Err(refused),
    };
    match judge_headers(headers, at + front.len() + 1) {
        Ok(()) => (),
        Err(refused) => return Err(refused),
    }
    let uri = build(alloc, user, host, port, params, headers)?;
    Ok(uri)
}

// None, or all after the question mark, at this place.
#[tactic(auto, unfolding(sc_syntax::specs::UriParts::headers_at))]
fn judge_headers(headers: Option<&[u8]>, at: usize) -> Result<(), UriRefused>
    ensures { IsReadAs (λ _. option_copied headers.entry) result
        (headers_at at (option_copied headers.entry)) }
{
    match headers {
        Some(headers) if !is_open(headers) => Err(UriRefused::Refused { at, kind: 4 }),
        _ => Ok(()),
    }
}

fn build(
    alloc: Global,
    user: Option<&[u8]>,
    host: &[u8],
    port: Option<u16>,
    params: List<Param>,
    headers: Option<&[u8]>,
) -> Result<Uri, NoMemory>
    requires user { IsUser (option_copied user) (option_copied headers) }
    requires host { is_host host.now ≡ true }
    requires params { AreUriParams params }
    requires headers { option_map_or is_open (option_copied headers) true ≡ true }
    ensures { IfOk result
        (λ uri.
        uri
        ≡ Sip
        (record {
          user = option_copied user.entry;
          host = host.now;
          port = port;
          params = params;
          headers = option_copied headers.entry;
        })) }
{
    let user = copy_of(alloc, user)?;
    let host = Text::from_slice(alloc, host)?;
    let headers = shared_copy_of(alloc, headers)?;
    let uri = SipUri {
        user,
        host,
        port,
        params,
        headers,
    };
    Uri::sip(alloc, uri)
}
