//! The route of a tuple: nothing, or one `sip:` URI, bare or in angle brackets.

ghost use Rattle.std.specs.Prelude.{◌≡◌};
ghost use Rattle.std.specs.Option.{option_copied};
ghost use Rattle.sc_syntax.specs.Uris.{uri_of};
ghost use Rattle.sc_dar.specs.Tuples.{BAD_ROUTE as bad_route, or_refusal, route_of, sip_route, without_brackets};
ghost use Rattle.sc_dar.specs.Answers.{IsRead};

use crate::cuts::cut;
use crate::unread::{BAD_ROUTE, Unread};
use sc_ascii::begins;
use sc_uri_text::UriRefused;
use sc_value::{Address, Discard, Uri, plain_address};
use std::alloc::Global;

// What stands between angle brackets, or else the whole text.
#[tactic(auto, unfolding(crate::specs::Tuples::without_brackets))]
fn unbracketed(text: &[u8]) -> Option<&[u8]>
    ensures { option_copied result ≡ without_brackets text.now }
{
    if !begins(text, b'<') {
        return Some(text);
    }
    match cut(&text[1..], b'>') {
        (inside, Some([])) => Some(inside),
        _ => None,
    }
}

#[tactic(auto, unfolding(crate::specs::Tuples::sip_route))]
fn sip_route(alloc: Global, text: &[u8]) -> Result<Address, Unread>
    ensures { IsRead result (or_refusal bad_route (sip_route (uri_of text.now))) }
{
    match sc_uri_text::read(alloc, text) {
        Ok(Uri::Sip(uri)) => Ok(plain_address(alloc, Uri::Sip(uri))),
        Ok(Uri::Other(text)) => {
            drop(text);
            Err(Unread::Fault { kind: BAD_ROUTE })
        }
        Err(UriRefused::Refused { at: _, kind: _ }) => Err(Unread::Fault { kind: BAD_ROUTE }),
        Err(UriRefused::NoMemory) => Err(Unread::NoMemory),
    }
}

// The route of a text, None of an empty one.
#[tactic(auto, unfolding(crate::specs::Tuples::route_of))]
pub fn route_of(alloc: Global, text: &[u8]) -> Result<Option<Address>, Unread>
    ensures { IsRead result (or_refusal bad_route (route_of text.now)) }
{
    if text.is_empty() {
        return Ok(None);
    }
    match unbracketed(text) {
        Some(uri) => Ok(Some(sip_route(alloc, uri)?)),
        None => Err(Unread::Fault { kind: BAD_ROUTE }),
    }
}
