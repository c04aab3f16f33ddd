//! Displays and the text of URIs (RFC 3261 section 25.1: name-addr, addr-spec).

ghost use Rattle.std.specs.Prelude.{◌≡◌, ◌≤◌, length};
ghost use Rattle.std.specs.List.{list_all};
ghost use Rattle.std.specs.Option.{option_copied, option_map};
ghost use Rattle.sc_tokens.specs.HeaderTokens.{is_display_byte};
ghost use Rattle.sc_syntax.specs.Addresses.{in_brackets, named_in, quoted_named, token_named, unless_empty, uri_in_brackets};
ghost use Rattle.sc_head_text.specs.Seen.{seen};

use sc_ascii::{begins, cut, is_blank, is_token_byte, quoted_end, trim};

// The display, where there is one, and the text of the URI.
#[derive(Clone, Copy)]
pub struct Named<'a> {
    pub display: Option<&'a [u8]>,
    pub uri: &'a [u8],
}

// The display and the URI's text of an address without blanks round it and without parameters.
#[tactic(auto, unfolding(sc_syntax::specs::Addresses::named_in))]
pub fn split_named(text: &[u8]) -> Option<Named<'_>>
    ensures { option_map seen result ≡ named_in text.now }
{
    if begins(text, b'"') {
        return match quoted_end(text, 0) {
            Some(end) => quoted_named(text, end),
            None => None,
        };
    }
    match cut(text, b'<') {
        (display, Some(rest)) => token_named(trim(display), rest),
        (_, None) => Some(Named {
            display: None,
            uri: text,
        }),
    }
}

// A quoted string of `end` bytes, and a URI in its brackets.
#[tactic(auto, unfolding(sc_syntax::specs::Addresses::quoted_named))]
fn quoted_named(text: &[u8], end: usize) -> Option<Named<'_>>
    requires { end ≤ length text.now }
    ensures { option_map seen result ≡ quoted_named text.now end }
{
    let (display, rest) = text.split_at(end);
    match in_brackets(trim(rest)) {
        Some(uri) => Some(Named {
            display: Some(display),
            uri,
        }),
        None => None,
    }
}

// Tokens, or none, and what stands behind the opening bracket.
#[tactic(auto, unfolding(sc_syntax::specs::Addresses::token_named))]
fn token_named<'a>(display: &'a [u8], rest: &'a [u8]) -> Option<Named<'a>>
    ensures { option_map seen result ≡ token_named display.now rest.now }
{
    if !has_display_bytes(display) {
        return None;
    }
    match enclosed(rest) {
        Some(uri) => Some(Named {
            display: unless_empty(display),
            uri,
        }),
        None => None,
    }
}

#[tactic(auto, unfolding(sc_syntax::specs::Addresses::unless_empty))]
fn unless_empty(text: &[u8]) -> Option<&[u8]>
    ensures { option_copied result ≡ unless_empty text.now }
{
    if text.is_empty() { None } else { Some(text) }
}

// A URI in its brackets.
#[tactic(auto, unfolding(sc_syntax::specs::Addresses::in_brackets))]
fn in_brackets(text: &[u8]) -> Option<&[u8]>
    ensures { option_copied result ≡ in_brackets text.now }
{
    if begins(text, b'<') {
        enclosed(&text[1..])
    } else {
        None
    }
}

// Up to the closing bracket, which ends the text.
#[tactic(auto, unfolding(sc_syntax::specs::Addresses::uri_in_brackets, sc_tokens::specs::Hosts::is_none_left))]
fn enclosed(text: &[u8]) -> Option<&[u8]>
    ensures { option_copied result ≡ uri_in_brackets text.now }
{
    match cut(text, b'>') {
        (uri, Some(rest)) if rest.is_empty() => Some(uri),
        _ => None,
    }
}

fn has_display_bytes(text: &[u8]) -> bool
    ensures { result ≡ list_all is_display_byte text.now }
{
    text.iter().all(|b| is_display_byte(*b))
}

#[tactic(auto, unfolding(sc_tokens::specs::HeaderTokens::is_display_byte))]
fn is_display_byte(b: u8) -> bool
    ensures { result ≡ is_display_byte b }
{
    is_token_byte(b) || is_blank(b)
}
