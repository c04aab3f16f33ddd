//! The parts of a line between its commas, six to a tuple, and the texts in their quotes.

ghost use Rattle.std.specs.Prelude.{◌≡◌, ◌<◌, ◌==◌, ◌&&◌, ◌∷◌, IfSome, if◌then◌else◌, not, false, length, option_map};
ghost use Rattle.std.specs.Option.{option_copied};
ghost use Rattle.sc_dar.specs.Lines.{is_blank_text};
ghost use Rattle.sc_dar.specs.Tuples.{before_quote, behind_tuple, first_six, is_closing, is_parted, opening, parts, parts_after, text_in_quotes, without_quotes};

use crate::cuts::{behind, cut, is_blank_text};
use sc_ascii::has;
use std::marker::Model;

// The six texts of a tuple, with or without their quotes.
#[derive(Drop)]
pub struct Texts<'a> {
    pub app: &'a [u8],
    pub subscriber: &'a [u8],
    pub region: &'a [u8],
    pub route: &'a [u8],
    pub modifier: &'a [u8],
    pub order: &'a [u8],
}

impl<'a> Model for Texts<'a> {
    ghost use Rattle.sc_dar.specs.Tuples.{TupleTexts};

    ghost Value = { TupleTexts };

    ghost view = { λ t. record { app = t.app.now; subscriber = t.subscriber.now; region = t.region.now; route = t.route.now; modifier = t.modifier.now; order = t.order.now } };
}

fn is_parting(b: u8, quoted: bool) -> bool
    ensures { result ≡ (b == 44 && not quoted) }
{
    b == b',' && !quoted
}

fn is_quoted_after(b: u8, quoted: bool) -> bool
    ensures { result ≡ (if b == 34 then not quoted else quoted) }
{
    if b == b'"' { !quoted } else { quoted }
}

// The first part, and what stands behind its comma, where it has one.
#[tactic(auto, unfolding(crate::specs::Tuples::parts_after), using(crate::proofs::Parting::parts_begun, crate::proofs::Parting::part_on, crate::proofs::Parting::part_ends, crate::proofs::Parting::part_last))]
fn part(text: &[u8]) -> (&[u8], Option<&[u8]>)
    ensures exact { parts false text.now ≡ result.0.now ∷ parts_after (option_copied result.1) }
    ensures less { IfSome result.1 (λ rest. length rest.now < length text.now) }
{
    let mut quoted = false;
    for i in 0..text.len() {
        if is_parting(text[i], quoted) {
            return (&text[..i], Some(&text[i + 1..]));
        }
        quoted = is_quoted_after(text[i], quoted);
    }
    (text, None)
}

// The first six parts, None where there are fewer, and what stands behind their comma.
#[tactic(auto, unfolding(crate::specs::Tuples::first_six, crate::specs::Tuples::parts_after))]
pub fn first_six(text: &[u8]) -> Option<(Texts<'_>, Option<&[u8]>)>
    ensures exact { option_map (λ six. (six.0, parts_after (option_copied six.1))) result ≡ first_six (parts false text.now) }
    ensures less { IfSome result (λ six. IfSome six.1 (λ rest. length rest.now < length text.now)) }
{
    let (app, rest) = part(text);
    let (subscriber, rest) = part(rest?);
    let (region, rest) = part(rest?);
    let (route, rest) = part(rest?);
    let (modifier, rest) = part(rest?);
    let (order, rest) = part(rest?);
    let texts = Texts {
        app,
        subscriber,
        region,
        route,
        modifier,
        order,
    };
    Some((texts, rest))
}

// The bracket closes.
#[tactic(auto, unfolding(crate::specs::Tuples::is_closing))]
fn is_closing(text: &[u8]) -> bool
    ensures { result ≡ is_closing text.now }
{
    behind(text, b')').is_some()
}

// What stands behind the tuple's bracket; the order is its last text.
#[tactic(auto, unfolding(crate::specs::Tuples::behind_tuple))]
fn behind_tuple(order: &[u8]) -> Option<&[u8]>
    ensures { option_copied result ≡ behind_tuple order.now }
{
    let (_, end) = cut(behind(order, b'"')?, b'"');
    behind(end?, b')')
}

// Blanks alone stand behind the tuple's bracket.
#[tactic(auto, unfolding(crate::specs::Tuples::is_parted))]
pub fn is_parted(order: &[u8]) -> bool
    ensures { result ≡ is_parted order.now }
{
    match behind_tuple(order) {
        Some(rest) => is_blank_text(rest),
        None => false,
    }
}

// What stands before the closing quote, with blanks alone behind it.
#[tactic(auto, unfolding(crate::specs::Tuples::before_quote))]
fn closed(text: &[u8]) -> Option<&[u8]>
    ensures { option_copied result ≡ before_quote is_blank_text text.now }
{
    match cut(text, b'"') {
        (said, Some(end)) if is_blank_text(end) && !has(said, b'\r') => Some(said),
        _ => None,
    }
}

// What stands before the closing quote, with the closing bracket behind it.
#[tactic(auto, unfolding(crate::specs::Tuples::before_quote))]
fn closed_last(text: &[u8]) -> Option<&[u8]>
    ensures { option_copied result ≡ before_quote is_closing text.now }
{
    match cut(text, b'"') {
        (said, Some(end)) if is_closing(end) && !has(said, b'\r') => Some(said),
        _ => None,
    }
}

#[tactic(auto, unfolding(crate::specs::Tuples::text_in_quotes))]
fn quoted(text: &[u8]) -> Option<&[u8]>
    ensures { option_copied result ≡ text_in_quotes is_blank_text text.now }
{
    closed(behind(text, b'"')?)
}

#[tactic(auto, unfolding(crate::specs::Tuples::text_in_quotes))]
fn quoted_last(text: &[u8]) -> Option<&[u8]>
    ensures { option_copied result ≡ text_in_quotes is_closing text.now }
{
    closed_last(behind(text, b'"')?)
}

#[tactic(auto, unfolding(crate::specs::Tuples::opening))]
fn opening(text: &[u8]) -> Option<&[u8]>
    ensures { option_copied result ≡ opening text.now }
{
    quoted(behind(text, b'(')?)
}

// The six texts without their quotes and brackets.
#[tactic(auto, unfolding(crate::specs::Tuples::without_quotes))]
pub fn unquoted<'a>(texts: &Texts<'a>) -> Option<Texts<'a>>
    ensures { result ≡ without_quotes texts.now }
{
    let app = opening(texts.app)?;
    let subscriber = quoted(texts.subscriber)?;
    let region = quoted(texts.region)?;
    let route = quoted(texts.route)?;
    let modifier = quoted(texts.modifier)?;
    let order = quoted_last(texts.order)?;
    Some(Texts {
        app,
        subscriber,
        region,
        route,
        modifier,
        order,
    })
}
