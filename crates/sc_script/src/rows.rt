//! The rows of scripts: what the words of one line say.

ghost use Rattle.std.specs.Prelude.{◌≡◌, ◌≤◌, ◌<◌, ◌+◌, ◌^◌, ℕ, [], ◌∷◌, length, IfOk, IfSome, IsTrue};
ghost use Rattle.std.specs.List.{slice_get};
ghost use Rattle.sc_tokens.specs.Cuts.{pieces};
ghost use Rattle.sc_script.specs.ScriptTexts.{alone, app_of, decimal_upto, drop_line, incoming, is_feed, line_of, lost_line, one_word, place_of, size_of, three_words, tick_line, turn_line, two_words};
ghost use Rattle.sc_script.specs.Reading.{Says, more_pieces};

use crate::cuts::cut;
use crate::numbers::decimal_upto;
use crate::places::{MOST_COUNT, place_of};
use sc_terms::Line;
use sc_value::{AppId, NoMemory, Place, Text};
use std::alloc::Global;

// What can be wrong with a line, by its number.
const WORD: u8 = 1;

const NUMBER: u8 = 2;

const PLACE: u8 = 3;

const SHORT: u8 = 4;

const BACK: u8 = 5;

/// Why a line says nothing.
pub enum RowRefused {
    /// What is wrong with it, by its number.
    Wrong(u8),
    /// Want of memory.
    NoMemory,
}

#[tactic(auto, unfolding(crate::specs::ScriptTexts::one_word))]
fn one_word(word: &[u8]) -> Result<Line, u8>
    ensures { result ≡ one_word word.now }
{
    if word == b"run".as_slice() {
        return Ok(Line::Run);
    }
    if word == b"end".as_slice() {
        return Ok(Line::End);
    }
    Err(WORD)
}

#[tactic(auto, unfolding(crate::specs::ScriptTexts::tick_line))]
fn tick_line(since: u64, now: Option<u64>) -> Result<Line, u8>
    ensures { result ≡ tick_line since now }
{
    match now {
        Some(now) => {
            if now < since {
                return Err(BACK);
            }
            Ok(Line::Tick(now))
        }
        None => Err(NUMBER),
    }
}

#[tactic(auto, unfolding(crate::specs::ScriptTexts::lost_line))]
fn lost_line(place: Option<Place>) -> Result<Line, u8>
    ensures { result ≡ lost_line place }
{
    match place {
        Some(place) => Ok(Line::Lost(place)),
        None => Err(PLACE),
    }
}

#[tactic(auto, unfolding(crate::specs::ScriptTexts::two_words))]
fn two_words(since: u64, word: &[u8], more: &[u8]) -> Result<Line, u8>
    ensures { result ≡ two_words since word.now more.now }
{
    if word == b"tick".as_slice() {
        return tick_line(since, decimal_upto(MOST_COUNT, more));
    }
    if word == b"lost".as_slice() {
        return lost_line(place_of(more));
    }
    Err(WORD)
}

#[tactic(auto, unfolding(crate::specs::ScriptTexts::app_of))]
fn app_of(host: Option<u64>, serial: Option<u64>) -> Result<AppId, u8>
    requires { IfSome host (λ host. host ≤ 4294967295) }
    ensures { result ≡ app_of host serial }
{
    match (host, serial) {
        (Some(host), Some(serial)) => Ok(AppId {
            host: host as u32,
            serial,
        }),
        (Some(_), None) => Err(NUMBER),
        (None, _) => Err(NUMBER),
    }
}

#[tactic(auto, unfolding(crate::specs::ScriptTexts::turn_line))]
fn turn_line(app: Result<AppId, u8>) -> Result<Line, u8>
    ensures { result ≡ turn_line app }
{
    match app {
        Ok(app) => Ok(Line::Turn(app)),
        Err(kind) => Err(kind),
    }
}

#[tactic(auto, unfolding(crate::specs::ScriptTexts::drop_line))]
fn drop_line(app: Result<AppId, u8>) -> Result<Line, u8>
    ensures { result ≡ drop_line app }
{
    match app {
        Ok(app) => Ok(Line::Drop(app)),
        Err(kind) => Err(kind),
    }
}

fn named_app(host: &[u8], serial: &[u8]) -> Result<AppId, u8>
    ensures { result
        ≡ app_of (decimal_upto 4294967295 host.now) (decimal_upto (2 ^ 63) serial.now) }
{
    app_of(
        decimal_upto(4_294_967_295, host),
        decimal_upto(MOST_COUNT, serial),
    )
}

#[tactic(auto, unfolding(crate::specs::ScriptTexts::three_words))]
fn three_words(word: &[u8], host: &[u8], serial: &[u8]) -> Result<Line, u8>
    ensures { result ≡ three_words word.now host.now serial.now }
{
    if word == b"turn".as_slice() {
        return turn_line(named_app(host, serial));
    }
    if word == b"drop".as_slice() {
        return drop_line(named_app(host, serial));
    }
    Err(WORD)
}

/// What the words of a line say, with what stands after the line: the line, and how many bytes of
/// that are its own; else the lowest kind of what is wrong with it.
#[tactic(auto, unfolding(crate::specs::ScriptTexts::line_of, crate::specs::Reading::more_pieces))]
pub fn line_of(
    alloc: Global,
    since: u64,
    after: &[u8],
    words: &[u8],
) -> Result<(Line, usize), RowRefused>
    ensures says { Says result (line_of since after.now (pieces 32 words.now)) }
    ensures within { IfOk result (λ row. row.1 ≤ length after.now) }
{
    let (a, rest) = cut(words, b' ');
    let Some(rest) = rest else {
        return alone(one_word(a));
    };
    let (b, rest) = cut(rest, b' ');
    match rest {
        Some(rest) => line_of_more(alloc, since, after, a, b, rest),
        None => alone(two_words(since, a, b)),
    }
}

// The same, behind the first two words.
#[tactic(auto, unfolding(crate::specs::ScriptTexts::line_of, crate::specs::Reading::more_pieces, crate::specs::Reading::Says), using(crate::proofs::Cutting::line_long))]
fn line_of_more(
    alloc: Global,
    since: u64,
    after: &[u8],
    a: &[u8],
    b: &[u8],
    words: &[u8],
) -> Result<(Line, usize), RowRefused>
    ensures says { Says result (line_of since after.now (a.now ∷ b.now ∷ pieces 32 words.now)) }
    ensures within { IfOk result (λ row. row.1 ≤ length after.now) }
{
    let (c, rest) = cut(words, b' ');
    match rest {
        Some(_) => Err(RowRefused::Wrong(WORD)),
        None => line_of_three(alloc, after, a, b, c),
    }
}

#[tactic(auto, unfolding(crate::specs::ScriptTexts::line_of))]
fn line_of_three(
    alloc: Global,
    after: &[u8],
    a: &[u8],
    b: &[u8],
    c: &[u8],
) -> Result<(Line, usize), RowRefused>
    ensures says { (since : ℕ)
        → Says result (line_of since after.now (a.now ∷ b.now ∷ c.now ∷ [])) }
    ensures within { IfOk result (λ row. row.1 ≤ length after.now) }
{
    if a == b"in".as_slice() {
        return incoming(alloc, after, size_of(decimal_upto(65_536, c)), place_of(b));
    }
    alone(three_words(a, b, c))
}

#[tactic(auto, unfolding(crate::specs::ScriptTexts::alone, crate::specs::Reading::Says))]
fn alone(line: Result<Line, u8>) -> Result<(Line, usize), RowRefused>
    ensures says { Says result (alone line) }
    ensures none { IfOk result (λ row. row.1 ≡ 0) }
{
    match line {
        Ok(line) => Ok((line, 0)),
        Err(kind) => Err(RowRefused::Wrong(kind)),
    }
}

#[tactic(auto, unfolding(crate::specs::ScriptTexts::size_of))]
fn size_of(count: Option<u64>) -> Option<u64>
    requires { IfSome count (λ count. count ≤ 65536) }
    ensures exact { result ≡ size_of count }
    ensures within { IfSome result (λ count. count ≤ 65536) }
{
    match count {
        Some(count) => {
            if count == 0 {
                return None;
            }
            Some(count)
        }
        None => None,
    }
}

#[tactic(auto, unfolding(crate::specs::ScriptTexts::incoming, crate::specs::Reading::Says))]
fn incoming(
    alloc: Global,
    after: &[u8],
    count: Option<u64>,
    place: Option<Place>,
) -> Result<(Line, usize), RowRefused>
    requires { IfSome count (λ count. count ≤ 65536) }
    ensures says { Says result (incoming after.now count place) }
    ensures within { IfOk result (λ row. row.1 ≤ length after.now) }
{
    let Some(count) = count else {
        return Err(RowRefused::Wrong(NUMBER));
    };
    let Some(place) = place else {
        return Err(RowRefused::Wrong(PLACE));
    };
    if !is_feed_at(after, count as usize) {
        return Err(RowRefused::Wrong(SHORT));
    }
    match Text::from_slice(alloc, &after[..count as usize]) {
        Ok(text) => Ok((Line::In(place, text), count as usize + 1)),
        Err(NoMemory) => Err(RowRefused::NoMemory),
    }
}

#[tactic(auto, unfolding(crate::specs::ScriptTexts::is_feed))]
fn is_feed_at(text: &[u8], at: usize) -> bool
    ensures exact { result ≡ is_feed (slice_get text.now at) }
    ensures within { IsTrue result → at < length text.now }
{
    match text.get(at) {
        Some(b) => *b == b'\n',
        None => false,
    }
}
