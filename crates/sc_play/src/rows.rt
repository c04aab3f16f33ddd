//! The rows of a recording: a line, and the bytes that stand behind it.

ghost use Rattle.std.specs.Prelude.{◌≡◌, ◌≤◌, ◌<◌, ◌+◌, length, IfOk, IfSome};

use crate::places::{MOST_COUNT, first_word, place_of, split};
use sc_script::decimal_upto;
use sc_value::{AppId, Place};

/// What can be wrong with a line, by its number, as of scripts.
pub const WORD: u8 = 1;

pub const NUMBER: u8 = 2;

pub const PLACE: u8 = 3;

pub const SHORT: u8 = 4;

pub const BACK: u8 = 5;

pub const LONG: u8 = 7;

/// The step that is made isn't the one that stands there.
pub const APART: u8 = 8;

/// The most bytes of what stands behind a line.
const MOST_BYTES: u64 = 1_073_741_824;

/// What a row says of a step; what is only compared isn't read.
#[derive(Clone, Copy)]
pub enum Entry<'a> {
    /// The text of this message came from the place.
    In(Place, &'a [u8]),
    /// A text that is no message came from the place; where and how it goes wrong, and the headers
    /// from which it is answered.
    Bad(Place, usize, u8, &'a [u8]),
    /// The place was lost.
    Lost(Place),
    /// The clock reached this moment.
    Tick(u64),
    /// The session took a turn that was lent at this moment.
    Turn(AppId, u64),
    /// The session was ended from outside.
    Drop(AppId),
    /// The epoch ended.
    Epoch,
}

/// A row and how many bytes it has.
#[derive(Clone, Copy)]
pub struct Row<'a> {
    pub entry: Entry<'a>,
    pub len: usize,
}

/// The row at the front of a text, or what is wrong with it.
pub fn row_at(text: &[u8]) -> Result<Row<'_>, u8>
    ensures some { IfOk result (λ row. 0 < row.len) }
    ensures within { IfOk result (λ row. row.len ≤ length text.now) }
{
    let Some((line, after)) = split_line(text) else {
        return Err(SHORT);
    };
    let (word, rest) = first_word(line);
    let own = line.len() + 1;
    if word == b"in".as_slice() || word == b"bad".as_slice() || word == b"turn".as_slice() {
        return long_row(own, word, rest, after);
    }
    match short_entry(word, rest) {
        Ok(entry) => Ok(Row { entry, len: own }),
        Err(kind) => Err(kind),
    }
}

/// The first line and what stands behind its line feed.
fn split_line(text: &[u8]) -> Option<(&[u8], &[u8])>
    ensures { IfSome result
        (λ parts. length parts.0.now + length parts.1.now + 1 ≡ length text.now) }
{
    split(text, b'\n')
}

/// A row that is its line alone.
fn short_entry(word: &[u8], rest: &[u8]) -> Result<Entry<'static>, u8> {
    if word == b"tick".as_slice() {
        return match decimal_upto(MOST_COUNT, rest) {
            Some(now) => Ok(Entry::Tick(now)),
            None => Err(NUMBER),
        };
    }
    if word == b"lost".as_slice() {
        return match place_of(rest) {
            Some(place) => Ok(Entry::Lost(place)),
            None => Err(PLACE),
        };
    }
    if word == b"drop".as_slice() {
        let (host, serial) = first_word(rest);
        return match app_of(host, serial) {
            Some(app) => Ok(Entry::Drop(app)),
            None => Err(NUMBER),
        };
    }
    if word == b"epoch".as_slice() {
        return Ok(Entry::Epoch);
    }
    Err(WORD)
}

fn app_of(host: &[u8], serial: &[u8]) -> Option<AppId> {
    let host = decimal_upto(4_294_967_295, host)?;
    let serial = decimal_upto(MOST_COUNT, serial)?;
    Some(AppId {
        host: host as u32,
        serial,
    })
}

/// A row behind whose line, of so many bytes, as many bytes stand as its last word says, and a line
/// feed.
fn long_row<'a>(own: usize, word: &[u8], rest: &[u8], after: &'a [u8]) -> Result<Row<'a>, u8>
    requires { own + length after.now ≤ 9223372036854775807 }
    ensures some { IfOk result (λ row. own ≤ row.len) }
    ensures within { IfOk result (λ row. row.len ≤ own + length after.now) }
{
    let Some(count) = decimal_upto(MOST_BYTES, last_word(rest)) else {
        return Err(NUMBER);
    };
    let count = count as usize;
    if after.len() <= count || after[count] != b'\n' {
        return Err(SHORT);
    }
    match long_entry(word, rest, &after[..count]) {
        Ok(entry) => Ok(Row {
            entry,
            len: own + count + 1,
        }),
        Err(kind) => Err(kind),
    }
}

/// The last word of a line.
fn last_word(line: &[u8]) -> &[u8] {
    let mut from = line.len();
    while from > 0 && line[from - 1] != b' ' {
        from -= 1;
    }
    &line[from..]
}

fn long_entry<'a>(word: &[u8], rest: &[u8], bytes: &'a [u8]) -> Result<Entry<'a>, u8> {
    let (first, rest) = first_word(rest);
    if word == b"turn".as_slice() {
        return turn_entry(first, rest);
    }
    let Some(place) = place_of(first) else {
        return Err(PLACE);
    };
    if word == b"in".as_slice() {
        return Ok(Entry::In(place, bytes));
    }
    bad_entry(place, rest, bytes)
}

/// `H S EVENT MS ..`
fn turn_entry(host: &[u8], rest: &[u8]) -> Result<Entry<'static>, u8> {
    let (serial, rest) = first_word(rest);
    let (_, rest) = first_word(rest);
    let (now, _) = first_word(rest);
    match (app_of(host, serial), decimal_upto(MOST_COUNT, now)) {
        (Some(app), Some(now)) => Ok(Entry::Turn(app, now)),
        _ => Err(NUMBER),
    }
}

/// `PLACE AT KIND ..`
fn bad_entry<'a>(place: Place, rest: &[u8], bytes: &'a [u8]) -> Result<Entry<'a>, u8> {
    let (at, rest) = first_word(rest);
    let (kind, _) = first_word(rest);
    match (decimal_upto(MOST_BYTES, at), decimal_upto(255, kind)) {
        (Some(at), Some(kind)) => Ok(Entry::Bad(place, at as usize, kind as u8, bytes)),
        _ => Err(NUMBER),
    }
}
