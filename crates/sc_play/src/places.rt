//! The words of a line, and the places that they name.

ghost use Rattle.std.specs.Prelude.{◌≡◌, ◌+◌, length, IfSome};

use sc_script::decimal_upto;
use sc_value::Place;

/// So great are serials, moments and numbers of connections at most.
pub const MOST_COUNT: u64 = 9_223_372_036_854_775_808;

/// What stands before the first such sign and behind it; none where there is no such sign.
pub fn split(text: &[u8], sign: u8) -> Option<(&[u8], &[u8])>
    ensures { IfSome result
        (λ parts. length parts.0.now + length parts.1.now + 1 ≡ length text.now) }
{
    for at in 0..text.len() {
        if text[at] == sign {
            return Some((&text[..at], &text[at + 1..]));
        }
    }
    None
}

/// The first word of a line, and what stands behind the blank.
pub fn first_word(line: &[u8]) -> (&[u8], &[u8]) {
    match split(line, b' ') {
        Some(parts) => parts,
        None => (line, b""),
    }
}

/// The place that a word names: `cN` or `a.b.c.d:port`.
pub fn place_of(word: &[u8]) -> Option<Place> {
    match word {
        [b'c', number @ ..] => Some(Place::Back(decimal_upto(MOST_COUNT, number)?)),
        _ => {
            let (ip, port) = split(word, b':')?;
            let port = decimal_upto(65_535, port)?;
            Some(Place::To(ip_of(ip)?, port as u16))
        }
    }
}

fn ip_of(text: &[u8]) -> Option<[u8; 4]> {
    let (a, rest) = split(text, b'.')?;
    let (b, rest) = split(rest, b'.')?;
    let (c, d) = split(rest, b'.')?;
    Some([octet(a)?, octet(b)?, octet(c)?, octet(d)?])
}

fn octet(text: &[u8]) -> Option<u8> {
    let number = decimal_upto(255, text)?;
    Some(number as u8)
}
