//! Where a scan of a value stands, byte by byte (RFC 3261 section 25.1).

ghost use Rattle.std.specs.Prelude.{◌≡◌};
ghost use Rattle.sc_syntax.specs.Scanning.{in_string, is_outside, is_part_end, past, past_bracketed, past_front, past_params, past_word};

use sc_ascii::is_blank;
use sc_syntax::Scan;

// Where the scan stands behind the byte.
#[tactic(auto, unfolding(sc_syntax::specs::Scanning::past))]
pub fn past(at: Scan, b: u8) -> Scan
    ensures { result ≡ past at b }
{
    match at {
        Scan::Front => past_front(b),
        Scan::Word => past_word(b),
        Scan::Display => in_string(Scan::Display, Scan::DisplayEscaped, Scan::Word, b),
        Scan::DisplayEscaped => Scan::Display,
        Scan::Bracketed => past_bracketed(b),
        Scan::Params => past_params(b),
        Scan::Quoted => in_string(Scan::Quoted, Scan::Escaped, Scan::Params, b),
        Scan::Escaped => Scan::Quoted,
    }
}

#[tactic(auto, unfolding(sc_syntax::specs::Scanning::past_front))]
fn past_front(b: u8) -> Scan
    ensures { result ≡ past_front b }
{
    if b == b'"' {
        Scan::Display
    } else if b == b'<' {
        Scan::Bracketed
    } else if is_blank(b) {
        Scan::Front
    } else {
        Scan::Word
    }
}

#[tactic(auto, unfolding(sc_syntax::specs::Scanning::past_word))]
fn past_word(b: u8) -> Scan
    ensures { result ≡ past_word b }
{
    if b == b'<' {
        Scan::Bracketed
    } else if b == b';' {
        Scan::Params
    } else {
        Scan::Word
    }
}

// In a quoted string: a backslash takes the next byte with it, a quote closes.
#[tactic(auto, unfolding(sc_syntax::specs::Scanning::in_string))]
fn in_string(inside: Scan, escaped: Scan, outside: Scan, b: u8) -> Scan
    ensures { result ≡ in_string inside escaped outside b }
{
    if b == b'\\' {
        escaped
    } else if b == b'"' {
        outside
    } else {
        inside
    }
}

#[tactic(auto, unfolding(sc_syntax::specs::Scanning::past_bracketed))]
fn past_bracketed(b: u8) -> Scan
    ensures { result ≡ past_bracketed b }
{
    if b == b'>' {
        Scan::Params
    } else {
        Scan::Bracketed
    }
}

#[tactic(auto, unfolding(sc_syntax::specs::Scanning::past_params))]
fn past_params(b: u8) -> Scan
    ensures { result ≡ past_params b }
{
    if b == b'"' {
        Scan::Quoted
    } else {
        Scan::Params
    }
}

// Whether this byte is a separator that parts.
#[tactic(auto, unfolding(sc_syntax::specs::Scanning::is_part_end))]
pub fn is_part_end(at: Scan, sign: u8, b: u8) -> bool
    ensures { result ≡ is_part_end at sign b }
{
    is_outside(at) && b == sign
}

#[tactic(auto, unfolding(sc_syntax::specs::Scanning::is_outside))]
fn is_outside(at: Scan) -> bool
    ensures { result ≡ is_outside at }
{
    match at {
        Scan::Front | Scan::Word | Scan::Params => true,
        Scan::Display | Scan::DisplayEscaped => false,
        Scan::Bracketed | Scan::Quoted | Scan::Escaped => false,
    }
}
