//! The ends of tokens and of quoted strings.

ghost use Rattle.std.specs.Prelude.{◌≡◌, ◌≤◌, not, length, ◌+◌, ◌<◌, IfSome, IsTrue};
ghost use Rattle.std.specs.List.{position_or_len};
ghost use Rattle.sc_tokens.specs.Tokens.{is_token_byte};
ghost use Rattle.sc_tokens.specs.Quoted.{closing, is_quote_at, quoted_end, token_end};

use sc_value::is_token_byte;

/// The first place from `at` on that holds no byte of a token, or the text's length: a token's
/// bytes are letters, digits and ``-.!%*_+`'~`` (RFC 3261 section 25.1).
#[tactic(auto, unfolding(sc_tokens::specs::Quoted::token_end))]
pub fn token_end(b: &[u8], at: usize) -> usize
    requires { at ≤ length b.now }
    ensures exact { result ≡ token_end at b.now }
    ensures within { result ≤ length b.now }
{
    at + token_len(&b[at..])
}

fn token_len(text: &[u8]) -> usize
    ensures exact { result ≡ position_or_len (λ b. not (is_token_byte b)) text.now }
    ensures within { result ≤ length text.now }
{
    for i in 0..text.len() {
        if !is_token_byte(text[i]) {
            return i;
        }
    }
    text.len()
}

/// The place after the quoted string that begins at `at`, a backslash taking the next byte with
/// it; None exactly where no closed one begins there (RFC 3261 section 25.1).
#[tactic(auto, unfolding(sc_tokens::specs::Quoted::quoted_end))]
pub fn quoted_end(b: &[u8], at: usize) -> Option<usize>
    requires { at ≤ length b.now }
    ensures exact { result ≡ quoted_end at b.now }
    ensures within { IfSome result (λ end. end ≤ length b.now) }
{
    if !is_quote_at(b, at) {
        return None;
    }
    match closing(&b[at + 1..]) {
        Some(len) => Some(at + 1 + len),
        None => None,
    }
}

#[tactic(auto, unfolding(sc_tokens::specs::Quoted::is_quote_at))]
fn is_quote_at(b: &[u8], at: usize) -> bool
    ensures exact { result ≡ is_quote_at at b.now }
    ensures within { IsTrue result → at < length b.now }
{
    at < b.len() && b[at] == b'"'
}

#[tactic(auto, using(crate::proofs::Closings::at_quote, crate::proofs::Closings::at_backslash, crate::proofs::Closings::at_other, crate::proofs::Closings::at_end))]
// How many bytes there are up to and with the closing quote.
fn closing(text: &[u8]) -> Option<usize>
    ensures exact { result ≡ closing text.now }
    ensures within { IfSome result (λ len. len ≤ length text.now) }
{
    let mut i: usize = 0;
    while i < text.len() {
        match text[i] {
            b'"' => return Some(i + 1),
            b'\\' => i += 2,
            _ => i += 1,
        }
    }
    None
}
