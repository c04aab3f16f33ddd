//! Tokens and values of headers (RFC 3261 section 25.1).

ghost use Rattle.std.specs.Prelude.{◌≡◌};
ghost use Rattle.std.specs.List.{list_all};
ghost use Rattle.sc_tokens.specs.Tokens.{is_token, is_token_byte, is_value, is_one_line, is_line_break, is_blank, begins_blank, ends_blank};

/// Whether the text is a token: one or more letters, digits and bytes of ``-.!%*_+`'~``.
#[tactic(auto, unfolding(sc_tokens::specs::Tokens::is_token))]
pub fn is_token(text: &[u8]) -> bool
    ensures { result ≡ is_token text.now }
{
    if text.is_empty() {
        return false;
    }
    has_token_bytes(text)
}

fn has_token_bytes(text: &[u8]) -> bool
    ensures { result ≡ list_all is_token_byte text.now }
{
    text.iter().all(|b| is_token_byte(*b))
}

/// Whether the byte may stand in a token: a letter, a digit or one of ``-.!%*_+`'~`` (RFC 3261
/// section 25.1).
#[tactic(auto, unfolding(sc_tokens::specs::Tokens::is_token_byte))]
pub fn is_token_byte(b: u8) -> bool
    ensures { result ≡ is_token_byte b }
{
    match b {
        b'-' | b'.' | b'!' | b'%' | b'*' | b'_' | b'+' | b'`' | b'\'' | b'~' => true,
        _ => b.is_ascii_alphanumeric(),
    }
}

/// Whether the text has neither CR, LF nor NUL.
#[tactic(auto, unfolding(sc_tokens::specs::Tokens::is_one_line))]
pub fn is_one_line(text: &[u8]) -> bool
    ensures { result ≡ is_one_line text.now }
{
    text.iter().all(|b| !is_line_break(*b))
}

#[tactic(auto, unfolding(sc_tokens::specs::Tokens::is_line_break))]
fn is_line_break(b: u8) -> bool
    ensures { result ≡ is_line_break b }
{
    b == b'\r' || b == b'\n' || b == 0
}

/// Whether the text can be the value of a header: neither CR, LF nor NUL, and no blank at an end.
#[tactic(auto, unfolding(sc_tokens::specs::Tokens::is_value))]
pub fn is_value(text: &[u8]) -> bool
    ensures { result ≡ is_value text.now }
{
    is_one_line(text) && !begins_blank(text) && !ends_blank(text)
}

/// Whether the byte is a blank: a space or a tab (RFC 3261 section 25.1).
#[tactic(auto, unfolding(sc_tokens::specs::Tokens::is_blank))]
pub fn is_blank(b: u8) -> bool
    ensures { result ≡ is_blank b }
{
    b == b' ' || b == b'\t'
}

#[tactic(auto, unfolding(sc_tokens::specs::Tokens::begins_blank))]
fn begins_blank(text: &[u8]) -> bool
    ensures { result ≡ begins_blank text.now }
{
    match text.first() {
        Some(first) => is_blank(*first),
        None => false,
    }
}

#[tactic(auto, unfolding(sc_tokens::specs::Tokens::ends_blank))]
fn ends_blank(text: &[u8]) -> bool
    ensures { result ≡ ends_blank text.now }
{
    match text.last() {
        Some(last) => is_blank(*last),
        None => false,
    }
}
