//! Classes of bytes (RFC 3261 section 25.1).

ghost use Rattle.std.specs.Prelude.{◌≡◌, false, slice_get};
ghost use Rattle.std.specs.List.{list_all};
ghost use Rattle.std.specs.Option.{option_map_or};
ghost use Rattle.std.specs.Char.{is_ascii_alphabetic};
ghost use Rattle.sc_tokens.specs.Bytes.{is_closed, is_host_byte, is_mark, is_open, is_param_byte, is_param_sign, is_scheme_byte};
ghost use Rattle.sc_tokens.specs.Hosts.{is_host_name};
ghost use Rattle.sc_tokens.specs.UriTokens.{is_param_name, is_scheme};

#[tactic(auto, unfolding(sc_tokens::specs::Bytes::is_host_byte))]
fn is_host_byte(b: u8) -> bool
    ensures { result ≡ is_host_byte b }
{
    b.is_ascii_alphanumeric() || b == b'-' || b == b'.'
}

#[tactic(auto, unfolding(sc_tokens::specs::Bytes::is_scheme_byte))]
fn is_scheme_byte(b: u8) -> bool
    ensures { result ≡ is_scheme_byte b }
{
    is_host_byte(b) || b == b'+'
}

#[tactic(auto, unfolding(sc_tokens::specs::Bytes::is_mark))]
fn is_mark(b: u8) -> bool
    ensures { result ≡ is_mark b }
{
    b == b'-'
        || b == b'_'
        || b == b'.'
        || b == b'!'
        || b == b'~'
        || b == b'*'
        || b == b'\''
        || b == b'('
        || b == b')'
}

#[tactic(auto, unfolding(sc_tokens::specs::Bytes::is_param_sign))]
fn is_param_sign(b: u8) -> bool
    ensures { result ≡ is_param_sign b }
{
    b == b'['
        || b == b']'
        || b == b'/'
        || b == b':'
        || b == b'&'
        || b == b'+'
        || b == b'$'
        || b == b'%'
}

#[tactic(auto, unfolding(sc_tokens::specs::Bytes::is_param_byte))]
fn is_param_byte(b: u8) -> bool
    ensures { result ≡ is_param_byte b }
{
    b.is_ascii_alphanumeric() || is_mark(b) || is_param_sign(b)
}

#[tactic(auto, unfolding(sc_tokens::specs::Bytes::is_closed))]
fn is_closed(b: u8) -> bool
    ensures { result ≡ is_closed b }
{
    b == b' ' || b == b'\t' || b == b'<' || b == b'>' || b == b'\r' || b == b'\n' || b == 0
}

// Whether no byte of the text is a blank, an angle bracket, CR, LF or NUL.
#[tactic(auto, unfolding(sc_tokens::specs::Bytes::is_open))]
pub fn is_open(text: &[u8]) -> bool
    ensures { result ≡ is_open text.now }
{
    text.iter().all(|b| !is_closed(*b))
}

// One or more letters, digits, `-` and `.`.
#[tactic(auto, unfolding(sc_tokens::specs::Hosts::is_host_name))]
pub fn is_host_name(text: &[u8]) -> bool
    ensures { result ≡ is_host_name text.now }
{
    !text.is_empty() && has_host_bytes(text)
}

fn has_host_bytes(text: &[u8]) -> bool
    ensures { result ≡ list_all is_host_byte text.now }
{
    text.iter().all(|b| is_host_byte(*b))
}

// One or more bytes of a parameter.
#[tactic(auto, unfolding(sc_tokens::specs::UriTokens::is_param_name))]
pub fn is_param_name(text: &[u8]) -> bool
    ensures { result ≡ is_param_name text.now }
{
    !text.is_empty() && has_param_bytes(text)
}

pub fn has_param_bytes(text: &[u8]) -> bool
    ensures { result ≡ list_all is_param_byte text.now }
{
    text.iter().all(|b| is_param_byte(*b))
}

// A letter, then letters, digits, `+`, `-` and `.`.
#[tactic(auto, unfolding(sc_tokens::specs::UriTokens::is_scheme))]
pub fn is_scheme(text: &[u8]) -> bool
    ensures { result ≡ is_scheme text.now }
{
    begins_with_letter(text) && has_scheme_bytes(text)
}

fn begins_with_letter(text: &[u8]) -> bool
    ensures { result ≡ option_map_or is_ascii_alphabetic (slice_get text.now 0) false }
{
    match text.first() {
        Some(first) => first.is_ascii_alphabetic(),
        None => false,
    }
}

fn has_scheme_bytes(text: &[u8]) -> bool
    ensures { result ≡ list_all is_scheme_byte text.now }
{
    text.iter().all(|b| is_scheme_byte(*b))
}
