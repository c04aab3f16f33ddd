//! Names of headers (RFC 3261 section 7.3).

ghost use Rattle.std.specs.Prelude.{◌≡◌, ◌||◌};
ghost use Rattle.std.specs.Option.{option_copied};
ghost use Rattle.sc_tokens.specs.HeaderNames.{long_of, long_name, is_system_name, is_dialog_name, is_routing_name};
ghost use Rattle.sc_tokens.specs.Names.{same_name};

/// Whether two names are the same without case (RFC 3261 section 7.3.1).
#[tactic(auto, unfolding(sc_tokens::specs::Names::same_name))]
pub fn same_name(a: &[u8], b: &[u8]) -> bool
    ensures { result ≡ same_name a.now b.now }
{
    a.eq_ignore_ascii_case(b)
}

/// The name of a header, a compact one as its long one (RFC 3261 section 7.3.3).
#[tactic(auto, unfolding(sc_tokens::specs::HeaderNames::long_name))]
pub fn long_name(name: &[u8]) -> &[u8]
    ensures { result.now ≡ long_name name.now }
{
    match name {
        [letter] => match long_of(letter.to_ascii_lowercase()) {
            Some(long) => long,
            None => name,
        },
        _ => name,
    }
}

#[tactic(auto, unfolding(sc_tokens::specs::HeaderNames::long_of, sc_tokens::specs::HeaderNames::call_id_name, sc_tokens::specs::HeaderNames::contact_name, sc_tokens::specs::HeaderNames::content_encoding_name, sc_tokens::specs::HeaderNames::content_length_name, sc_tokens::specs::HeaderNames::content_type_name, sc_tokens::specs::HeaderNames::from_name, sc_tokens::specs::HeaderNames::subject_name, sc_tokens::specs::HeaderNames::supported_name, sc_tokens::specs::HeaderNames::to_name, sc_tokens::specs::HeaderNames::via_name))]
fn long_of(letter: u8) -> Option<&'static [u8]>
    ensures { option_copied result ≡ long_of letter }
{
    match letter {
        b'i' => Some(b"Call-ID"),
        b'm' => Some(b"Contact"),
        b'e' => Some(b"Content-Encoding"),
        b'l' => Some(b"Content-Length"),
        b'c' => Some(b"Content-Type"),
        b'f' => Some(b"From"),
        b's' => Some(b"Subject"),
        b'k' => Some(b"Supported"),
        b't' => Some(b"To"),
        b'v' => Some(b"Via"),
        _ => None,
    }
}

/// Whether a name, long or compact, is that of a header which the container sets itself.
#[tactic(auto, unfolding(sc_tokens::specs::HeaderNames::is_system_name))]
pub fn is_system_name(name: &[u8]) -> bool
    ensures { result ≡ is_system_name name.now }
{
    let long = long_name(name);
    is_dialog_name(long) || is_routing_name(long)
}

#[tactic(auto, unfolding(sc_tokens::specs::HeaderNames::is_dialog_name, sc_tokens::specs::HeaderNames::call_id_name, sc_tokens::specs::HeaderNames::cseq_name, sc_tokens::specs::HeaderNames::from_name, sc_tokens::specs::HeaderNames::to_name, sc_tokens::specs::HeaderNames::contact_name))]
fn is_dialog_name(name: &[u8]) -> bool
    ensures { result ≡ is_dialog_name name.now }
{
    same_name(name, b"From")
        || same_name(name, b"To")
        || same_name(name, b"Call-ID")
        || same_name(name, b"CSeq")
        || same_name(name, b"Contact")
}

#[tactic(auto, unfolding(sc_tokens::specs::HeaderNames::is_routing_name, sc_tokens::specs::HeaderNames::via_name, sc_tokens::specs::HeaderNames::route_name, sc_tokens::specs::HeaderNames::record_route_name, sc_tokens::specs::HeaderNames::max_forwards_name, sc_tokens::specs::HeaderNames::content_length_name))]
fn is_routing_name(name: &[u8]) -> bool
    ensures { result ≡ is_routing_name name.now }
{
    same_name(name, b"Via")
        || same_name(name, b"Route")
        || same_name(name, b"Record-Route")
        || same_name(name, b"Max-Forwards")
        || same_name(name, b"Content-Length")
}
