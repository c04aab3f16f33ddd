//! The names of the headers (RFC 3261 section 20).

ghost use Rattle.std.specs.Prelude.{◌≡◌, IfSome};
ghost use Rattle.sc_tokens.specs.HeaderNames.{call_id_name, contact_name, content_length_name, cseq_name, from_name, max_forwards_name, record_route_name, route_name, to_name, via_name};
ghost use Rattle.sc_message_text.specs.UsualNames.{IsUsual};

use sc_syntax::Header;

/// `Via` (RFC 3261 section 20.42).
#[tactic(auto, unfolding(sc_tokens::specs::HeaderNames::via_name))]
pub fn via_name() -> &'static [u8]
    ensures { result.now ≡ via_name }
{
    b"Via"
}

/// `Route` (RFC 3261 section 20.34).
#[tactic(auto, unfolding(sc_tokens::specs::HeaderNames::route_name))]
pub fn route_name() -> &'static [u8]
    ensures { result.now ≡ route_name }
{
    b"Route"
}

/// `Record-Route` (RFC 3261 section 20.30).
#[tactic(auto, unfolding(sc_tokens::specs::HeaderNames::record_route_name))]
pub fn record_route_name() -> &'static [u8]
    ensures { result.now ≡ record_route_name }
{
    b"Record-Route"
}

/// `Max-Forwards` (RFC 3261 section 20.22).
#[tactic(auto, unfolding(sc_tokens::specs::HeaderNames::max_forwards_name))]
pub fn max_forwards_name() -> &'static [u8]
    ensures { result.now ≡ max_forwards_name }
{
    b"Max-Forwards"
}

/// `From` (RFC 3261 section 20.20).
#[tactic(auto, unfolding(sc_tokens::specs::HeaderNames::from_name))]
pub fn from_name() -> &'static [u8]
    ensures { result.now ≡ from_name }
{
    b"From"
}

/// `To` (RFC 3261 section 20.39).
#[tactic(auto, unfolding(sc_tokens::specs::HeaderNames::to_name))]
pub fn to_name() -> &'static [u8]
    ensures { result.now ≡ to_name }
{
    b"To"
}

/// `Call-ID` (RFC 3261 section 20.8).
#[tactic(auto, unfolding(sc_tokens::specs::HeaderNames::call_id_name))]
pub fn call_id_name() -> &'static [u8]
    ensures { result.now ≡ call_id_name }
{
    b"Call-ID"
}

/// `CSeq` (RFC 3261 section 20.16).
#[tactic(auto, unfolding(sc_tokens::specs::HeaderNames::cseq_name))]
pub fn cseq_name() -> &'static [u8]
    ensures { result.now ≡ cseq_name }
{
    b"CSeq"
}

/// `Contact` (RFC 3261 section 20.10).
#[tactic(auto, unfolding(sc_tokens::specs::HeaderNames::contact_name))]
pub fn contact_name() -> &'static [u8]
    ensures { result.now ≡ contact_name }
{
    b"Contact"
}

/// `Content-Length` (RFC 3261 section 20.14).
#[tactic(auto, unfolding(sc_tokens::specs::HeaderNames::content_length_name))]
pub fn content_length_name() -> &'static [u8]
    ensures { result.now ≡ content_length_name }
{
    b"Content-Length"
}

// The header that has this name, letter for letter, as most senders write it: such a name needs no
// other test. None says nothing of the name.
#[tactic(auto, unfolding(sc_tokens::specs::HeaderNames::via_name, sc_tokens::specs::HeaderNames::route_name, sc_tokens::specs::HeaderNames::record_route_name, sc_tokens::specs::HeaderNames::contact_name, sc_tokens::specs::HeaderNames::from_name, sc_tokens::specs::HeaderNames::to_name, sc_tokens::specs::HeaderNames::call_id_name, sc_tokens::specs::HeaderNames::cseq_name, sc_tokens::specs::HeaderNames::max_forwards_name, sc_tokens::specs::HeaderNames::content_length_name))]
pub fn usual_header(name: &[u8]) -> Option<Header>
    ensures { IfSome result (λ header. IsUsual header name.now) }
{
    match name {
        b"Via" => Some(Header::Via),
        b"Route" => Some(Header::Route),
        b"Record-Route" => Some(Header::RecordRoute),
        b"Contact" => Some(Header::Contact),
        b"From" => Some(Header::From),
        b"To" => Some(Header::To),
        b"Call-ID" => Some(Header::CallId),
        b"CSeq" => Some(Header::CSeq),
        b"Max-Forwards" => Some(Header::MaxForwards),
        b"Content-Length" => Some(Header::ContentLength),
        _ => None,
    }
}
