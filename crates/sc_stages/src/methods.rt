//! Methods of requests (RFC 3261 section 7.1).

ghost use Rattle.std.specs.Prelude.{◌≡◌};
ghost use Rattle.sc_tokens.specs.Names.{same_bytes};
ghost use Rattle.sc_model.specs.SessionStates.{invite, ack};
ghost use Rattle.sc_model.specs.DialogRequests.{cancel};
ghost use Rattle.sc_stages.specs.Requests.{method_of};

use sc_value::Request;

/// The method of a request, as its CSeq tells it.
pub fn method_of(request: &Request) -> &[u8]
    ensures { result.now ≡ method_of request.now }
{
    request.head.cseq.method.as_bytes()
}

/// Whether a request is an INVITE.
pub fn is_invite(request: &Request) -> bool
    ensures { result ≡ same_bytes (method_of request.now) invite }
{
    sc_methods::is_invite(method_of(request))
}

/// Whether a request is a CANCEL.
pub fn is_cancel(request: &Request) -> bool
    ensures { result ≡ same_bytes (method_of request.now) cancel }
{
    sc_methods::is_cancel(method_of(request))
}

/// Whether a request is an ACK.
pub fn is_ack(request: &Request) -> bool
    ensures { result ≡ same_bytes (method_of request.now) ack }
{
    sc_methods::is_ack(method_of(request))
}

/// Whether two texts have the same bytes.
pub fn same_bytes(a: &[u8], b: &[u8]) -> bool
    ensures { result ≡ same_bytes a.now b.now }
{
    a == b
}
