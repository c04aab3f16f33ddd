//! How many bytes the written text of a message has (RFC 3261 section 7), counted without writing
//! it. A number that passes 64 bits stands at the greatest.

ghost use Rattle.std.specs.Prelude.{◌≡◌, List, ℕ, decimal, length, min};
ghost use Rattle.std.specs.List.{flat_map};
ghost use Rattle.std.specs.Option.{option_copied};
ghost use Rattle.sc_grammar.specs.Written.{address_text, closing_lines, contact_line, contact_text, cseq_text, dialog_lines, field_line, head_text, hops_line, param_text, params_text, port_text, record_route_line, request_line, route_line, routing_lines, sip_uri_text, status_line, text_of_message, uri_text, via_line, via_text};
ghost use Rattle.sc_switch.specs.Lengths.{marked_length};

use crate::sizes::length_of;
use sc_value::{
    Address, CSeq, Contact, Field, Head, Message, Param, Request, Response, SipUri, Text, Uri, Via,
    shared_value,
};

/// How many bytes the written text of a message has.
#[tactic(auto, unfolding(sc_grammar::specs::Written::text_of_message), using(crate::proofs::WrittenLengths::two))]
pub fn message_len(message: &Message) -> u64
    ensures { result ≡ min (length (text_of_message message.now)) u64.MAX }
{
    match message {
        Message::Request(request) => {
            let request = request.get();
            request_line_len(request).saturating_add(head_len(Some(request.hops), &request.head))
        }
        Message::Response(response) => {
            let response = response.get();
            status_line_len(response).saturating_add(head_len(None, &response.head))
        }
    }
}

/// The length of `Method Request-URI SIP/2.0` and of the line's end (RFC 3261 section 7.1): the
/// blanks, the version and the end are 11 bytes.
#[tactic(auto, using(crate::proofs::WrittenLengths::request_line_length))]
fn request_line_len(request: &Request) -> u64
    ensures { result ≡ min (length (request_line request.now)) u64.MAX }
{
    let method = request.method.len() as u64;
    method
        .saturating_add(uri_len(&request.uri))
        .saturating_add(11)
}

/// The length of `SIP/2.0 code reason` and of the line's end (RFC 3261 section 7.2): the version,
/// the blanks and the end are 11 bytes.
#[tactic(auto, using(crate::proofs::WrittenLengths::status_line_length))]
fn status_line_len(response: &Response) -> u64
    ensures { result ≡ min (length (status_line response.now)) u64.MAX }
{
    let reason = response.reason.len() as u64;
    digits(u64::from(response.code))
        .saturating_add(reason)
        .saturating_add(11)
}

/// The length of all that follows the start line: the headers, the empty line of 2 bytes, and the
/// body.
#[tactic(auto, using(crate::proofs::WrittenLengths::head_length))]
fn head_len(hops: Option<u8>, head: &Head) -> u64
    ensures { result ≡ min (length (head_text hops head.now)) u64.MAX }
{
    routing_len(head)
        .saturating_add(hops_len(hops))
        .saturating_add(dialog_len(head))
        .saturating_add(closing_len(head))
        .saturating_add(2)
        .saturating_add(length_of(&head.body))
}

/// The length of the lines of Via, Route and Record-Route (RFC 3261 sections 20.42, 20.34 and
/// 20.30).
#[tactic(auto, using(crate::proofs::WrittenLengths::routing_length))]
fn routing_len(head: &Head) -> u64
    ensures { result ≡ min (length (routing_lines head.now)) u64.MAX }
{
    lengths::<Via, ViaLine>(head.via.as_slice())
        .saturating_add(lengths::<Address, RouteLine>(head.route.as_slice()))
        .saturating_add(lengths::<Address, RecordRouteLine>(head.record_route.as_slice()))
}

/// The length of the line of Max-Forwards, which stands in requests alone (RFC 3261 section 20.22):
/// all but the number are 16 bytes.
#[tactic(auto, unfolding(sc_grammar::specs::Written::hops_line), using(crate::proofs::WrittenLengths::max_forwards_length))]
fn hops_len(hops: Option<u8>) -> u64
    ensures { result ≡ min (length (hops_line hops)) u64.MAX }
{
    match hops {
        Some(hops) => digits(u64::from(hops)).saturating_add(16),
        None => 0,
    }
}

/// The length of the lines of From, To, Call-ID and CSeq (RFC 3261 sections 20.20, 20.39, 20.8 and
/// 20.16): all but their values are 8, 6, 11 and 8 bytes.
#[tactic(auto, using(crate::proofs::WrittenLengths::dialog_length))]
fn dialog_len(head: &Head) -> u64
    ensures { result ≡ min (length (dialog_lines head.now)) u64.MAX }
{
    address_len(&head.from)
        .saturating_add(address_len(&head.to))
        .saturating_add(head.call_id.len() as u64)
        .saturating_add(cseq_len(&head.cseq))
        .saturating_add(33)
}

/// The length of the lines of Contact, of the headers without structure, and of Content-Length (RFC
/// 3261 sections 20.10 and 20.14), where all but the number are 18 bytes.
#[tactic(auto, using(crate::proofs::WrittenLengths::closing_length))]
fn closing_len(head: &Head) -> u64
    ensures { result ≡ min (length (closing_lines head.now)) u64.MAX }
{
    lengths::<Contact, ContactLine>(head.contact.as_slice())
        .saturating_add(lengths::<Field, FieldLine>(head.others.as_slice()))
        .saturating_add(digits(head.body.len() as u64))
        .saturating_add(18)
}

/// A way to write an item.
trait Form<T> {
    ghost form: { T → List ℕ };

    /// The length of what is written.
    fn len(item: &T) -> u64
        ensures { result ≡ min (length (form item.now)) u64.MAX };
}

/// The length of all items, written one after the other.
fn lengths<T, F: Form<T>>(items: &[T]) -> u64
    ensures { result ≡ min (length (flat_map F.form items.now)) u64.MAX }
{
    let mut sum: u64 = 0;
    for item in items {
        sum = sum.saturating_add(F::len(item));
    }
    sum
}

/// `Via: value` and the line's end: all but the value are 7 bytes.
struct ViaLine;

impl Form<Via> for ViaLine {
    ghost form = { via_line };

    #[tactic(auto, using(crate::proofs::WrittenLengths::via_line_length))]
    fn len(item: &Via) -> u64 {
        via_len(item).saturating_add(7)
    }
}

/// `Route: value` and the line's end: all but the value are 9 bytes.
struct RouteLine;

impl Form<Address> for RouteLine {
    ghost form = { route_line };

    #[tactic(auto, using(crate::proofs::WrittenLengths::route_line_length))]
    fn len(item: &Address) -> u64 {
        address_len(item).saturating_add(9)
    }
}

/// `Record-Route: value` and the line's end: all but the value are 16 bytes.
struct RecordRouteLine;

impl Form<Address> for RecordRouteLine {
    ghost form = { record_route_line };

    #[tactic(auto, using(crate::proofs::WrittenLengths::record_route_line_length))]
    fn len(item: &Address) -> u64 {
        address_len(item).saturating_add(16)
    }
}

/// `Contact: value` and the line's end: all but the value are 11 bytes.
struct ContactLine;

impl Form<Contact> for ContactLine {
    ghost form = { contact_line };

    #[tactic(auto, using(crate::proofs::WrittenLengths::contact_line_length))]
    fn len(item: &Contact) -> u64 {
        contact_len(item).saturating_add(11)
    }
}

/// `name: value` and the line's end.
struct FieldLine;

impl Form<Field> for FieldLine {
    ghost form = { field_line };

    #[tactic(auto, using(crate::proofs::WrittenLengths::field_line_length))]
    fn len(item: &Field) -> u64 {
        length_of(&item.name)
            .saturating_add(length_of(&item.value))
            .saturating_add(4)
    }
}

/// `;name` or `;name=value`.
struct ParamText;

impl Form<Param> for ParamText {
    ghost form = { param_text };

    #[tactic(auto, using(crate::proofs::WrittenLengths::param_length))]
    fn len(item: &Param) -> u64 {
        length_of(&item.name)
            .saturating_add(marked_len(item.value.as_ref()))
            .saturating_add(1)
    }
}

/// The length of `SIP/2.0/TCP host:port;params` (RFC 3261 section 20.42): the version, the slash
/// and the blank are 9 bytes.
#[tactic(auto, using(crate::proofs::WrittenLengths::via_length))]
fn via_len(via: &Via) -> u64
    ensures { result ≡ min (length (via_text via.now)) u64.MAX }
{
    length_of(&via.transport)
        .saturating_add(length_of(&via.host))
        .saturating_add(port_len(via.port))
        .saturating_add(params_len(via.params.as_slice()))
        .saturating_add(9)
}

/// The length of `number method` (RFC 3261 section 20.16).
#[tactic(auto, using(crate::proofs::WrittenLengths::cseq_length))]
fn cseq_len(cseq: &CSeq) -> u64
    ensures { result ≡ min (length (cseq_text cseq.now)) u64.MAX }
{
    let method = cseq.method.len() as u64;
    digits(u64::from(cseq.number))
        .saturating_add(method)
        .saturating_add(1)
}

/// The length of `*`, or of an address (RFC 3261 section 20.10).
#[tactic(auto, unfolding(sc_grammar::specs::Written::contact_text))]
fn contact_len(contact: &Contact) -> u64
    ensures { result ≡ min (length (contact_text contact.now)) u64.MAX }
{
    match contact {
        Contact::Star => 1,
        Contact::At(address) => address_len(address),
    }
}

/// The length of `display <uri>;params`, the display only where there is one (RFC 3261 section
/// 20.10): the brackets are 2 bytes.
#[tactic(auto, using(crate::proofs::WrittenLengths::address_length))]
fn address_len(address: &Address) -> u64
    ensures { result ≡ min (length (address_text address.now)) u64.MAX }
{
    marked_len(shared_value(&address.display))
        .saturating_add(uri_len(&address.uri))
        .saturating_add(params_len(address.params.as_slice()))
        .saturating_add(2)
}

/// The length of a URI; one of another scheme stands as it came (RFC 3261 section 19.1.1).
#[tactic(auto, unfolding(sc_grammar::specs::Written::uri_text))]
fn uri_len(uri: &Uri) -> u64
    ensures { result ≡ min (length (uri_text uri.now)) u64.MAX }
{
    match uri {
        Uri::Sip(uri) => sip_uri_len(uri),
        Uri::Other(text) => length_of(text.as_text()),
    }
}

/// The length of `sip:user@host:port;params?headers` (RFC 3261 section 19.1.1): the scheme is 4
/// bytes.
#[tactic(auto, using(crate::proofs::WrittenLengths::sip_uri_length))]
fn sip_uri_len(uri: &SipUri) -> u64
    ensures { result ≡ min (length (sip_uri_text uri.now)) u64.MAX }
{
    marked_len(uri.user.as_ref())
        .saturating_add(length_of(&uri.host))
        .saturating_add(port_len(uri.port))
        .saturating_add(params_len(uri.params.as_slice()))
        .saturating_add(marked_len(shared_value(&uri.headers)))
        .saturating_add(4)
}

/// The length of all parameters, each behind its semicolon.
#[tactic(auto, unfolding(sc_grammar::specs::Written::params_text))]
fn params_len(params: &[Param]) -> u64
    ensures { result ≡ min (length (params_text params.now)) u64.MAX }
{
    lengths::<Param, ParamText>(params)
}

/// The length of a text with the sign that stands before or behind it; none has no bytes.
#[tactic(auto, unfolding(crate::specs::Lengths::marked_length))]
fn marked_len(text: Option<&Text>) -> u64
    ensures { result ≡ min (marked_length (option_copied text.entry)) u64.MAX }
{
    match text {
        Some(text) => length_of(text).saturating_add(1),
        None => 0,
    }
}

/// The length of `:port`; none has no bytes.
#[tactic(auto, unfolding(sc_grammar::specs::Written::port_text))]
fn port_len(port: Option<u16>) -> u64
    ensures { result ≡ min (length (port_text port)) u64.MAX }
{
    match port {
        Some(port) => digits(u64::from(port)).saturating_add(1),
        None => 0,
    }
}

/// How many digits the decimal of a number has.
#[tactic(auto, using(crate::proofs::WrittenLengths::digits_more, crate::proofs::WrittenLengths::digits_one, crate::proofs::WrittenLengths::digits_few))]
fn digits(number: u64) -> u64
    ensures { result ≡ length (decimal number) }
{
    let mut count = 1;
    let mut rest = number;
    while rest >= 10 {
        rest /= 10;
        count += 1;
    }
    count
}
