//! The requests that are made in a dialog (RFC 3261 section 12.2.1.1).

ghost use Rattle.std.specs.Prelude.{◌≡◌, ◌<◌, ◌^◌, [], IfOk, map};
ghost use Rattle.std.specs.List.{list_all};
ghost use Rattle.sc_model.specs.DialogRequests.{later_request, later_head, next_request, ack_request, is_asked_method, is_asked_field, is_askable};
ghost use Rattle.sc_model.specs.Responses.{kept_field};

use crate::Dialog;
use sc_terms::Inside;
use sc_value::{
    Address, CSeq, CloneIn, Discard, Field, Head, HeaderValue, List, NoMemory, Others, Request,
    Shared, SharedList, Text, Token, is_other, is_system_name, is_token, is_value, long_name,
};
use std::alloc::Global;

/// Whether an application may ask for this in a dialog: its method is a token other than ACK and
/// CANCEL, and each field's name is a token and no header that the container sets itself, and each
/// value a header value.
#[tactic(auto, unfolding(sc_model::specs::DialogRequests::is_askable))]
pub fn is_askable(ask: &Inside) -> bool
    ensures { result ≡ is_askable ask.now }
{
    is_asked_method(ask.method.as_bytes()) && are_asked_fields(ask.fields.as_slice())
}

#[tactic(auto, unfolding(sc_model::specs::DialogRequests::is_asked_method, sc_model::specs::DialogRequests::cancel, sc_model::specs::SessionStates::ack))]
fn is_asked_method(method: &[u8]) -> bool
    ensures { result ≡ is_asked_method method.now }
{
    is_token(method) && method != b"ACK".as_slice() && method != b"CANCEL".as_slice()
}

fn are_asked_fields(fields: &[Field]) -> bool
    ensures { result ≡ list_all is_asked_field fields.now }
{
    fields.iter().all(|field| is_asked_field(field))
}

#[tactic(auto, unfolding(sc_model::specs::DialogRequests::is_asked_field, sc_model::specs::DialogRequests::is_bad_field))]
fn is_asked_field(field: &Field) -> bool
    ensures { result ≡ is_asked_field field.now }
{
    !is_system_name(field.name.as_bytes())
        && is_token(field.name.as_bytes())
        && is_value(field.value.as_bytes())
}

/// The next request of the dialog (RFC 3261 section 12.2.1.1).
#[tactic(auto, unfolding(sc_model::specs::DialogRequests::next_request))]
pub fn next_request(alloc: Global, dialog: &Dialog, ask: &Inside) -> Result<Request, NoMemory>
    requires { dialog.now.sent < 2147483647 }
    ensures { IfOk result (λ r. r ≡ next_request dialog.now ask.now) }
{
    let method = asked_method(alloc, ask.method.as_bytes())?;
    let fields = kept_fields(alloc, ask.fields.as_slice())?;
    let number = dialog.last_sent() + 1;
    later_request(alloc, dialog, number, method, fields, &ask.body)
}

/// The method that was asked for.
// It was found a token where the call was judged; it is tested again, since no type says so.
pub fn asked_method(alloc: Global, method: &[u8]) -> Result<Token, NoMemory>
    ensures { IfOk result (λ m. m ≡ method.now) }
{
    if !is_token(method) {
        return Err(NoMemory);
    }
    Token::from_slice(alloc, method)
}

/// The ACK to a 2xx, with this sequence number (RFC 3261 section 13.2.2.4).
#[tactic(auto, unfolding(sc_model::specs::DialogRequests::ack_request, sc_model::specs::SessionStates::ack, sc_tokens::specs::Tokens::is_token, sc_tokens::specs::Tokens::is_token_byte))]
pub fn ack_request(
    alloc: Global,
    dialog: &Dialog,
    number: u32,
    body: &Text,
) -> Result<Request, NoMemory>
    requires { number < 2 ^ 31 }
    ensures { IfOk result (λ r. r ≡ ack_request dialog.now number body.now) }
{
    let method = Token::from_slice(alloc, b"ACK")?;
    later_request(alloc, dialog, number, method, Others::new(alloc), body)
}

/// A request in the dialog: it goes to the target by the route set.
#[tactic(auto, unfolding(sc_model::specs::DialogRequests::later_request))]
fn later_request(
    alloc: Global,
    dialog: &Dialog,
    number: u32,
    method: Token,
    fields: Others,
    body: &Text,
) -> Result<Request, NoMemory>
    requires { number < 2 ^ 31 }
    ensures { IfOk result (λ r. r ≡ later_request dialog.now number method fields body.now) }
{
    let uri = dialog.target().clone_in(alloc)?;
    match later_head(alloc, dialog, number, &method, fields, body) {
        Ok(head) => Ok(Request {
            method,
            uri,
            hops: 70,
            head,
        }),
        Err(cause) => {
            uri.discard();
            Err(cause)
        }
    }
}

/// What names the dialog in a request of it.
#[derive(Drop)]
struct Names {
    from: Shared<Address>,
    to: Shared<Address>,
    call_id: HeaderValue,
}

#[tactic(auto, unfolding(sc_model::specs::DialogRequests::later_head))]
fn later_head(
    alloc: Global,
    dialog: &Dialog,
    number: u32,
    method: &Token,
    fields: Others,
    body: &Text,
) -> Result<Head, NoMemory>
    requires { number < 2 ^ 31 }
    ensures { IfOk result (λ h. h ≡ later_head dialog.now number method.now fields body.now) }
{
    let cseq = cseq(alloc, number, method)?;
    let body = body.clone_in(alloc)?;
    let route = dialog.route_set().clone_in(alloc)?;
    let names = names_of(alloc, dialog)?;
    Ok(head_of(alloc, route, names, cseq, fields, body))
}

fn names_of(alloc: Global, dialog: &Dialog) -> Result<Names, NoMemory>
    ensures { IfOk result
        (λ n.
        n
        ≡ record {
          from = dialog.now.local;
          to = dialog.now.remote;
          call_id = dialog.now.call_id;
        }) }
{
    let call_id = dialog.call_id().clone_in(alloc)?;
    let from = dialog.local().clone_in(alloc)?;
    let to = dialog.remote().clone_in(alloc)?;
    Ok(Names { from, to, call_id })
}

/// The head of these parts, without Via and Contact.
fn head_of(
    alloc: Global,
    route: List<Address>,
    names: Names,
    cseq: CSeq,
    others: Others,
    body: Text,
) -> Head
    ensures { result
        ≡ record {
          via = [];
          route = route;
          record_route = [];
          from = names.from;
          to = names.to;
          call_id = names.call_id;
          cseq = cseq;
          contact = [];
          others = others;
          body = body;
        } }
{
    Head {
        via: SharedList::new(alloc),
        route,
        record_route: SharedList::new(alloc),
        from: names.from,
        to: names.to,
        call_id: names.call_id,
        cseq,
        contact: SharedList::new(alloc),
        others,
        body,
    }
}

/// A sequence number with its method.
pub fn cseq(alloc: Global, number: u32, method: &Token) -> Result<CSeq, NoMemory>
    requires { number < 2 ^ 31 }
    ensures { IfOk result (λ c. c ≡ record { number = number; method = method.now }) }
{
    let method = method.clone_in(alloc)?;
    method.known();
    Ok(CSeq { number, method })
}

/// The fields, each compact name as its long one.
// They were found good where the call was judged; they are tested again, since no type says so.
pub fn kept_fields(alloc: Global, fields: &[Field]) -> Result<Others, NoMemory>
    ensures { IfOk result (λ l. l ≡ map kept_field fields.now) }
{
    let mut kept = Others::new(alloc);
    for field in fields {
        let field = kept_field(alloc, field)?;
        if !is_other(&field) {
            return Err(NoMemory);
        }
        kept.push(field)?;
    }
    Ok(kept)
}

#[tactic(auto, unfolding(sc_model::specs::Responses::kept_field))]
fn kept_field(alloc: Global, field: &Field) -> Result<Field, NoMemory>
    ensures { IfOk result (λ f. f ≡ kept_field field.now) }
{
    let name = Text::from_slice(alloc, long_name(field.name.as_bytes()))?;
    let value = field.value.clone_in(alloc)?;
    Ok(Field { name, value })
}
