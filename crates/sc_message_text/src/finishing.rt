//! What the header lines have left, put together with start line and body (RFC 3261 section 7).

ghost use Rattle.std.specs.Prelude.{◌≡◌, Some, None, Ok, IfOk, not, if◌then◌else◌};
ghost use Rattle.std.specs.Option.{option_copied, option_map};
ghost use Rattle.sc_syntax.specs.Messages.{finished_with, fits, head_of, is_method_of, lacking, message_from_parts, message_with, peers_of};

use sc_syntax::{HeadParts, Left, Lists, Singles, Start};
use sc_value::{
    Address, CSeq, Head, HeaderValue, Message, NoMemory, Request, Response, Shared, SharedList,
    Text,
};
use std::alloc::Global;

// From and To, Call-ID and CSeq.
type Peers = ((Shared<Address>, Shared<Address>), (HeaderValue, CSeq));

/// The kind of the fault that a head has whatever its body is: 7, where From, To, Call-ID, CSeq or
/// Via is missing, or 10, where CSeq has another method than the request (RFC 3261 section 8.1.1).
#[tactic(auto, unfolding(sc_syntax::specs::Messages::lacking))]
pub fn lacking(parts: &HeadParts) -> Option<u8>
    ensures { result ≡ lacking parts.now }
{
    if parts.left.lists.via.is_empty() {
        return Some(7);
    }
    match cseq_beside(&parts.left.singles) {
        Some(cseq) => method_fault(&parts.start, cseq.method.as_bytes()),
        None => Some(7),
    }
}

// The CSeq, where From, To and Call-ID are there too.
#[tactic(auto, unfolding(sc_syntax::specs::Messages::peers_of))]
fn cseq_beside(singles: &Singles) -> Option<&CSeq>
    ensures { option_copied result ≡ option_map (λ peers. peers.1.1) (peers_of singles.now) }
{
    if singles.from.is_none() || singles.to.is_none() || singles.call_id.is_none() {
        return None;
    }
    singles.cseq.as_ref()
}

fn method_fault(start: &Start, named: &[u8]) -> Option<u8>
    ensures { result ≡ (if is_method_of start.now named.now then None else Some 10) }
{
    if is_method_of(start, named) {
        None
    } else {
        Some(10)
    }
}

/// The message of a head that is read and of its body, or the kind of the fault that shows at the
/// empty line: 7 or 10, as [`lacking`] tells, or 12, a body of another length than Content-Length
/// (RFC 3261 section 7). `NoMemory` says nothing of it.
pub fn put_together(
    alloc: Global,
    parts: HeadParts,
    body: Text,
) -> Result<Result<Message, u8>, NoMemory>
    ensures { IfOk result (λ read. read ≡ message_from_parts parts.start parts.left body) }
{
    finish(alloc, parts.start, parts.left, body)
}

#[tactic(auto, unfolding(sc_syntax::specs::Messages::message_from_parts))]
fn finish(
    alloc: Global,
    start: Start,
    left: Left,
    body: Text,
) -> Result<Result<Message, u8>, NoMemory>
    ensures { IfOk result (λ read. read ≡ message_from_parts start left body) }
{
    if left.lists.via.is_empty() {
        drop(left);
        drop(start);
        return Ok(Err(7));
    }
    let (hops, length) = (left.singles.hops, left.singles.length);
    let lists = left.lists;
    match peers_of(left.singles) {
        Some(peers) => finish_with(alloc, start, lists, peers, hops, length, body),
        None => {
            drop(lists);
            drop(start);
            Ok(Err(7))
        }
    }
}

#[tactic(auto, unfolding(sc_syntax::specs::Messages::peers_of))]
fn peers_of(singles: Singles) -> Option<Peers>
    ensures { result ≡ peers_of singles }
{
    let peers = singles.from.zip(singles.to);
    peers.zip(singles.call_id.zip(singles.cseq))
}

// The same, where Via, From, To, Call-ID and CSeq are there.
#[tactic(auto, unfolding(sc_syntax::specs::Messages::finished_with))]
fn finish_with(
    alloc: Global,
    start: Start,
    lists: Lists,
    peers: Peers,
    hops: Option<u8>,
    length: Option<u64>,
    body: Text,
) -> Result<Result<Message, u8>, NoMemory>
    ensures { IfOk result (λ read. read ≡ finished_with start lists hops length body peers) }
{
    match end_fault(&start, &peers.1.1, length, body.as_bytes()) {
        Some(kind) => {
            drop(peers);
            drop(lists);
            drop(start);
            Ok(Err(kind))
        }
        None => made(alloc, start, hops, lists, peers, body),
    }
}

// Whether the method is the request's, where there is one.
#[tactic(auto, unfolding(sc_syntax::specs::Messages::is_method_of))]
fn is_method_of(start: &Start, named: &[u8]) -> bool
    ensures { result ≡ is_method_of start.now named.now }
{
    match start {
        Start::Request { method, uri: _ } => method.as_bytes() == named,
        Start::Status { code: _, reason: _ } => true,
    }
}

// Whether Content-Length is that of the body; a missing one is 0.
#[tactic(auto, unfolding(sc_syntax::specs::Messages::fits))]
fn fits(length: Option<u64>, body: &[u8]) -> bool
    ensures { result ≡ fits length body.now }
{
    match length {
        Some(length) => body.len() as u64 == length,
        None => body.is_empty(),
    }
}

// The kind of the fault of a CSeq or of a Content-Length, where there is one.
fn end_fault(start: &Start, cseq: &CSeq, length: Option<u64>, body: &[u8]) -> Option<u8>
    ensures { result
        ≡ (if not (is_method_of start.now cseq.now.method) then Some 10
        else if not (fits length body.now) then Some 12 else None) }
{
    if !is_method_of(start, cseq.method.as_bytes()) {
        return Some(10);
    }
    if !fits(length, body) {
        return Some(12);
    }
    None
}

#[tactic(auto, unfolding(sc_syntax::specs::Messages::head_of))]
fn head_of(alloc: Global, lists: Lists, peers: Peers, body: Text) -> Result<Head, NoMemory>
    ensures { IfOk result (λ head. head ≡ head_of lists peers body) }
{
    let ((from, to), (call_id, cseq)) = peers;
    let via = SharedList::from_list(alloc, lists.via)?;
    let record_route = SharedList::from_list(alloc, lists.record_route)?;
    let contact = SharedList::from_list(alloc, lists.contact)?;
    Ok(Head {
        via,
        route: lists.route,
        record_route,
        from,
        to,
        call_id,
        cseq,
        contact,
        others: lists.others,
        body,
    })
}

#[tactic(auto, unfolding(sc_syntax::specs::Messages::message_with))]
fn message_with(
    alloc: Global,
    start: Start,
    hops: Option<u8>,
    head: Head,
) -> Result<Message, NoMemory>
    ensures { IfOk result (λ message. message ≡ message_with start hops head) }
{
    match start {
        Start::Request { method, uri } => {
            let request = Request {
                method,
                uri,
                hops: hops.unwrap_or(70),
                head,
            };
            Ok(Message::Request(Shared::new(alloc, request)?))
        }
        Start::Status { code, reason } => {
            let response = Response { code, reason, head };
            Ok(Message::Response(Shared::new(alloc, response)?))
        }
    }
}

// The message of what the head's lines and the body have left.
fn made(
    alloc: Global,
    start: Start,
    hops: Option<u8>,
    lists: Lists,
    peers: Peers,
    body: Text,
) -> Result<Result<Message, u8>, NoMemory>
    ensures { IfOk result
        (λ read. read ≡ Ok (message_with start hops (head_of lists peers body))) }
{
    let head = head_of(alloc, lists, peers, body)?;
    let message = message_with(alloc, start, hops, head)?;
    Ok(Ok(message))
}
