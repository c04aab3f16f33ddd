//! Messages (RFC 3261 section 7).

use crate::{
    Address, CSeq, Contact, HeaderValue, List, Others, Place, Reason, Shared, SharedList, Text,
    Token, Uri, Via,
};

/// The headers and the body of a message. Max-Forwards stands in the request, and Content-Length
/// is the length of the body. What most copies keep may have several owners.
#[derive(Drop)]
pub struct Head {
    pub via: SharedList<Via>,
    pub route: List<Address>,
    pub record_route: SharedList<Address>,
    pub from: Shared<Address>,
    pub to: Shared<Address>,
    pub call_id: HeaderValue,
    pub cseq: CSeq,
    pub contact: SharedList<Contact>,
    /// The headers without structure, in order.
    pub others: Others,
    pub body: Text,
}

/// A request (RFC 3261 section 7.1).
#[derive(Drop)]
pub struct Request {
    pub method: Token,
    pub uri: Uri,
    /// Max-Forwards; 70 where the request had none.
    pub hops: u8,
    pub head: Head,
}

/// A response (RFC 3261 section 7.2).
#[derive(Drop)]
pub struct Response {
    /// The status code, 100 to 699.
    pub code: u16,
    pub reason: Reason,
    pub head: Head,
}

/// A request or a response. A copy is one owner more.
#[derive(Drop)]
pub enum Message {
    Request(Shared<Request>),
    Response(Shared<Response>),
}

/// A message with the place that it goes to.
#[derive(Drop)]
pub struct Sent {
    pub place: Place,
    pub message: Message,
}
