use sc_value::{
    Address, CSeq, Contact, HeaderValue, List, Others, Reason, Shared, Token, Uri, Via,
};

/// The start line of a message (RFC 3261 sections 7.1 and 7.2).
#[derive(Drop)]
pub enum Start {
    /// A request line.
    Request { method: Token, uri: Uri },
    /// A status line: the code is 100 to 699.
    Status { code: u16, reason: Reason },
}

/// The headers that are lists and those without structure, each in order (RFC 3261 section 20).
#[derive(Drop)]
pub struct Lists {
    pub via: List<Via>,
    pub route: List<Address>,
    pub record_route: List<Address>,
    pub contact: List<Contact>,
    pub others: Others,
}

/// The headers that stand once at most: what has come of them (RFC 3261 section 20).
#[derive(Drop)]
pub struct Singles {
    pub from: Option<Shared<Address>>,
    pub to: Option<Shared<Address>>,
    pub call_id: Option<HeaderValue>,
    pub cseq: Option<CSeq>,
    /// Max-Forwards.
    pub hops: Option<u8>,
    /// Content-Length, in bytes.
    pub length: Option<u64>,
}

/// What the header lines of a message have left, line by line.
#[derive(Drop)]
pub struct Left {
    /// How many values may still come: an item of a list is one, and so is every other header.
    pub room: usize,
    pub lists: Lists,
    pub singles: Singles,
}

/// A head that is read: its start line, and what its header lines have left.
#[derive(Drop)]
pub struct HeadParts {
    pub start: Start,
    pub left: Left,
}

/// The headers that a reader tells apart (RFC 3261 section 20).
#[derive(Clone, Copy)]
pub enum Header {
    Via,
    Route,
    RecordRoute,
    Contact,
    From,
    To,
    CallId,
    CSeq,
    MaxForwards,
    ContentLength,
    /// A header without structure.
    Other,
}
