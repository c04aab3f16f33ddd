use crate::Proxy;
use sc_dialog::Dialog;
use sc_pages::Pages;
use sc_terms::View;
use sc_value::{List, Region, ReqId, Request, SessId, Shared, Text};

/// The greatest sequence number that a peer of this tag sent in a SipSession. That there is no tag
/// is a value of its own.
#[derive(Drop)]
pub struct Got {
    pub tag: Option<Text>,
    pub number: u32,
}

/// What a SipSession is beside what is shown of it: what it knows of its dialog.
#[derive(Drop)]
pub struct Leg {
    /// The SipSession of which it is.
    pub id: SessId,
    /// The request that began it, once it has its number; of a derived one that of its original.
    pub first: Option<ReqId>,
    /// The tag of the caller, where the application proxies: the peer's is that of the callee.
    pub caller: Option<Text>,
    /// Its dialog, once there is one.
    pub dialog: Option<Dialog>,
    /// The greatest numbers of the requests that came in it.
    pub got: List<Got>,
    /// Whether the application ended it by a call.
    pub invalidated: bool,
    /// Whether the first 2xx in another SipSession of its INVITE ended it.
    pub overtaken: bool,
}

/// By which transaction a request came or went.
#[derive(Clone, Copy, Debug, PartialEq, Eq)]
pub enum Way {
    /// It came: the number of its event, which names its server transaction.
    Received { event: u64 },
    /// It was sent: the number of its branch.
    Sent { branch: u64 },
}

/// A request with which something can still be done.
#[derive(Drop)]
pub struct Kept {
    pub id: ReqId,
    pub sess: SessId,
    pub way: Way,
    pub request: Shared<Request>,
}

/// An INVITE that came: it may be cancelled.
#[derive(Clone, Copy, Debug, PartialEq, Eq)]
pub struct Invited {
    /// The number of its event.
    pub event: u64,
    pub req: ReqId,
    pub sess: SessId,
}

/// What an application session is beside what is shown of it.
#[derive(Drop)]
pub struct Known {
    /// The region and the place in the router's list with which it began.
    pub region: Region,
    pub order: u32,
    /// One for each SipSession, by its number.
    pub legs: List<Leg>,
    /// In order of number.
    pub kept: Pages<Kept>,
    pub invited: Pages<Invited>,
    /// In order of the requests' numbers.
    pub proxies: Pages<Proxy>,
}

/// What an application session is between its turns.
#[derive(Drop)]
pub struct Session {
    /// What its turns show, with the moment of its last one.
    pub view: View,
    pub known: Known,
}
