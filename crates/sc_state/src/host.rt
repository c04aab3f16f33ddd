use crate::{Host, Timed, Waiting};
use sc_parts::TimerName;
use sc_queue::Queue;
use sc_txn::{ClientPast, ServerPast};
use sc_value::{AppId, List, Message, Place, Request, Response, Shared, Text};

/// The other end of a transaction.
#[derive(Clone, Copy, Debug, PartialEq, Eq)]
pub enum Peer {
    /// Outside of the container.
    Outside(Place),
    /// The host of this number.
    Inside(u32),
    /// None: the request could not go.
    Nowhere,
}

/// Where, from whom and when a message comes.
#[derive(Clone, Copy)]
pub struct Coming {
    /// The number of the host that takes it.
    pub host: u32,
    /// The epoch of the container's run.
    pub epoch: u32,
    pub from: Peer,
    /// The moment, in milliseconds.
    pub now: u64,
    /// How many events were queued before.
    pub count: u64,
}

/// A client transaction (RFC 3261 section 17.1).
#[derive(Drop)]
pub struct Client {
    pub app: AppId,
    /// The number of its branch.
    pub branch: u64,
    pub peer: Peer,
    /// The request as it was sent.
    pub request: Shared<Request>,
    /// The moment at which it was sent, in milliseconds.
    pub sent: u64,
    /// What has passed it, the newest first.
    pub passed: ClientPast,
}

/// A server transaction (RFC 3261 section 17.2).
#[derive(Drop)]
pub struct Server {
    pub app: AppId,
    /// The number of the event under which its request was queued.
    pub event: u64,
    pub peer: Peer,
    /// The own tag of its SipSession.
    pub tag: Text,
    pub request: Shared<Request>,
    /// What has passed it, the newest first.
    pub passed: ServerPast,
    /// The response that was sent last.
    pub last: Option<Shared<Response>>,
}

/// A timer whose event was queued, with the moment at which it was due, in milliseconds.
#[derive(Clone, Copy, Debug, PartialEq, Eq)]
pub struct Fired {
    pub due: u64,
    pub timer: TimerName,
}

/// An application session that lives, in one form or another.
#[derive(Drop)]
pub struct Live<S> {
    pub serial: u64,
    pub session: Shared<S>,
    /// The events that wait, in order.
    pub inbox: Queue<Waiting>,
    /// The moment at which the first of them became first.
    pub since: u64,
    pub fired: List<Fired>,
}

/// A message that goes to the other end of a transaction.
#[derive(Drop)]
pub struct Reply {
    pub peer: Peer,
    pub message: Message,
}

/// A host that took a message, with what it answers at once.
#[derive(Drop)]
pub struct Taken<S: Timed> {
    pub host: Host<S>,
    pub reply: Option<Reply>,
    /// How many events were queued since the container began.
    pub count: u64,
}
