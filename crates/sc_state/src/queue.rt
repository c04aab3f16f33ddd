use sc_value::{Address, Region, Request, Response, Shared, Text, TimerId};

/// An event that waits in an application session.
#[derive(Drop)]
pub enum Queued {
    /// The request that begins the session, with what the router chose.
    Initial {
        region: Region,
        subscriber: Text,
        /// The container's own top Route that the request came with.
        popped: Option<Address>,
        request: Shared<Request>,
    },
    /// A request with a To tag.
    Request {
        request: Shared<Request>,
    },
    /// A response on this branch, without its own Via.
    Response {
        branch: u64,
        response: Shared<Response>,
    },
    /// The INVITE of this event number was cancelled.
    Cancelled {
        event: u64,
    },
    /// The servlet timer was due.
    Timer {
        id: TimerId,
    },
    /// The timer of this branch was due at this moment.
    BranchTimer {
        branch: u64,
        due: u64,
    },
    /// The application session's expiry was due.
    Expired,
    /// The application session is ready to go away.
    Ready,
}

/// An event with its number.
#[derive(Drop)]
pub struct Waiting {
    /// Events are numbered from 1 in the order in which they are queued.
    pub number: u64,
    pub event: Queued,
}
