use crate::Session;
use sc_value::{Directive, List, Region, Request, Response, Shared};

/// What a session gives its host to send.
#[derive(Drop)]
pub enum Order {
    /// A response, by the server transaction of this event.
    Respond {
        event: u64,
        response: Shared<Response>,
    },
    /// An initial request, which goes where the router says.
    Begin {
        branch: u64,
        directive: Directive,
        /// The region and the place in the router's list at which the router goes on.
        region: Region,
        state: Option<u32>,
        request: Shared<Request>,
    },
    /// A request with a To tag.
    Send {
        branch: u64,
        request: Shared<Request>,
    },
    /// An ACK to a 2xx.
    Acknowledge {
        request: Shared<Request>,
    },
    /// A CANCEL of the INVITE on this branch, as soon as a provisional response has come.
    Cancel {
        branch: u64,
    },
    /// A CANCEL of the INVITE on this branch, where a provisional response has come.
    CancelNow {
        branch: u64,
    },
}

/// What a turn makes of its application session.
#[derive(Drop)]
pub struct Outcome {
    /// What the session is afterwards.
    pub session: Session,
    /// What it sends, in order.
    pub orders: List<Order>,
    /// Whether it is invalidated.
    pub ends: bool,
}
