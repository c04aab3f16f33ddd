use crate::{Known, Order};
use sc_terms::{Event, Inside, View};
use sc_value::{Directive, List, ReqId, Request, SessId, Shared, Text};

/// A request that was made in this turn and isn't sent yet.
#[derive(Drop)]
pub struct Draft {
    /// Its place, from 1, among the drafts of its turn.
    pub number: u32,
    pub sess: SessId,
    /// Whether it begins its SipSession, which it then has made.
    pub initial: bool,
    pub method: Text,
    /// Max-Forwards.
    pub hops: u8,
    /// Whether it is a NOTIFY that ends its subscription.
    pub ends: bool,
}

/// What a turn has made of its view, with its drafts: all that a call is judged by.
#[derive(Drop)]
pub struct Play {
    pub view: View,
    pub drafts: List<Draft>,
    /// How many drafts the turn has made.
    pub drafted: u32,
    /// How many calls are listed.
    pub listed: u32,
    /// Whether the application session was ended by a call.
    pub ended: bool,
}

/// What a draft is sent as.
#[derive(Drop)]
pub enum Asked {
    /// An initial request.
    Initial(Shared<Request>),
    /// A request in the dialog of its SipSession.
    Later(Inside),
}

/// A draft's content.
#[derive(Drop)]
pub struct Written {
    /// The draft's number.
    pub number: u32,
    pub directive: Directive,
    pub origin: Option<ReqId>,
    pub asked: Asked,
}

/// An application session within a turn.
#[derive(Drop)]
pub struct Working {
    pub play: Play,
    pub known: Known,
    pub written: List<Written>,
    /// What was given to the host so far, in order.
    pub orders: List<Order>,
}

/// An application session as a turn shows it.
#[derive(Drop)]
pub struct Prepared {
    pub view: View,
    pub known: Known,
    /// What is shown, None where nobody is called.
    pub event: Option<Event>,
    /// The received request that the event is about.
    pub req: Option<ReqId>,
    /// What the container answers by itself.
    pub orders: List<Order>,
}
