//! The calls that a turn makes, and their answers.

use crate::{Inside, Period, State};
use sc_value::{Address, Contact, Directive, Field, List, ReqId, SessId, Text, TimerId, Uri};

/// A response that a servlet gives to a request.
#[derive(Drop)]
pub struct Answer {
    pub code: u16,
    pub reason: Text,
    pub fields: List<Field>,
    pub contact: List<Contact>,
    pub body: Text,
}

/// An initial request that an application makes of its own (JSR 289 section 10.1). Tags in `from`
/// and `to` are dropped.
#[derive(Drop)]
pub struct Ask {
    pub method: Text,
    pub uri: Uri,
    pub from: Address,
    pub to: Address,
    pub fields: List<Field>,
    pub contact: List<Contact>,
    pub body: Text,
    /// How the router goes on from the origin's place (JSR 289 section 15.2.2).
    pub directive: Directive,
    /// The received initial request from which the router goes on.
    pub origin: Option<ReqId>,
}

/// How a request is proxied (JSR 289 section 10.2).
#[derive(Clone, Copy, Debug, PartialEq, Eq)]
pub struct ProxyOptions {
    /// Whether all targets are tried at once, and not one after another.
    pub parallel: bool,
    /// Whether the contacts of a 3xx are tried too.
    pub recurse: bool,
    /// Whether the application is told of responses.
    pub supervised: bool,
    /// Whether the application stays on the path of later requests.
    pub record_route: bool,
    /// After so many seconds without a final response a branch is ended, 1 to 3,600.
    pub timeout: u16,
}

/// What a flag is set of.
#[derive(Clone, Copy, Debug, PartialEq, Eq)]
pub enum Target {
    Application,
    Session(SessId),
}

/// A call that a servlet or a listener made in its turn. A draft, a request that was made and not
/// sent yet, stands by its number, its place from 1 among the drafts of its turn.
#[derive(Drop)]
pub enum Call {
    /// Answers a received request.
    Respond {
        req: ReqId,
        answer: Answer,
    },
    /// Makes an initial request of one's own.
    CreateRequest {
        ask: Ask,
    },
    /// Makes a request in a dialog.
    CreateInDialog {
        sess: SessId,
        ask: Inside,
    },
    /// Makes the request of a back-to-back agent's second leg, to this URI where one is given.
    B2bCreate {
        req: ReqId,
        uri: Option<Uri>,
    },
    /// Says how the router goes on for a draft.
    SetDirective {
        draft: u32,
        directive: Directive,
        origin: Option<ReqId>,
    },
    /// Sends a draft.
    Send {
        draft: u32,
    },
    /// Drops a draft.
    Discard {
        draft: u32,
    },
    /// Acknowledges the 2xx that came in this SipSession.
    Ack {
        sess: SessId,
        body: Text,
    },
    /// Cancels a sent INVITE.
    Cancel {
        req: ReqId,
    },
    /// Proxies a received request to these targets.
    ProxyTo {
        req: ReqId,
        targets: List<Uri>,
        options: ProxyOptions,
    },
    /// Cancels the branches of a proxied request.
    ProxyCancel {
        req: ReqId,
    },
    /// Answers the received initial request of this SipSession.
    B2bRespond {
        sess: SessId,
        answer: Answer,
    },
    /// Links two SipSessions.
    Link {
        a: SessId,
        b: SessId,
    },
    /// Takes the link of this SipSession away.
    Unlink {
        a: SessId,
    },
    /// Starts a timer that fires after so many milliseconds.
    StartTimer {
        delay_ms: u32,
        period: Period,
        info: Text,
    },
    /// Ends a timer.
    CancelTimer {
        id: TimerId,
    },
    /// Sets an attribute of the application session.
    SetAttribute {
        name: Text,
        value: Text,
    },
    /// Removes an attribute.
    RemoveAttribute {
        name: Text,
    },
    /// Lets the application session expire so many minutes after this turn, 0 or less for never.
    SetExpires {
        minutes: i32,
    },
    /// Sets whether the target goes away by itself once it is ready.
    SetReadyFlag {
        target: Target,
        flag: bool,
    },
    /// Ends a SipSession.
    InvalidateSession {
        sess: SessId,
    },
    /// Ends the application session.
    InvalidateApplication,
}

/// Why a call was refused. A refused call changes nothing.
#[derive(Clone, Copy, Debug, PartialEq, Eq)]
pub enum Refusal {
    /// The number names nothing of this application session that the call can act on.
    NotYours,
    /// The request has its final response.
    AlreadyAnswered,
    /// The request isn't initial, or the directive needs a received initial origin.
    NotInitial,
    /// The SipSession's state doesn't allow it.
    WrongState(State),
    /// The request is proxied.
    AlreadyProxy,
    /// The SipSession is linked to this one.
    AlreadyLinked(SessId),
    /// The SipSession isn't linked.
    NotLinked,
    /// The SipSession of the request is gone, or the application session was ended in this turn.
    Invalidated,
    /// A limit, given with its number, is reached.
    Limit(u32),
    /// A header that the container sets itself.
    SystemHeader,
    /// A text out of form: 0 the code or the method, 1 the reason, 2 and more the field of that
    /// place. Of other calls: 0 no target, 1 a number out of its range.
    BadText(u32),
    /// Max-Forwards is 0.
    NoHops,
    /// Nothing was sent that the call can act on.
    NotSent,
    /// Want of memory. The turn then ends as `Starved`.
    NoMemory,
}

/// What a call answered.
#[derive(Clone, Copy, Debug, PartialEq, Eq)]
pub enum CallAnswer {
    Fine,
    /// The number of the draft, the request or the timer that was made.
    Number(u64),
    Refused(Refusal),
}

/// A call with its answer.
#[derive(Drop)]
pub struct CallRecord {
    pub call: Call,
    pub answer: CallAnswer,
}

/// How a servlet or a listener ended its turn.
#[derive(Clone, Copy, Debug, PartialEq, Eq)]
pub enum End {
    Fine,
    /// It failed: where it left the event's request without an answer, the container answers 500.
    Fault,
    /// It wanted memory: the turn doesn't count and can be made again.
    Starved,
}
