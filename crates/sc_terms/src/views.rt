//! What a turn shows of an application session (JSR 289 sections 6 and 7).

use sc_pages::Pages;
use sc_value::{AppId, Field, HeaderValue, List, ReqId, SessId, Text, TimerId, Token};

/// The state of a SipSession (JSR 289 section 6.2.1).
#[derive(Clone, Copy, Debug, PartialEq, Eq)]
pub enum State {
    Initial,
    Early,
    Confirmed,
    Terminated,
}

/// The part that the application plays in a SipSession.
#[derive(Clone, Copy, Debug, PartialEq, Eq)]
pub enum Role {
    /// It sent the request that began the session.
    Uac,
    /// It answers the request that began the session.
    Uas,
    /// It proxies the request that began the session.
    Proxy,
}

/// A SipSession as it is shown.
#[derive(Drop)]
pub struct SessionView {
    pub id: SessId,
    pub state: State,
    pub role: Role,
    pub call_id: HeaderValue,
    /// The tag that the container drew for its side of the dialog.
    pub own_tag: Text,
    /// The peer's tag, where it gave one.
    pub peer_tag: Option<Text>,
    /// The other leg of a back-to-back user agent.
    pub linked: Option<SessId>,
    /// Whether the session goes away by itself once it is ready (JSR 289 section 6.2.4).
    pub ready_flag: bool,
    /// Whether the session was invalidated or removed.
    pub gone: bool,
}

/// A request as it is shown.
#[derive(Drop)]
pub struct RequestView {
    pub id: ReqId,
    pub sess: SessId,
    pub method: Text,
    /// Whether it was received and not sent.
    pub received: bool,
    /// Whether it began its SipSession.
    pub initial: bool,
    /// Max-Forwards.
    pub hops: u8,
    /// The code of its final response, once there is one.
    pub answered: Option<u16>,
    pub proxied: bool,
    /// How many targets a proxied request has had, started or not.
    pub branches: u8,
    /// Of an INVITE that was sent, the SipSessions whose 2xx no ACK followed, in order of number.
    pub unacked: List<SessId>,
    /// Whether it is a NOTIFY that ends its subscription (RFC 6665 section 4.1.3).
    pub ends: bool,
}

/// When a servlet timer fires again. Times are in milliseconds.
#[derive(Clone, Copy, Debug, PartialEq, Eq)]
pub enum Period {
    Once,
    /// This long after the moment at which it was last due.
    Rate(u32),
    /// This long after the turn of its event.
    Delay(u32),
}

/// A servlet timer that is active.
#[derive(Drop)]
pub struct TimerView {
    pub id: TimerId,
    /// The moment at which it is due, in milliseconds.
    pub due: u64,
    pub period: Period,
    pub info: Text,
}

/// What a turn shows of its application session. Moments are in milliseconds and at most 2^63.
#[derive(Drop)]
pub struct View {
    pub app: AppId,
    /// The epoch of the container's run, from 0.
    pub epoch: u32,
    /// The salt of all names that the container draws.
    pub salt: Token,
    /// The host that the container listens at.
    pub ip: [u8; 4],
    /// The application's parameters in the configuration.
    pub params: List<Text>,
    /// The moment of the turn.
    pub now: u64,
    /// The moment at which the application session expires, None for never.
    pub expires: Option<u64>,
    /// Whether the application session goes away by itself once it is ready (JSR 289 section
    /// 6.1.2.2).
    pub ready_flag: bool,
    /// The last number that was drawn for a name.
    pub counter: u64,
    /// The number that the next request gets.
    pub next_request: u32,
    /// The number that the next timer gets.
    pub next_timer: u32,
    /// The attributes in the order in which their names were first set.
    pub attributes: List<Field>,
    /// All SipSessions in order of number, those that are gone too.
    pub sessions: List<SessionView>,
    /// The requests that calls can name, in order of number.
    pub requests: Pages<RequestView>,
    /// The active timers in order of number.
    pub timers: List<TimerView>,
}
