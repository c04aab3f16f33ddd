/// A servlet's stated interface: the calls and the end that it answers to each view and event.
#[derive(Clone, Copy, Debug, PartialEq, Eq)]
pub enum Charter {
    /// It answers each request 200.
    Answer,
    /// It answers callers that its parameters name 403, and proxies all others.
    Block,
    /// It proxies each initial request, to its parameter's URI where there is one.
    Forward,
    /// It proxies each initial request to all its parameters' URIs at once.
    Fork,
    /// It proxies as `Forward` and stays on the path of later requests.
    Recorder,
    /// It is a back-to-back user agent.
    B2b,
    /// It answers, and sends a request of its own.
    Dial,
    /// A back-to-back user agent whose second leg goes to the other region.
    Reverse,
    /// It rings, and answers after a while.
    Ringer,
    /// It gives a reliable provisional response, and answers when its PRACK comes (RFC 3262).
    Early,
    /// It grants session timers, and refreshes or ends its sessions by them (RFC 4028).
    Timed,
    /// It takes subscriptions and notifies their states (RFC 6665).
    Notify,
    /// It makes any calls.
    Free,
}

/// A listener's stated interface.
#[derive(Clone, Copy, Debug, PartialEq, Eq)]
pub enum ListenerCharter {
    /// At the first expiry it extends the application session once.
    ExtendOnce,
    /// It makes any calls.
    Free,
}
