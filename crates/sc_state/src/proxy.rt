use sc_terms::ProxyOptions;
use sc_value::{List, ReqId, Request, Response, SessId, Shared, Uri};

/// A branch of a proxied request.
#[derive(Clone, Copy, Debug, PartialEq, Eq)]
pub struct Branch {
    /// Its number, which its Via shows.
    pub number: u64,
    /// The code of its final response, once there is one.
    pub ended: Option<u16>,
    /// Whether it is cancelled at the end of this turn.
    pub cancelled: bool,
    /// The moment at which its timer is due, in milliseconds, where one runs.
    pub due: Option<u64>,
}

/// A response that is forwarded as it came, with the SipSession in which it was handled.
#[derive(Drop)]
pub struct Passing {
    pub sess: SessId,
    pub response: Shared<Response>,
}

/// A request that is proxied (RFC 3261 section 16).
#[derive(Drop)]
pub struct Proxy {
    pub req: ReqId,
    pub sess: SessId,
    /// The number of its event, which names its server transaction.
    pub event: u64,
    pub request: Shared<Request>,
    /// None of a later request, which is passed on along its dialog.
    pub options: Option<ProxyOptions>,
    /// All targets that it has had.
    pub tried: List<Uri>,
    /// Those of them that are not started.
    pub targets: List<Uri>,
    /// In the order in which they were started.
    pub branches: List<Branch>,
    /// The final responses of which the best is forwarded, in the order in which they came.
    pub candidates: List<Shared<Response>>,
    /// What is forwarded at the end of this turn.
    pub passing: Option<Passing>,
    /// The code of the final response that was forwarded first.
    pub forwarded: Option<u16>,
    /// Whether no Contact of a 3xx becomes a target any more.
    pub settled: bool,
    /// Whether a final response of one of its branches came in this turn.
    pub heard_final: bool,
}
