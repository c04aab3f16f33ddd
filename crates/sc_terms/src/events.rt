use sc_value::{Address, Region, ReqId, Request, Response, SessId, Shared, Text, TimerId};

/// What a turn handles. Its message has several owners, and is seen as the message.
#[derive(Drop)]
pub enum Event {
    /// The request that began the application session, with what the router chose.
    Initial {
        req: ReqId,
        sess: SessId,
        region: Region,
        subscriber: Text,
        /// The container's own top Route that the request came with.
        popped: Option<Address>,
        request: Shared<Request>,
    },
    /// A later request.
    Request {
        req: ReqId,
        sess: SessId,
        request: Shared<Request>,
    },
    /// A response to a request that the application sent or proxied.
    Response {
        req: ReqId,
        sess: SessId,
        response: Shared<Response>,
    },
    /// A final response of one branch of a proxied request, while others are still open.
    Branch {
        req: ReqId,
        sess: SessId,
        response: Shared<Response>,
    },
    /// The peer cancelled the request.
    Cancelled {
        req: ReqId,
        sess: SessId,
    },
    /// A servlet timer fired.
    Timer {
        id: TimerId,
        info: Text,
    },
    /// The application session expires (JSR 289 section 6.1.2).
    Expired,
    /// The application session is ready to go away (JSR 289 section 6.1.2.2).
    Ready,
}
