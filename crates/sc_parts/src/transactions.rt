//! The words of transactions (RFC 3261 section 17, RFC 6026). Moments are in milliseconds.

/// The state of a transaction. `Completed` is met on the server side alone: a client transaction
/// passes it in no time, as its timers D and K are 0 over a reliable transport.
#[derive(Clone, Copy, Debug, PartialEq, Eq)]
pub enum TxnState {
    /// An INVITE was sent and no response has come.
    Calling,
    /// Another request was sent and no response has come; or it came and has no response yet.
    Trying,
    /// A provisional response came or was sent; or an INVITE came.
    Proceeding,
    /// A final response other than 2xx to an INVITE was sent and isn't acknowledged.
    Completed,
    /// A 2xx to an INVITE came or was sent, and further ones may pass (RFC 6026).
    Accepted,
    /// The transaction is over.
    Terminated,
}

/// What a client transaction does where something passes it.
#[derive(Clone, Copy, Debug, PartialEq, Eq)]
pub struct ClientOut {
    /// The code that its user is told: that of the response, 408 of a timer, 503 of a lost place.
    pub tell: Option<u16>,
    /// Whether it sends the ACK of a final response other than 2xx.
    pub ack: bool,
    /// Whether it sends the CANCEL that was asked for.
    pub cancel: bool,
}

/// What passes a client transaction.
#[derive(Clone, Copy, Debug, PartialEq, Eq)]
pub enum ClientItem {
    /// A response of this code came.
    ResponseCame { code: u16, moment: u64 },
    /// The user asked for a CANCEL.
    CancelAsked { moment: u64 },
    /// The clock reached this moment.
    MomentCame { moment: u64 },
    /// The place that its request went to was lost.
    PlaceLost,
}

/// What passes a server transaction.
#[derive(Clone, Copy, Debug, PartialEq, Eq)]
pub enum ServerItem {
    /// The request came again.
    RequestAgain,
    /// An ACK came.
    AckCame,
    /// The user gave an answer of this code.
    AnswerGiven { code: u16, moment: u64 },
    /// The clock reached this moment.
    MomentCame { moment: u64 },
}
