ghost use Rattle.sc_servlets.specs.Brought.{IsBrought};

use crate::Lease;
use sc_terms::{CallRecord, Charter, End, ListenerCharter};
use sc_value::{Discard, List};

/// A turn that was made. Its type keeps that it is allowed: each call has the answer that is right,
/// and a turn that didn't end as `Starved` meets the charter of whom was called; where nobody was
/// called there are no calls.
#[derive(Drop)]
pub struct Done {
    pub lease: Lease,
    /// The servlet's charter, where it was called.
    pub charter: Option<Charter>,
    /// The listener's charter, where it was called.
    pub listener: Option<ListenerCharter>,
    /// The calls in order, each with its answer.
    pub calls: List<CallRecord>,
    pub end: End,
    pub ghost allowed: { ∥ IsBrought lease.shown lease.event charter listener calls end ∥₁ },
}

impl Discard for Done {
    fn discard(self) {
        drop(self);
    }
}
