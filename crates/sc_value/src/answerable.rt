//! What an answer takes from a request (RFC 3261 section 8.2.6.2).

ghost use Rattle.sc_value.specs.AnswerableValues.{BeginsWithBranch};

use crate::{Address, CSeq, CloneIn, HeaderValue, List, NoMemory, Via};
use std::alloc::Global;
use std::marker::Model;

/// What an answer takes from a request (RFC 3261 section 8.2.6.2): its Vias, From, To, Call-ID and
/// CSeq. There is a first Via, and it has a branch that isn't empty (RFC 3261 section 8.1.1.7), so
/// the answer finds its transaction.
#[derive(Drop)]
pub struct Answerable {
    pub via: List<Via>,
    pub from: Address,
    pub to: Address,
    pub call_id: HeaderValue,
    pub cseq: CSeq,
}

impl Model for Answerable {
    ghost use Rattle.sc_value.specs.AnswerableValues.{AnswerableValue, IsAnswerable};

    ghost Value = { AnswerableValue };

    ghost view = { λ a.
        record { via = a.via; from = a.from; to = a.to; call_id = a.call_id; cseq = a.cseq } };

    ghost invariant = { λ a.
        IsAnswerable
        (record { via = a.via; from = a.from; to = a.to; call_id = a.call_id; cseq = a.cseq }) };
}

impl Answerable {
    /// There is a first Via, and it has its branch.
    pub fn known(&self)
        ensures { BeginsWithBranch self.now.via }
    {
        let _ = &self.via;
    }
}

impl CloneIn for Answerable {
    fn clone_in(&self, alloc: Global) -> Result<Answerable, NoMemory> {
        Ok(Answerable {
            via: self.via.clone_in(alloc)?,
            from: self.from.clone_in(alloc)?,
            to: self.to.clone_in(alloc)?,
            call_id: self.call_id.clone_in(alloc)?,
            cseq: self.cseq.clone_in(alloc)?,
        })
    }
}
