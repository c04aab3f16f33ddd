//! Server transactions (RFC 3261 section 17.2, RFC 6026 section 7.1).

ghost use Rattle.std.specs.Prelude.{◌≡◌, [], Bool, List, IfOk};
ghost use Rattle.sc_parts.specs.declared.transactions.ServerItem.{ServerItem};
ghost use Rattle.sc_model.specs.ServerTransactions.{server_state, server_due, is_sent, is_sent_again, is_absorbed};
ghost use Rattle.sc_txn.specs.Stands.{ServerStands, ServerTakes};

use sc_parts::{ServerItem, TxnState};
use sc_stages::{
    ServerStage, absorbs_in, due_since, repeats_in, sends_in, server_begun, server_next,
    server_stage,
};
use sc_value::NoMemory;
use std::marker::Model;

/// A server transaction. Moments are in milliseconds.
#[derive(Clone, Copy)]
pub struct ServerTxn {
    invite: bool,
    stage: ServerStage,
}

impl Model for ServerTxn {
    ghost use Rattle.sc_txn.specs.Stands.{Server};

    ghost Value = { Server };

    ghost view = { λ t. record { invite = t.invite; stage = t.stage } };

    ghost inverse = { λ t. record { invite = t.invite; stage = t.stage } };
}

impl ServerTxn {
    /// The transaction of an INVITE or of another request that came.
    #[tactic(auto, using(crate::proofs::Standing::server_of))]
    pub fn new(invite: bool) -> ServerTxn
        ensures { ServerStands result invite [] }
    {
        ServerTxn {
            invite,
            stage: server_begun(invite),
        }
    }

    /// The transaction of an INVITE, or of another request, that these items have passed, the newest
    /// first.
    #[tactic(auto, using(crate::proofs::Standing::server_of))]
    pub fn after(invite: bool, passed: &[ServerItem]) -> ServerTxn
        ensures { ServerStands result invite passed.now }
    {
        ServerTxn {
            invite,
            stage: server_stage(invite, passed),
        }
    }

    /// Whether its request is an INVITE.
    pub fn is_invite(&self) -> bool
        ensures { result ≡ self.now.invite }
    {
        self.invite
    }

    /// The state.
    pub fn state(&self) -> TxnState
        ensures { (invite : Bool) (passed : List ServerItem)
            → ServerStands self.now invite passed → result ≡ server_state invite passed }
    {
        self.stage.state
    }

    /// The moment at which the timer that runs is due, None exactly where none runs. An error where
    /// that moment is none of 64 bits.
    pub fn due(&self) -> Result<Option<u64>, NoMemory>
        ensures { IfOk result
            (λ due.
            (invite : Bool) (passed : List ServerItem)
            → ServerStands self.now invite passed → due ≡ server_due invite passed) }
    {
        due_since(self.stage.begun)
    }

    /// Whether the last answer is sent again where the request comes again. It is where there is
    /// one, in Proceeding and Completed (RFC 3261 sections 17.2.1 and 17.2.2).
    pub fn repeats(&self) -> bool
        ensures { (invite : Bool) (passed : List ServerItem)
            → ServerStands self.now invite passed → result ≡ is_sent_again invite passed }
    {
        self.stage.answered && repeats_in(self.stage.state)
    }

    /// Whether an answer of this code is sent. Each is until a final one was given; after it a
    /// further 2xx to INVITE is, but not in Completed.
    #[tactic(auto, using(crate::proofs::Standing::server_sends))]
    pub fn sends(&self, code: u16) -> bool
        ensures { (invite : Bool) (passed : List ServerItem)
            → ServerStands self.now invite passed → result ≡ is_sent invite passed code }
    {
        sends_in(self.invite, self.stage.state, code)
    }

    /// Whether an ACK is absorbed as that of a final answer other than 2xx (RFC 3261 section
    /// 17.2.1).
    #[tactic(auto, using(crate::proofs::Standing::server_absorbs))]
    pub fn absorbs(&self) -> bool
        ensures { (invite : Bool) (passed : List ServerItem)
            → ServerStands self.now invite passed → result ≡ is_absorbed invite passed }
    {
        absorbs_in(self.stage.state)
    }

    /// An item passes it.
    pub fn take(&mut self, item: ServerItem)
        ensures { ServerTakes self.old self.new item }
    {
        self.stage = server_next(self.invite, self.stage, item);
    }

    /// The request came again: whether the last answer is sent again.
    pub fn on_request(&mut self) -> bool
        ensures stands { ServerTakes self.old self.new ServerItem.RequestAgain }
        ensures again { (invite : Bool) (passed : List ServerItem)
            → ServerStands self.old invite passed → result ≡ is_sent_again invite passed }
    {
        let again = self.repeats();
        self.take(ServerItem::RequestAgain);
        again
    }

    /// An ACK came: whether it is absorbed, which ends the transaction.
    pub fn on_ack(&mut self) -> bool
        ensures stands { ServerTakes self.old self.new ServerItem.AckCame }
        ensures absorbed { (invite : Bool) (passed : List ServerItem)
            → ServerStands self.old invite passed → result ≡ is_absorbed invite passed }
    {
        let absorbed = self.absorbs();
        self.take(ServerItem::AckCame);
        absorbed
    }

    /// An answer of this code was given at this moment: whether it is sent. The first final one
    /// decides.
    pub fn on_answer(&mut self, code: u16, now: u64) -> bool
        ensures stands { ServerTakes self.old self.new (ServerItem.AnswerGiven code now) }
        ensures sent { (invite : Bool) (passed : List ServerItem)
            → ServerStands self.old invite passed → result ≡ is_sent invite passed code }
    {
        let sent = self.sends(code);
        self.take(ServerItem::AnswerGiven { code, moment: now });
        sent
    }

    /// The clock reached this moment. Where timer H or L is due the transaction ends.
    pub fn on_timer(&mut self, now: u64)
        ensures { ServerTakes self.old self.new (ServerItem.MomentCame now) }
    {
        self.take(ServerItem::MomentCame { moment: now });
    }
}
