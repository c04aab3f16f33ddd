//! Client transactions (RFC 3261 section 17.1, RFC 6026 section 7.2).

ghost use Rattle.std.specs.Prelude.{◌≡◌, [], ℕ, Bool, List, IfOk};
ghost use Rattle.sc_parts.specs.declared.transactions.ClientItem.{ClientItem};
ghost use Rattle.sc_model.specs.Transactions.{client_state, client_due};
ghost use Rattle.sc_txn.specs.Stands.{ClientStands, ClientTakes, ClientDoes};

use sc_parts::{ClientItem, ClientOut, TxnState};
use sc_stages::{ClientStage, client_begun, client_next, client_stage, due_since, output};
use sc_value::NoMemory;
use std::marker::Model;

/// A client transaction. Moments are in milliseconds.
#[derive(Clone, Copy)]
pub struct ClientTxn {
    invite: bool,
    stage: ClientStage,
}

impl Model for ClientTxn {
    ghost use Rattle.sc_txn.specs.Stands.{Client};

    ghost Value = { Client };

    ghost view = { λ t. record { invite = t.invite; stage = t.stage } };

    ghost inverse = { λ t. record { invite = t.invite; stage = t.stage } };
}

impl ClientTxn {
    /// The transaction of an INVITE, or of another request, that is sent at this moment. Timer B or
    /// F begins (RFC 3261 sections 17.1.1.2 and 17.1.2.2).
    #[tactic(auto, using(crate::proofs::Standing::client_of))]
    pub fn new(invite: bool, now: u64) -> ClientTxn
        ensures { ClientStands result invite now [] }
    {
        ClientTxn {
            invite,
            stage: client_begun(invite, now),
        }
    }

    /// The transaction of an INVITE, or of another request, sent at this moment, that these items
    /// have passed, the newest first.
    #[tactic(auto, using(crate::proofs::Standing::client_of))]
    pub fn after(invite: bool, sent: u64, passed: &[ClientItem]) -> ClientTxn
        ensures { ClientStands result invite sent passed.now }
    {
        ClientTxn {
            invite,
            stage: client_stage(invite, sent, passed),
        }
    }

    /// Whether its request is an INVITE.
    pub fn is_invite(&self) -> bool
        ensures { result ≡ self.now.invite }
    {
        self.invite
    }

    /// The state.
    pub fn state(&self) -> TxnState
        ensures { (invite : Bool) (sent : ℕ) (passed : List ClientItem)
            → ClientStands self.now invite sent passed → result ≡ client_state invite sent passed }
    {
        self.stage.state
    }

    /// The moment at which the timer that runs is due, None exactly where none runs. An error where
    /// that moment is none of 64 bits.
    pub fn due(&self) -> Result<Option<u64>, NoMemory>
        ensures { IfOk result
            (λ due.
            (invite : Bool) (sent : ℕ) (passed : List ClientItem)
            → ClientStands self.now invite sent passed → due ≡ client_due invite sent passed) }
    {
        due_since(self.stage.begun)
    }

    /// What it does with an item that comes.
    #[tactic(auto, using(crate::proofs::Standing::client_does))]
    pub fn out(&self, item: ClientItem) -> ClientOut
        ensures { ClientDoes self.now item result }
    {
        output(self.invite, self.stage, item)
    }

    /// An item passes it: what it does with it.
    pub fn take(&mut self, item: ClientItem) -> ClientOut
        ensures stands { ClientTakes self.old self.new item }
        ensures does { ClientDoes self.old item result }
    {
        let out = self.out(item);
        self.stage = client_next(self.invite, self.stage, item);
        out
    }

    /// A response of this code came at this moment. Before a final one it is told, but for 100; the
    /// first final one decides (RFC 3261 sections 17.1.1.2 and 17.1.2.2). In Accepted only a further
    /// 2xx is told, and in Terminated nothing is.
    pub fn on_response(&mut self, code: u16, now: u64) -> ClientOut
        ensures stands { ClientTakes self.old self.new (ClientItem.ResponseCame code now) }
        ensures does { ClientDoes self.old (ClientItem.ResponseCame code now) result }
    {
        self.take(ClientItem::ResponseCame { code, moment: now })
    }

    /// A CANCEL is asked for at this moment. In Proceeding of an INVITE it is sent now, in Calling
    /// with the first provisional response, and once at most (RFC 3261 section 9.1).
    pub fn on_cancel(&mut self, now: u64) -> ClientOut
        ensures stands { ClientTakes self.old self.new (ClientItem.CancelAsked now) }
        ensures does { ClientDoes self.old (ClientItem.CancelAsked now) result }
    {
        self.take(ClientItem::CancelAsked { moment: now })
    }

    /// The clock reached this moment. Where the timer that runs is due the transaction ends, and
    /// 408 is told unless it was Accepted (RFC 3261 section 8.1.3.1).
    pub fn on_timer(&mut self, now: u64) -> ClientOut
        ensures stands { ClientTakes self.old self.new (ClientItem.MomentCame now) }
        ensures does { ClientDoes self.old (ClientItem.MomentCame now) result }
    {
        self.take(ClientItem::MomentCame { moment: now })
    }

    /// The place that its request went to was lost. Before a final response this ends it, and 503
    /// is told (RFC 3261 section 8.1.3.1).
    pub fn on_lost(&mut self) -> ClientOut
        ensures stands { ClientTakes self.old self.new ClientItem.PlaceLost }
        ensures does { ClientDoes self.old ClientItem.PlaceLost result }
    {
        self.take(ClientItem::PlaceLost)
    }
}
