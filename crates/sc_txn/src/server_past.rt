//! What has passed a server transaction, and what has become of it.

ghost use Rattle.std.specs.Prelude.{◌≡◌, ◌+◌, ◌∷◌, ◌||◌, [], Bool, reverse, take, is_some, OnOk, OnErr, IfOk};
ghost use Rattle.sc_model.specs.ServerTransactions.{final_answer, server_state, server_due, is_sent, is_sent_again};
ghost use Rattle.sc_txn.specs.Stands.{ServerStands};

use crate::ServerTxn;
use sc_parts::{ServerItem, TxnState};
use sc_queue::LongList;
use sc_stages::has_final_answer;
use sc_value::{CloneIn, NoMemory};
use std::alloc::Global;
use std::marker::Model;

/// What has passed a server transaction, the newest first. Beside the list it keeps what has become
/// of the transaction, so that none of its questions goes through the list.
#[derive(Drop)]
pub struct ServerPast {
    /// What has passed it, the oldest first.
    items: LongList<ServerItem>,
    /// Whether a final answer is among it.
    decided: bool,
    txn: ServerTxn,
}

impl Model for ServerPast {
    ghost use Rattle.std.specs.Prelude.{List as Items, reverse};
    ghost use Rattle.sc_parts.specs.declared.transactions.ServerItem.{ServerItem as Item};
    ghost use Rattle.sc_txn.specs.Stands.{ServerTold};

    ghost Value = { Items Item };

    ghost view = { λ p. reverse p.items };

    ghost invariant = { λ p. ServerTold p.txn p.decided (reverse p.items) };
}

impl ServerPast {
    /// Nothing has passed the transaction of an INVITE, or of another request. It takes no memory.
    #[tactic(auto, using(crate::proofs::Pasts::server_begun))]
    pub fn new(alloc: Global, invite: bool) -> ServerPast
        ensures { result ≡ [] }
    {
        ServerPast {
            items: LongList::new(alloc),
            decided: false,
            txn: ServerTxn::new(invite),
        }
    }

    /// Whether a final answer was given.
    pub fn has_final(&self) -> bool
        ensures { result ≡ is_some (final_answer self.now) }
    {
        self.decided
    }

    /// An item passes it. On an error nothing is changed.
    pub fn take(&mut self, item: ServerItem) -> Result<(), NoMemory>
        ensures ok { OnOk result (self.new ≡ item ∷ self.old) }
        ensures err { OnErr result (self.new ≡ self.old) }
    {
        self.items.push(item)?;
        self.decided = decided_with(item, self.decided);
        self.txn.take(item);
        Ok(())
    }

    /// The transaction of this request with what has passed it.
    fn txn_of(&self, invite: bool) -> ServerTxn
        ensures { ServerStands result invite self.now }
    {
        if self.txn.is_invite() == invite {
            return self.txn;
        }
        txn_after(invite, &self.items)
    }

    /// The state of the transaction of an INVITE, or of another request.
    pub fn state(&self, invite: bool) -> TxnState
        ensures { result ≡ server_state invite self.now }
    {
        self.txn_of(invite).state()
    }

    /// The moment at which its timer that runs is due, in milliseconds; None where none runs. An
    /// error where that moment is none of 64 bits.
    pub fn due(&self, invite: bool) -> Result<Option<u64>, NoMemory>
        ensures { IfOk result (λ due. due ≡ server_due invite self.now) }
    {
        self.txn_of(invite).due()
    }

    /// Whether the last answer is sent again where the request comes again.
    pub fn repeats(&self, invite: bool) -> bool
        ensures { result ≡ is_sent_again invite self.now }
    {
        self.txn_of(invite).repeats()
    }

    /// Whether an answer of this code is sent.
    pub fn sends(&self, invite: bool, code: u16) -> bool
        ensures { result ≡ is_sent invite self.now code }
    {
        self.txn_of(invite).sends(code)
    }
}

impl CloneIn for ServerPast {
    fn clone_in(&self, alloc: Global) -> Result<ServerPast, NoMemory> {
        Ok(ServerPast {
            items: self.items.clone_in(alloc)?,
            decided: self.decided,
            txn: self.txn,
        })
    }
}

// Whether a final answer is among what passed, with this item.
fn decided_with(item: ServerItem, before: bool) -> bool
    ensures { result ≡ (is_some (final_answer (item ∷ [])) || before) }
{
    has_final_answer(&[item]) || before
}

// The item at this place passes the transaction, where there is one.
fn take_at(items: &LongList<ServerItem>, at: usize, txn: &mut ServerTxn)
    ensures { (invite : Bool) → ServerStands txn.old invite (reverse (take at items.now))
        → ServerStands txn.new invite (reverse (take (at + 1) items.now)) }
{
    match items.get(at) {
        Some(item) => {
            txn.take(*item);
        }
        None => {}
    }
}

// The transaction that these items have passed, the oldest first.
fn txn_after(invite: bool, items: &LongList<ServerItem>) -> ServerTxn
    ensures { ServerStands result invite (reverse items.now) }
{
    let mut txn = ServerTxn::new(invite);
    for at in 0..items.len() {
        take_at(items, at, &mut txn);
    }
    txn
}
