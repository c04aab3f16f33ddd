//! What has passed a client transaction, and what has become of it.

ghost use Rattle.std.specs.Prelude.{◌≡◌, ◌+◌, ◌∷◌, ◌||◌, [], ℕ, Bool, reverse, take, OnOk, OnErr, IfOk};
ghost use Rattle.sc_model.specs.Transactions.{client_state, client_due, client_out, has_provisional};
ghost use Rattle.sc_txn.specs.Stands.{ClientStands};

use crate::ClientTxn;
use sc_parts::{ClientItem, ClientOut, TxnState};
use sc_queue::LongList;
use sc_stages::has_provisional;
use sc_value::{CloneIn, NoMemory};
use std::alloc::Global;
use std::marker::Model;

/// What has passed a client transaction, the newest first. Beside the list it keeps what has become
/// of the transaction, so that none of its questions goes through the list.
#[derive(Drop)]
pub struct ClientPast {
    /// What has passed it, the oldest first.
    items: LongList<ClientItem>,
    /// Whether a provisional response is among it.
    provisional: bool,
    /// The moment at which the request was sent, in milliseconds.
    sent: u64,
    txn: ClientTxn,
}

impl Model for ClientPast {
    ghost use Rattle.std.specs.Prelude.{List as Items, reverse};
    ghost use Rattle.sc_parts.specs.declared.transactions.ClientItem.{ClientItem as Item};
    ghost use Rattle.sc_txn.specs.Stands.{ClientTold};

    ghost Value = { Items Item };

    ghost view = { λ p. reverse p.items };

    ghost invariant = { λ p. ClientTold p.txn p.sent p.provisional (reverse p.items) };
}

impl ClientPast {
    /// Nothing has passed the transaction of an INVITE, or of another request, that is sent at this
    /// moment, in milliseconds. It takes no memory.
    #[tactic(auto, using(crate::proofs::Pasts::client_begun))]
    pub fn new(alloc: Global, invite: bool, sent: u64) -> ClientPast
        ensures { result ≡ [] }
    {
        ClientPast {
            items: LongList::new(alloc),
            provisional: false,
            sent,
            txn: ClientTxn::new(invite, sent),
        }
    }

    /// Whether a provisional response has passed it.
    pub fn has_provisional(&self) -> bool
        ensures { result ≡ has_provisional self.now }
    {
        self.provisional
    }

    /// An item passes it. On an error nothing is changed.
    pub fn take(&mut self, item: ClientItem) -> Result<(), NoMemory>
        ensures ok { OnOk result (self.new ≡ item ∷ self.old) }
        ensures err { OnErr result (self.new ≡ self.old) }
    {
        self.items.push(item)?;
        self.provisional = provisional_with(item, self.provisional);
        self.txn.take(item);
        Ok(())
    }

    /// The transaction of this request with what has passed it.
    fn txn_of(&self, invite: bool, sent: u64) -> ClientTxn
        ensures { ClientStands result invite sent self.now }
    {
        if self.txn.is_invite() == invite && self.sent == sent {
            return self.txn;
        }
        txn_after(invite, sent, &self.items)
    }

    /// The state of the transaction of an INVITE, or of another request, that was sent at this
    /// moment, in milliseconds.
    pub fn state(&self, invite: bool, sent: u64) -> TxnState
        ensures { result ≡ client_state invite sent self.now }
    {
        self.txn_of(invite, sent).state()
    }

    /// The moment at which its timer that runs is due, in milliseconds; None where none runs. An
    /// error where that moment is none of 64 bits.
    pub fn due(&self, invite: bool, sent: u64) -> Result<Option<u64>, NoMemory>
        ensures { IfOk result (λ due. due ≡ client_due invite sent self.now) }
    {
        self.txn_of(invite, sent).due()
    }

    /// What it does with an item that comes.
    pub fn out(&self, invite: bool, sent: u64, item: ClientItem) -> ClientOut
        ensures { result ≡ client_out invite sent self.now item }
    {
        self.txn_of(invite, sent).out(item)
    }
}

impl CloneIn for ClientPast {
    fn clone_in(&self, alloc: Global) -> Result<ClientPast, NoMemory> {
        Ok(ClientPast {
            items: self.items.clone_in(alloc)?,
            provisional: self.provisional,
            sent: self.sent,
            txn: self.txn,
        })
    }
}

// Whether a provisional response is among what passed, with this item.
fn provisional_with(item: ClientItem, before: bool) -> bool
    ensures { result ≡ (has_provisional (item ∷ []) || before) }
{
    has_provisional(&[item]) || before
}

// The item at this place passes the transaction, where there is one.
fn take_at(items: &LongList<ClientItem>, at: usize, txn: &mut ClientTxn)
    ensures { (invite : Bool) (sent : ℕ) → ClientStands txn.old invite sent (reverse (take at items.now))
        → ClientStands txn.new invite sent (reverse (take (at + 1) items.now)) }
{
    match items.get(at) {
        Some(item) => {
            txn.take(*item);
        }
        None => {}
    }
}

// The transaction that these items have passed, the oldest first.
fn txn_after(invite: bool, sent: u64, items: &LongList<ClientItem>) -> ClientTxn
    ensures { ClientStands result invite sent (reverse items.now) }
{
    let mut txn = ClientTxn::new(invite, sent);
    for at in 0..items.len() {
        take_at(items, at, &mut txn);
    }
    txn
}
