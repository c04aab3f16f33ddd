//! Client transactions in their order.

ghost use Rattle.std.proofs.Common.{rules};
ghost use Rattle.std.specs.Prelude.{◌≡◌};
ghost use Rattle.std.specs.Cmp.{partial_order_from_own_ties};
ghost use Rattle.std.specs.Cmp.Rules.{comparing};
ghost use Rattle.std.specs.Ordering.{as_partial_cmp, eq_by_cmp};
ghost use Rattle.sc_hosts.specs.Ticks.{client_order};

use sc_state::Client;
use sc_transact::is_cancel_client;
use sc_value::Shared;
use std::cmp::Ordering;
use std::marker::Model;

/// A client transaction that is ordered by host, serial and branch, and a request before its
/// CANCEL.
#[derive(Drop)]
pub struct OrderedClient {
    client: Shared<Client>,
}

impl Model for OrderedClient {
    ghost use Rattle.sc_state.specs.declared.host.Client.{Client as Seen};

    ghost Value = { Seen };

    ghost view = { λ o. o.client };
}

impl OrderedClient {
    /// The transaction, at its place in the order.
    pub fn new(client: Shared<Client>) -> OrderedClient
        ensures { result ≡ client }
    {
        OrderedClient { client }
    }

    /// The transaction.
    pub fn get(&self) -> &Client
        ensures { result.now ≡ self.now }
    {
        self.client.get()
    }
}

impl PartialEq for OrderedClient {
    ghost eq = { eq_by_cmp client_order };

    ghost laws = { Prim.search (comparing, rules) depth 9 };

    fn eq(&self, other: &OrderedClient) -> bool {
        self.cmp(other).is_eq()
    }
}

impl Eq for OrderedClient {
    ghost laws = { Prim.search (comparing, rules) depth 9 };
}

impl Ord for OrderedClient {
    ghost cmp = { client_order };

    ghost total = { Prim.search (comparing, rules) depth 9 };

    ghost matches_partial_cmp = { Prim.search (comparing, rules) };

    ghost matches_eq = { Prim.search (comparing, rules) depth 9 };

    fn cmp(&self, other: &OrderedClient) -> Ordering {
        let one = self.get();
        let two = other.get();
        one.app
            .host
            .cmp(&two.app.host)
            .then(one.app.serial.cmp(&two.app.serial))
            .then(one.branch.cmp(&two.branch))
            .then(is_cancel_client(one).cmp(&is_cancel_client(two)))
    }
}

impl PartialOrd for OrderedClient {
    ghost partial_cmp = { as_partial_cmp client_order };

    ghost laws = { partial_order_from_own_ties (Prim.search (comparing, rules) depth 9)
        (Prim.search (comparing, rules) depth 9) };

    fn partial_cmp(&self, other: &OrderedClient) -> Option<Ordering> {
        Some(self.cmp(other))
    }
}
