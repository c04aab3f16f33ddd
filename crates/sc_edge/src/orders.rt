ghost use Rattle.std.specs.Prelude.{◌≡◌, ◌+◌, ℕ, Option};
ghost use Rattle.sc_edge.specs.Faults.{one_more};
ghost use Rattle.sc_edge.specs.Telling.{IsTold};

use sc_value::AppId;

/// An order to withdraw an application session.
#[derive(Clone, Copy, Debug, PartialEq, Eq)]
pub struct Order {
    /// The epoch in which the session lives. An order of another epoch withdraws nothing.
    pub epoch: u32,
    /// The session.
    pub app: AppId,
}

/// Where orders come from.
pub trait Orders {
    ghost use Rattle.sc_edge.specs.declared.orders.Order.{Order};

    // how often it was asked
    ghost asked: { Self → ℕ };

    // what call `n` from here answers, the next one being call 0; `None` where it isn't told
    ghost comes: { Self → ℕ → Option (Option Order) };

    /// The next order, if there is one now.
    fn next(&mut self) -> Option<Order>
        ensures asked { asked self.new ≡ one_more (asked self.old) }
        ensures told { IsTold (comes self.old 0) result }
        ensures comes { (n : ℕ) → comes self.new n ≡ comes self.old (n + 1) };
}
