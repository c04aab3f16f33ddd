ghost use Rattle.std.specs.Prelude.{◌≡◌, ◌+◌, ℕ, Some};
ghost use Rattle.sc_edge.specs.Answering.{after_next, order_at};
ghost use Rattle.sc_edge.specs.Faults.{one_more};
ghost use Rattle.sc_edge.specs.Telling.{IsTold};

use crate::plan::counted;
use crate::{Order, Orders};
use sc_value::List;
use std::marker::Model;

/// Orders of a list, which has one answer for each call, and then none.
#[derive(Drop)]
pub struct ListOrders {
    orders: List<Option<Order>>,
    next: usize,
    asked: u64,
}

impl Model for ListOrders {
    ghost use Rattle.std.proofs.Math.ListN.{drop};
    ghost use Rattle.sc_edge.specs.Answering.{OrdersState};

    ghost Value = { OrdersState };

    ghost view = { λ s. record { left = drop s.next s.orders; asked = s.asked } };
}

impl ListOrders {
    /// The orders of this list.
    pub fn new(orders: List<Option<Order>>) -> ListOrders
        ensures { result ≡ record { left = orders; asked = 0 } }
    {
        ListOrders {
            orders,
            next: 0,
            asked: 0,
        }
    }

    /// How often it was asked.
    pub fn asked(&self) -> u64
        ensures { result ≡ self.now.asked }
    {
        self.asked
    }
}

impl Orders for ListOrders {
    ghost asked = { λ s. s.asked };

    ghost comes = { λ s n. Some (order_at s.left n) };

    fn next(&mut self) -> Option<Order>
        ensures asked { self.new.asked ≡ one_more self.old.asked }
        ensures told { IsTold (Some (order_at self.old.left 0)) result }
        ensures comes { (n : ℕ)
            → Some (order_at self.new.left n) ≡ Some (order_at self.old.left (n + 1)) }
        ensures after { self.new ≡ after_next self.old }
    {
        self.asked = counted(self.asked);
        match self.orders.as_slice().get(self.next) {
            Some(order) => {
                self.next += 1;
                *order
            }
            None => None,
        }
    }
}
