ghost use Rattle.std.specs.Prelude.{◌≡◌, true, None};
ghost use Rattle.sc_desk.specs.Desks.{IsOf, view_of};

use crate::{Desk, DeskPass};
use sc_edge::{Order, Orders};
use std::sync::Wait;

/// The orders of a desk, as a server asks for them. It tells nothing of what it will answer.
#[derive(Drop)]
pub struct DeskOrders<'a, R: Wait> {
    rt: &'a R,
    desk: &'a Desk,
    pass: DeskPass,
    asked: u64,
    pub ghost of: { IsOf desk.now pass × ((view_of pass).first ≡ true) },
}

impl<'a, R: Wait> DeskOrders<'a, R> {
    /// The orders of this desk, with the taker's pass.
    pub fn new(rt: &'a R, desk: &'a Desk, pass: DeskPass) -> DeskOrders<'a, R>
        requires { IsOf desk.now pass × ((view_of pass).first ≡ true) }
        ensures { result.asked ≡ 0 }
    {
        DeskOrders {
            rt,
            desk,
            pass,
            asked: 0,
        }
    }

    /// Ends it, and gives the taker's pass back.
    pub fn into_pass(self) -> DeskPass
        ensures { result ≡ self.entry.pass }
    {
        let DeskOrders { pass, .. } = self;
        pass
    }
}

impl<'a, R: Wait> Orders for DeskOrders<'a, R> {
    ghost asked = { λ s. s.asked };

    ghost comes = { λ _ _. None };

    fn next(&mut self) -> Option<Order> {
        self.asked = self.asked.saturating_add(1);
        self.desk.take_as(self.rt, &mut self.pass)
    }
}
