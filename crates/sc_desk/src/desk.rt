ghost use Rattle.std.specs.Prelude.{◌≡◌, ◌<◌, true, IfOk, IsOkAnd, MatchOption, MatchResult};
ghost use Rattle.crossbeam_queue.specs.Fifo.{Held};
ghost use Rattle.sc_desk.specs.Desks.{IsOf, room_of, view_of};
ghost use Rattle.sc_desk.specs.DeskRules.{AreTakenWhole, IsWaiting, TookOrder, after_post, first_view, joined_view, one_made, poster_view};

use crate::desk_queue::{self, DeskQueue};
use crate::{DeskPass, Posted};
use sc_edge::Order;
use sc_value::NoMemory;
use std::alloc::Global;
use std::sync::Wait;

/// A queue of orders, which threads share by reference.
#[derive(Drop)]
pub struct Desk {
    pub(crate) queue: DeskQueue,
}

impl Desk {
    /// A desk with room for so many orders, and the taker's pass.
    ///
    /// # Errors
    ///
    /// `NoMemory` for want of memory, always at a room of 2^60 or more.
    pub fn new(alloc: Global, room: usize) -> Result<(Desk, DeskPass), NoMemory>
        requires { 0 < room }
        ensures { IfOk result
            (λ made. (room_of made.0 ≡ room) × IsOf made.0 made.1 × (view_of made.1 ≡ first_view)) }
    {
        let (queue, pass) = desk_queue::new(alloc, room)?;
        Ok((
            Desk { queue },
            DeskPass {
                queue: pass,
                number: 0,
            },
        ))
    }

    /// Posts an order. The pass is a poster's.
    ///
    /// # Errors
    ///
    /// The order comes back only where the desk was full at that step. Nothing is changed.
    pub fn post_as<R: Wait>(&self, rt: &R, pass: &mut DeskPass, order: Order) -> Result<(), Order>
        requires pass { IsOf self.now pass.old × ((view_of pass.old).posts ≡ true) }
        ensures pass { IsOf self.now pass.new }
        ensures posted { MatchResult result
            (λ _. view_of pass.new ≡ after_post (view_of pass.old) order)
            (λ back.
            (back ≡ order) × (view_of pass.new ≡ view_of pass.old)
            × Held (room_of self.now) (IsWaiting (view_of pass.old))) }
    {
        let posted = Posted {
            by: pass.number,
            order,
        };
        match desk_queue::post(rt, &self.queue, &mut pass.queue, posted) {
            Ok(()) => Ok(()),
            Err(back) => Err(back.order),
        }
    }

    /// Takes the oldest order, None only where the desk was empty at that step. The pass is the
    /// taker's. Of each poster that has ended the orders that were taken are a beginning of those
    /// that it posted, in its order, each once; they are all of them where the desk was empty.
    pub fn take_as<R: Wait>(&self, rt: &R, pass: &mut DeskPass) -> Option<Order>
        requires pass { IsOf self.now pass.old × ((view_of pass.old).first ≡ true) }
        ensures pass { IsOf self.now pass.new }
        ensures taken { MatchOption result
            ((view_of pass.new ≡ view_of pass.old) × AreTakenWhole (view_of pass.old))
            (λ order. TookOrder (view_of pass.old) order (view_of pass.new)) }
    {
        match desk_queue::take(rt, &self.queue, &mut pass.queue) {
            Some(posted) => Some(posted.order),
            None => None,
        }
    }

    /// A pass for one more poster, with the next number. The pass is the taker's, and fewer than
    /// 4,294,967,295 posters were made before.
    ///
    /// # Errors
    ///
    /// None: it takes no memory.
    pub fn split(&self, pass: &mut DeskPass) -> Result<DeskPass, NoMemory>
        requires pass { IsOf self.now pass.old × ((view_of pass.old).first ≡ true) }
        requires made { (view_of pass.old).made < 4294967295 }
        ensures pass { IsOf self.now pass.new }
        ensures left { view_of pass.new ≡ one_made (view_of pass.old) }
        ensures made { IsOkAnd result
            (λ made. IsOf self.now made × (view_of made ≡ poster_view (view_of pass.old).made)) }
    {
        let number = pass.number;
        let queue = desk_queue::split(&self.queue, &mut pass.queue);
        pass.number = number + 1;
        Ok(DeskPass { queue, number })
    }

    /// Ends a poster's pass. The other is the taker's.
    pub fn join(&self, pass: &mut DeskPass, ended: DeskPass)
        requires pass { IsOf self.now pass.old × ((view_of pass.old).first ≡ true) }
        requires ended { IsOf self.now ended × ((view_of ended).posts ≡ true) }
        ensures pass { IsOf self.now pass.new }
        ensures both { view_of pass.new ≡ joined_view (view_of pass.old) (view_of ended) }
    {
        let DeskPass { queue, .. } = ended;
        desk_queue::join(&self.queue, &mut pass.queue, queue);
    }
}
