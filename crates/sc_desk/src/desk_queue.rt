//! The queue of orders, its rule, and the steps of its passes.

ghost use Rattle.std.specs.Prelude.{◌≡◌, ◌<◌, true, IfOk, MatchOption, MatchResult};
ghost use Rattle.crossbeam_queue.specs.Fifo.{Held};
ghost use Rattle.crossbeam_queue.specs.Passes.{view, IsPassOf, IsSamePass, ruled_capacity};
ghost use Rattle.sc_desk.specs.DeskRules.{IsTakenUpTo, IsWaiting, Took, after_post, first_view, joined_view, one_made, poster_view};

use crate::Posted;
use crossbeam_queue::protocol::{Join, Lesson, Outcome, Protocol, Split};
use crossbeam_queue::{Pass, RuledArrayQueue};
use sc_edge::Order;
use std::alloc::{AllocError, Global};
use std::collections::LinkedList;
use std::sync::Wait;

/// What a poster that has ended had posted. It stands in contracts alone: no value of it is made.
pub struct Ended {
    /// The poster's number.
    pub number: u64,
    /// The orders that it posted, in order.
    pub orders: LinkedList<Order>,
}

/// What a pass did at the desk. It stands in contracts alone: no value of it is made.
pub struct DeskView {
    /// Whether it is the pass that takes.
    pub first: bool,
    /// Whether it is a poster's.
    pub posts: bool,
    /// A poster's number, from 0.
    pub number: u64,
    /// Of the taker: how many posters were made.
    pub made: u64,
    /// The orders that it posted, in order.
    pub posted: LinkedList<Order>,
    /// The orders that it took, in order, each with its poster's number.
    pub taken: LinkedList<Posted>,
    /// Of the taker: the posters that have ended.
    pub ended: LinkedList<Ended>,
}

pub struct DeskRule;

impl Protocol<Posted, DeskView> for DeskRule {
    ghost use Rattle.sc_desk.specs.DeskRules.{DeskKept, first_view};

    ghost holds = { DeskKept };

    ghost first = { first_view };
}

pub type DeskQueue = RuledArrayQueue<Posted, DeskView, DeskRule>;

pub type QueuePass = Pass<Posted, DeskView>;

struct Posts;

impl Outcome<Posted, DeskView> for Posts {
    ghost use Rattle.sc_desk.specs.DeskRules.{after_post};

    ghost then = { λ v posted w. w ≡ after_post v posted.order };
}

impl Lesson<Posted, DeskView> for Posts {
    ghost use Rattle.sc_desk.specs.DeskRules.{IsWaiting};

    ghost fact = { IsWaiting };
}

struct Takes;

impl Outcome<Posted, DeskView> for Takes {
    ghost use Rattle.sc_desk.specs.DeskRules.{Took};

    ghost then = { Took };
}

impl Lesson<Posted, DeskView> for Takes {
    ghost use Rattle.sc_desk.specs.DeskRules.{IsTakenUpTo};

    ghost fact = { IsTakenUpTo };
}

struct Posters;

impl Split<DeskView> for Posters {
    ghost use Rattle.sc_desk.specs.DeskRules.{one_made, poster_view};

    ghost left = { one_made };

    ghost right = { λ v. poster_view v.made };
}

impl Join<DeskView> for Posters {
    ghost use Rattle.sc_desk.specs.DeskRules.{joined_view, spent_view};

    ghost both = { joined_view };

    ghost spent = { spent_view };
}

/// A queue with room for so many orders, and its first pass.
pub fn new(alloc: Global, room: usize) -> Result<(DeskQueue, QueuePass), AllocError>
    requires { 0 < room }
    ensures { IfOk result
        (λ made.
        (ruled_capacity made.0 ≡ room) × IsPassOf made.0 made.1 × (view made.1 ≡ first_view)) }
{
    let (queue, pass) = DeskQueue::ruled(alloc, room)?;
    Ok((queue, pass))
}

/// Puts an order at the back. It is handed back only where the queue was full.
pub fn post<R: Wait>(
    rt: &R,
    queue: &DeskQueue,
    pass: &mut QueuePass,
    posted: Posted,
) -> Result<(), Posted>
    requires pass { IsPassOf queue.now pass.old × ((view pass.old).posts ≡ true) }
    requires by { posted.by ≡ (view pass.old).number }
    ensures pass { IsSamePass pass.old pass.new }
    ensures posted { MatchResult result
        (λ _. view pass.new ≡ after_post (view pass.old) posted.order)
        (λ back.
        (back ≡ posted) × (view pass.new ≡ view pass.old)
        × Held (ruled_capacity queue.now) (IsWaiting (view pass.old))) }
{
    queue.push_as::<Posts, R>(rt, pass, posted)
}

/// Takes the order at the front, None only where the queue was empty.
pub fn take<R: Wait>(rt: &R, queue: &DeskQueue, pass: &mut QueuePass) -> Option<Posted>
    requires pass { IsPassOf queue.now pass.old × ((view pass.old).first ≡ true) }
    ensures pass { IsSamePass pass.old pass.new }
    ensures taken { MatchOption result
        ((view pass.new ≡ view pass.old) × Held 0 (IsTakenUpTo (view pass.old)))
        (λ posted. Took (view pass.old) posted (view pass.new)) }
{
    queue.pop_as::<Takes, R>(rt, pass)
}

/// A pass for one more poster.
pub fn split(queue: &DeskQueue, pass: &mut QueuePass) -> QueuePass
    requires pass { IsPassOf queue.now pass.old × ((view pass.old).first ≡ true) }
    ensures pass { IsSamePass pass.old pass.new × IsPassOf queue.now result }
    ensures left { view pass.new ≡ one_made (view pass.old) }
    ensures right { view result ≡ poster_view (view pass.old).made }
{
    queue.another::<Posters>(pass)
}

/// Ends a poster's pass.
pub fn join(queue: &DeskQueue, pass: &mut QueuePass, ended: QueuePass)
    requires pass { IsPassOf queue.now pass.old × ((view pass.old).first ≡ true) }
    requires ended { IsPassOf queue.now ended × ((view ended).posts ≡ true) }
    ensures pass { IsSamePass pass.old pass.new }
    ensures both { view pass.new ≡ joined_view (view pass.old) (view ended) }
{
    queue.absorb::<Posters>(pass, ended);
}
