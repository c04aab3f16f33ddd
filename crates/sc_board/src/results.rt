//! The queue of results, its rule, and the steps of its passes.

ghost use Rattle.std.specs.Prelude.{◌≡◌, ◌<◌, true, IfOk, IsTrue, MatchOption, MatchResult};
ghost use Rattle.crossbeam_queue.specs.Fifo.{Held};
ghost use Rattle.crossbeam_queue.specs.Passes.{view, IsPassOf, IsSamePass, ruled_capacity};
ghost use Rattle.sc_board.specs.ResultRules.{IsResultWhole, after_bring, after_collect, first_result_view, joined_result_view, new_result_view, result_view_left};

use crossbeam_queue::protocol::{Join, Lesson, Outcome, Protocol, Split};
use crossbeam_queue::{Pass, RuledArrayQueue};
use sc_servlets::Done;
use std::alloc::{AllocError, Global};
use std::collections::LinkedList;
use std::sync::Wait;

/// What a pass did with results. It stands in contracts alone: no value of it is made.
pub struct ResultView {
    /// Whether it is the pass that collects.
    pub first: bool,
    /// Its parts: all passes of a board together have 1,024. A pass with no part is spent.
    pub parts: u64,
    /// The results that it brought, in order.
    pub brought: LinkedList<Done>,
    /// The results that it collected, in order.
    pub collected: LinkedList<Done>,
    /// Whether a pass that had brought results was joined to it.
    pub mixed: bool,
}

pub struct ResultRule;

impl Protocol<Done, ResultView> for ResultRule {
    ghost use Rattle.sc_board.specs.ResultRules.{ResultsKept, first_result_view};

    ghost holds = { ResultsKept };

    ghost first = { first_result_view };
}

pub type ResultQueue = RuledArrayQueue<Done, ResultView, ResultRule>;

pub type ResultPass = Pass<Done, ResultView>;

struct Brings;

impl Outcome<Done, ResultView> for Brings {
    ghost use Rattle.sc_board.specs.ResultRules.{after_bring};

    ghost then = { λ v done w. w ≡ after_bring v done };
}

impl Lesson<Done, ResultView> for Brings {
    ghost use Rattle.sc_board.specs.ResultRules.{IsResultWhole};

    ghost fact = { IsResultWhole };
}

struct Collects;

impl Outcome<Done, ResultView> for Collects {
    ghost use Rattle.sc_board.specs.ResultRules.{after_collect};

    ghost then = { λ v done w. w ≡ after_collect v done };
}

impl Lesson<Done, ResultView> for Collects {
    ghost use Rattle.sc_board.specs.ResultRules.{IsResultWhole};

    ghost fact = { IsResultWhole };
}

struct Parts;

impl Split<ResultView> for Parts {
    ghost use Rattle.sc_board.specs.ResultRules.{new_result_view, result_view_left};

    ghost left = { result_view_left };

    ghost right = { λ v. new_result_view };
}

impl Join<ResultView> for Parts {
    ghost use Rattle.sc_board.specs.ResultRules.{joined_result_view, spent_result_view};

    ghost both = { joined_result_view };

    ghost spent = { spent_result_view };
}

/// A queue with room for so many results, and its first pass.
pub fn new(alloc: Global, room: usize) -> Result<(ResultQueue, ResultPass), AllocError>
    requires { 0 < room }
    ensures { IfOk result
        (λ made.
        (ruled_capacity made.0 ≡ room) × IsPassOf made.0 made.1
        × (view made.1 ≡ first_result_view)) }
{
    let (queue, pass) = ResultQueue::ruled(alloc, room)?;
    Ok((queue, pass))
}

/// Puts a result at the back. It is handed back only where the queue was full.
pub fn bring<R: Wait>(
    rt: &R,
    queue: &ResultQueue,
    pass: &mut ResultPass,
    done: Done,
) -> Result<(), Done>
    requires pass { IsPassOf queue.now pass.old × (0 < (view pass.old).parts) }
    ensures pass { IsSamePass pass.old pass.new }
    ensures brought { MatchResult result (λ _. view pass.new ≡ after_bring (view pass.old) done)
        (λ back.
        (back ≡ done) × (view pass.new ≡ view pass.old)
        × Held (ruled_capacity queue.now) (IsResultWhole (view pass.old))) }
{
    queue.push_as::<Brings, R>(rt, pass, done)
}

/// Takes the result at the front, None only where the queue was empty.
pub fn collect<R: Wait>(rt: &R, queue: &ResultQueue, pass: &mut ResultPass) -> Option<Done>
    requires pass { IsPassOf queue.now pass.old × ((view pass.old).first ≡ true) }
    ensures pass { IsSamePass pass.old pass.new }
    ensures collected { MatchOption result
        ((view pass.new ≡ view pass.old) × Held 0 (IsResultWhole (view pass.old)))
        (λ done. view pass.new ≡ after_collect (view pass.old) done) }
{
    queue.pop_as::<Collects, R>(rt, pass)
}

/// Whether the queue is empty.
pub fn is_empty(queue: &ResultQueue, pass: &mut ResultPass) -> bool
    requires pass { IsPassOf queue.now pass.old }
    ensures pass { IsSamePass pass.old pass.new × (view pass.new ≡ view pass.old) }
    ensures empty { IsTrue result → Held 0 (IsResultWhole (view pass.old)) }
{
    queue.is_empty_as::<Collects>(pass)
}

/// Gives one part to a new pass.
pub fn split(queue: &ResultQueue, pass: &mut ResultPass) -> ResultPass
    requires pass { IsPassOf queue.now pass.old × (1 < (view pass.old).parts) }
    ensures pass { IsSamePass pass.old pass.new × IsPassOf queue.now result }
    ensures left { view pass.new ≡ result_view_left (view pass.old) }
    ensures right { view result ≡ new_result_view }
{
    queue.another::<Parts>(pass)
}

/// Ends a pass, and puts what it did to this one.
pub fn join(queue: &ResultQueue, pass: &mut ResultPass, ended: ResultPass)
    requires pass { IsPassOf queue.now pass.old × (0 < (view pass.old).parts) }
    requires ended { IsPassOf queue.now ended × (0 < (view ended).parts) }
    ensures pass { IsSamePass pass.old pass.new }
    ensures both { view pass.new ≡ joined_result_view (view pass.old) (view ended) }
{
    queue.absorb::<Parts>(pass, ended);
}
