//! What makes steps that aren't heard: moments and orders.

ghost use Rattle.std.specs.Prelude.{◌≡◌, IfErr, OnOk, OnErr};
ghost use Rattle.sc_rounds.specs.Dues.{HasDue};
ghost use Rattle.sc_rounds.specs.Serving.{HasNoEnd};
ghost use Rattle.sc_rounds.specs.Moving.{Breaks, BreaksOn, BreaksOrdered, Moves, MovesOn, MovesOrdered};

use crate::stepping::Core;
use sc_edge::{Clock, Notice, Orders};
use sc_journal::Journal;
use sc_switch::StepRefused;
use sc_terms::Step;
use sc_value::NoMemory;

/// Takes one order, if there is one: whether a session was withdrawn. An order of another epoch
/// withdraws nothing.
///
/// # Errors
///
/// `JournalFull` where the journal has no room for the step, and `NoMemory`.
pub fn take_order<O: Orders, N: Notice<Journal<Step>>>(
    core: &mut Core,
    notice: &mut N,
    orders: &mut O,
) -> Result<bool, StepRefused>
    ensures ok { OnOk result
        (MovesOrdered core.old core.new (N.noted notice.old) (N.noted notice.new)
        (O.asked orders.old, O.comes orders.old) (O.asked orders.new, O.comes orders.new)) }
    ensures err { OnErr result
        (BreaksOrdered core.old core.new (N.noted notice.old) (N.noted notice.new)
        (O.asked orders.old, O.comes orders.old) (O.asked orders.new, O.comes orders.new)) }
    ensures due { IfErr result (λ cause. HasDue core.new.switch cause) }
{
    match orders.next() {
        Some(order) => {
            if order.epoch != core.switch.epoch() {
                return Ok(false);
            }
            core.withdraw(notice, order.app)
        }
        None => Ok(false),
    }
}

/// Asks the clock: whether its moment is a later one.
///
/// # Errors
///
/// As of `take_order`.
pub fn take_moment<T: Clock, N: Notice<Journal<Step>>>(
    core: &mut Core,
    notice: &mut N,
    clock: &mut T,
) -> Result<bool, StepRefused>
    ensures ok { OnOk result
        (MovesOn core.old core.new (N.noted notice.old) (N.noted notice.new)
        (T.asked clock.old, T.comes clock.old) (T.asked clock.new, T.comes clock.new)) }
    ensures err { OnErr result
        (BreaksOn core.old core.new (N.noted notice.old) (N.noted notice.new)
        (T.asked clock.old, T.comes clock.old) (T.asked clock.new, T.comes clock.new)) }
    ensures due { IfErr result (λ cause. HasDue core.new.switch cause) }
{
    core.tick(notice, clock.now())
}

/// Tells the notice what lives.
///
/// # Errors
///
/// `NoMemory`.
pub fn list<N: Notice<Journal<Step>>>(core: &mut Core, notice: &mut N) -> Result<(), StepRefused>
    ensures ok { OnOk result (Moves core.old core.new (N.noted notice.old) (N.noted notice.new)) }
    ensures err { OnErr result
        (Breaks core.old core.new (N.noted notice.old) (N.noted notice.new)) }
    ensures due { IfErr result (λ cause. HasDue core.new.switch cause) }
{
    match core.list(notice) {
        Ok(()) => Ok(()),
        Err(NoMemory) => Err(StepRefused::NoMemory),
    }
}

/// Ends the epoch, where that is due.
pub fn end_epoch<N: Notice<Journal<Step>>>(core: &mut Core, notice: &mut N)
    ensures moves { Moves core.old core.new (N.noted notice.old) (N.noted notice.new) }
    ensures outs { core.new.outs ≡ core.old.outs }
    ensures unlisted { core.new.unlisted ≡ core.old.unlisted }
    ensures over { HasNoEnd core.old (N.noted notice.old) core.new.switch }
{
    core.end_epoch(notice);
}
