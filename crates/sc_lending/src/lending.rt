//! The turns of a round: those that are due are lent to the workers, and what they brought is
//! taken.

ghost use Rattle.std.specs.Prelude.{IfErr, OnOk, OnErr};
ghost use Rattle.sc_rounds.specs.Dues.{HasDue};
ghost use Rattle.sc_rounds.specs.Moving.{Breaks, Moves};

use crate::seat::{Seat, collect_at, post_at};
use sc_edge::Notice;
use sc_journal::Journal;
use sc_rounds::Core;
use sc_servlets::{Catalogue, Lease};
use sc_switch::StepRefused;
use sc_terms::Step;
use sc_value::{Discard, NoMemory};
use std::sync::Wait;

/// How many turns a round lends at most, and how many results it takes.
const MOST_TURNS: u64 = 64;

/// Lends out the turns that are due, and takes those that were made, 64 of each at most: whether
/// there was one.
///
/// # Errors
///
/// `JournalFull` where the journal has no room for a turn, and `NoMemory`. The steps before it
/// stand.
pub fn work_once<R: Wait, N: Notice<Journal<Step>>>(
    rt: &R,
    core: &mut Core,
    seat: &mut Option<Seat<'_>>,
    notice: &mut N,
    apps: &Catalogue,
) -> Result<bool, StepRefused>
    ensures ok { OnOk result (Moves core.old core.new (N.noted notice.old) (N.noted notice.new)) }
    ensures err { OnErr result
        (Breaks core.old core.new (N.noted notice.old) (N.noted notice.new)) }
    ensures due { IfErr result (λ cause. HasDue core.new.switch cause) }
{
    match lend_turns(rt, core, seat, notice, apps) {
        Ok(lent) => match collect_turns(rt, core, seat, notice) {
            Ok(taken) => Ok(lent || taken),
            Err(cause) => Err(cause),
        },
        Err(cause) => Err(cause),
    }
}

/// Lends out the turns that are due, 64 at most: whether one was. Those that are short, and those
/// that no worker takes, are made here.
fn lend_turns<R: Wait, N: Notice<Journal<Step>>>(
    rt: &R,
    core: &mut Core,
    seat: &mut Option<Seat<'_>>,
    notice: &mut N,
    apps: &Catalogue,
) -> Result<bool, StepRefused>
    ensures ok { OnOk result (Moves core.old core.new (N.noted notice.old) (N.noted notice.new)) }
    ensures err { OnErr result
        (Breaks core.old core.new (N.noted notice.old) (N.noted notice.new)) }
    ensures due { IfErr result (λ cause. HasDue core.new.switch cause) }
{
    let mut some = false;
    for _ in 0..MOST_TURNS {
        if !lend_turn(rt, core, seat, notice, apps)? {
            return Ok(some);
        }
        some = true;
    }
    Ok(some)
}

/// Lends out the turn of the first event that waits, or makes it here: whether one was.
fn lend_turn<R: Wait, N: Notice<Journal<Step>>>(
    rt: &R,
    core: &mut Core,
    seat: &mut Option<Seat<'_>>,
    notice: &mut N,
    apps: &Catalogue,
) -> Result<bool, StepRefused>
    ensures ok { OnOk result (Moves core.old core.new (N.noted notice.old) (N.noted notice.new)) }
    ensures err { OnErr result
        (Breaks core.old core.new (N.noted notice.old) (N.noted notice.new)) }
    ensures due { IfErr result (λ cause. HasDue core.new.switch cause) }
{
    if !core.is_turn_due() {
        return Ok(false);
    }
    match core.lease() {
        Ok(Some(lease)) => match offer(rt, seat, apps, lease) {
            Ok(()) => Ok(true),
            Err(back) => make_turn(core, notice, apps, back),
        },
        Ok(None) => Ok(false),
        Err(NoMemory) => Err(StepRefused::NoMemory),
    }
}

/// Posts the turn of a lease to the workers. It comes back where it is short, and where no worker
/// takes it.
fn offer<R: Wait>(
    rt: &R,
    seat: &mut Option<Seat<'_>>,
    apps: &Catalogue,
    lease: Lease,
) -> Result<(), Lease> {
    if apps.is_short(lease.kind) {
        return Err(lease);
    }
    post_at(rt, seat, lease)
}

/// Makes the turn of a lease. A kind that the catalogue hasn't makes none.
fn make_turn<N: Notice<Journal<Step>>>(
    core: &mut Core,
    notice: &mut N,
    apps: &Catalogue,
    lease: Lease,
) -> Result<bool, StepRefused>
    ensures ok { OnOk result (Moves core.old core.new (N.noted notice.old) (N.noted notice.new)) }
    ensures err { OnErr result
        (Breaks core.old core.new (N.noted notice.old) (N.noted notice.new)) }
    ensures due { IfErr result (λ cause. HasDue core.new.switch cause) }
{
    if lease.kind >= apps.kinds.len() {
        lease.discard();
        return Ok(false);
    }
    let done = apps.react(core.alloc, lease);
    match core.commit(notice, done) {
        Ok(_) => Ok(true),
        Err(cause) => Err(cause),
    }
}

/// Takes the turns that workers brought, 64 at most: whether there was one.
fn collect_turns<R: Wait, N: Notice<Journal<Step>>>(
    rt: &R,
    core: &mut Core,
    seat: &mut Option<Seat<'_>>,
    notice: &mut N,
) -> Result<bool, StepRefused>
    ensures ok { OnOk result (Moves core.old core.new (N.noted notice.old) (N.noted notice.new)) }
    ensures err { OnErr result
        (Breaks core.old core.new (N.noted notice.old) (N.noted notice.new)) }
    ensures due { IfErr result (λ cause. HasDue core.new.switch cause) }
{
    let mut some = false;
    for _ in 0..MOST_TURNS {
        if !collect_turn(rt, core, seat, notice)? {
            return Ok(some);
        }
        some = true;
    }
    Ok(some)
}

/// Takes the oldest turn that a worker brought: whether there was one.
fn collect_turn<R: Wait, N: Notice<Journal<Step>>>(
    rt: &R,
    core: &mut Core,
    seat: &mut Option<Seat<'_>>,
    notice: &mut N,
) -> Result<bool, StepRefused>
    ensures ok { OnOk result (Moves core.old core.new (N.noted notice.old) (N.noted notice.new)) }
    ensures err { OnErr result
        (Breaks core.old core.new (N.noted notice.old) (N.noted notice.new)) }
    ensures due { IfErr result (λ cause. HasDue core.new.switch cause) }
{
    match collect_at(rt, seat) {
        Some(done) => match core.commit(notice, done) {
            Ok(_) => Ok(true),
            Err(cause) => Err(cause),
        },
        None => Ok(false),
    }
}
