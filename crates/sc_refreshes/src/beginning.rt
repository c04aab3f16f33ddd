//! Session timers that a servlet begins and ends, at any point of its turn (RFC 4028 sections 7 to
//! 10).

ghost use Rattle.std.specs.Prelude.{◌≡◌, false};
ghost use Rattle.sc_hosts.specs.Scripting.{Done};
ghost use Rattle.sc_hosts.specs.SessionTimers.{begin_timed, stop_then};
ghost use Rattle.sc_turn.specs.Working.{play_of};
ghost use Rattle.sc_helpers.specs.Stopping.{IsDone};
ghost use Rattle.sc_refreshes.specs.Intervals.{granted_of, IsGrantable};

use crate::intervals::Interval;
use crate::stopping::{stop_of, stop_only};
use crate::timing::begin_by;
use sc_apps::memory_of;
use sc_helpers::{Stopped, wanting};
use sc_turn::Turn;
use sc_value::{NoMemory, SessId};

/// Begins the session timer of a SipSession, as [`granted`](crate::granted) says (RFC 4028 sections
/// 7 and 10). It makes these calls, each where the one before was accepted: those of
/// [`stop`](crate::stop); and for an interval, `start_timer` once after its deadline, half of the
/// interval where the application refreshes the session, and else a third of it, at most 32
/// seconds, before its end; and `set_attribute` of `st` with the SipSession's number to `SECONDS me
/// TIMER` or
/// `SECONDS peer TIMER`.
///
/// # Errors
///
/// The turn refuses one of the calls, and the ones before it were accepted: [`Stopped`] says which.
/// None is made behind it. For want of memory it is `NoMemory`; where a call of this turn wanted
/// memory before, the turn is over, and nothing is said.
#[tactic(auto, using(crate::proofs::TimedCalls::begin_done, crate::proofs::TimedCalls::wanting_done))]
pub fn begin(turn: &mut Turn, sess: SessId, interval: Interval) -> Result<(), Stopped>
    requires interval { IsGrantable interval }
    ensures same { turn.new.shown ≡ turn.old.shown }
    ensures done { turn.old.starved ≡ false
        → IsDone (begin_timed sess (play_of turn.old).view (granted_of interval)) turn.old result
        turn.new }
{
    match stop_of(memory_of(turn), turn.view(), sess) {
        Ok(what) => begin_by(turn, sess, interval, &what),
        Err(NoMemory) => Err(wanting(0)),
    }
}

/// Ends the session timer of a SipSession: `cancel_timer` where its servlet timer runs, and then
/// `remove_attribute` of `st` with the SipSession's number, where that is set. Where there is no
/// session timer, no call is made.
///
/// # Errors
///
/// The turn refuses one of the calls, and the one before it was accepted: [`Stopped`] says which.
/// None is made behind it. For want of memory it is `NoMemory`; where a call of this turn wanted
/// memory before, the turn is over, and nothing is said.
#[tactic(auto, using(crate::proofs::TimedCalls::stop_done, crate::proofs::TimedCalls::wanting_done))]
pub fn stop(turn: &mut Turn, sess: SessId) -> Result<(), Stopped>
    ensures same { turn.new.shown ≡ turn.old.shown }
    ensures done { turn.old.starved ≡ false
        → IsDone (stop_then sess (play_of turn.old).view Done) turn.old result turn.new }
{
    match stop_of(memory_of(turn), turn.view(), sess) {
        Ok(what) => stop_only(turn, &what),
        Err(NoMemory) => Err(wanting(0)),
    }
}
