//! What a session timer that was begun promises, as a law.

ghost use Rattle.std.specs.Prelude.{ℕ, Bool, Ok};
ghost use Rattle.sc_value.specs.declared.ids.SessId.{SessId};
ghost use Rattle.sc_hosts.specs.SessionTimers.{On, begin_timed};
ghost use Rattle.sc_turn.specs.Working.{Working, play_of};
ghost use Rattle.sc_helpers.specs.Stopping.{IsDone};
ghost use Rattle.sc_promised.specs.Refreshing.{IsBegun};

/// Where [`begin`](crate::begin) isn't refused for an interval of so many seconds, a timer that
/// fires once is due at the deadline of the side that refreshes or of the other one, counted from
/// the moment of the turn, and the attribute of the SipSession names it. This holds whichever calls
/// stand before it, in its turn or in others. The contract is the law, and the call does nothing.
#[tactic(auto, using(crate::proofs::TimedCalls::begun_in_time))]
pub fn begun_timers_are_in_time()
    ensures { (sess : SessId) (n : ℕ) (me : Bool) (old new : Working) (x : Unit {0})
        → IsDone (begin_timed sess (play_of old).view (On n me)) old (Ok x) new
        → IsBegun (play_of old).view.now sess n me (play_of new).view }
{}
