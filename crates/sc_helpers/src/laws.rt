//! What the contracts of helpers' calls say, in the words of the laws over lists of calls.

ghost use Rattle.std.specs.Prelude.{◌≡◌};
ghost use Rattle.sc_hosts.specs.Scripting.{Script};
ghost use Rattle.sc_turn.specs.Working.{Working, play_of};
ghost use Rattle.sc_helpers.specs.Stopping.{GoesThrough};
ghost use Rattle.sc_promised.specs.Refreshing.{IsAccepted};
ghost use Rattle.sc_promised.specs.Reliable.{play_after};

/// Where a turn accepted every call of a script, none of them is refused from the play on in which
/// the turn was, and the turn's play behind them is the one behind the script. So what is said of
/// the plays of a list of calls holds of the turns in which helpers made them. The contract is the
/// law, and the call does nothing.
#[tactic(auto, using(crate::proofs::Plays::through_accepted))]
pub fn accepted_calls_are_played()
    ensures { (script : Script) (old new : Working) → GoesThrough script old new
        → IsAccepted (play_of old) script × (play_of new ≡ play_after (play_of old) script) }
{}
