//! The session timer of a SipSession, read before a helper's first call, and its end.

ghost use Rattle.std.specs.Prelude.{◌≡◌, ◌≤◌, ◌+◌, ◌<◌, IfOk, IfSome, OnOk, option_and_then};
ghost use Rattle.sc_hosts.specs.RefusalParts.{MOST_CALLS};
ghost use Rattle.sc_hosts.specs.Scripting.{Done, attribute};
ghost use Rattle.sc_hosts.specs.SessionTimers.{timed_name, timed_of};
ghost use Rattle.sc_turn.specs.Working.{play_of};
ghost use Rattle.sc_apps.specs.Scripted.{IsPlayed};
ghost use Rattle.sc_helpers.specs.Stopping.{Goes, Leads};
ghost use Rattle.sc_refreshes.specs.TimedScripts.{script_with_stop, stop_of, timer_of_timed};

use crate::timed_texts::{Refresh, timed_name, timed_of};
use sc_apps::attribute;
use sc_helpers::{Stopped, has_attribute, heard, timer_named, try_cancel_some, try_remove_if};
use sc_terms::View;
use sc_turn::Turn;
use sc_value::{NoMemory, SessId, Text, TimerId};
use std::alloc::Global;

/// What there is to stop in a SipSession.
#[derive(Drop)]
pub struct Stop {
    /// The name of its attribute.
    pub name: Text,
    /// Whether that is set.
    pub set: bool,
    /// Its timer, where that runs.
    pub running: Option<TimerId>,
}

fn timed_at(view: &View, name: &[u8]) -> Option<Refresh>
    ensures exact { result ≡ option_and_then timed_of (attribute name.now view.entry.now) }
    ensures within { IfSome result (λ timed. timed.seconds ≤ 4000000) }
{
    match attribute(view, name) {
        Some(text) => timed_of(text.as_bytes()),
        None => None,
    }
}

/// The session timer of a SipSession.
pub fn timed_in(alloc: Global, view: &View, sess: SessId) -> Result<Option<Refresh>, NoMemory>
    ensures exact { IfOk result
        (λ timed. timed ≡ option_and_then timed_of (attribute (timed_name sess) view.entry.now)) }
    ensures within { IfOk result (λ timed. IfSome timed (λ timed. timed.seconds ≤ 4000000)) }
{
    let name = timed_name(alloc, sess)?;
    Ok(timed_at(view, name.as_bytes()))
}

#[tactic(auto, unfolding(crate::specs::TimedScripts::timer_of_timed))]
fn timer_of(view: &View, timed: Option<Refresh>) -> Option<TimerId>
    ensures { result ≡ timer_of_timed view.entry.now timed }
{
    match timed {
        Some(timed) => timer_named(view, timed.timer),
        None => None,
    }
}

/// What there is to stop in a SipSession.
#[tactic(auto, unfolding(crate::specs::TimedScripts::stop_of))]
pub fn stop_of(alloc: Global, view: &View, sess: SessId) -> Result<Stop, NoMemory>
    ensures { IfOk result (λ stop. stop ≡ stop_of view.entry.now sess) }
{
    let name = timed_name(alloc, sess)?;
    let set = has_attribute(view, name.as_bytes());
    let running = timer_of(view, timed_at(view, name.as_bytes()));
    Ok(Stop { name, set, running })
}

/// Ends the timer and takes the attribute away, behind so many accepted calls.
#[tactic(auto, using(crate::proofs::TimedLed::stopped_both, crate::proofs::TimedLed::stopped_none))]
pub fn stop_timer(turn: &mut Turn, made: u8, what: &Stop) -> Result<u8, Stopped>
    requires few { made < 90 }
    ensures same { turn.new.shown ≡ turn.old.shown }
    ensures led { Leads (script_with_stop what.now) made turn.old result turn.new }
    ensures count { IfOk result (λ after. after ≤ made + 2) }
{
    match try_cancel_some(turn, made, what.running) {
        Ok(made) => try_remove_if(turn, made, what.set, what.name.as_bytes()),
        Err(stop) => Err(stop),
    }
}

/// Ends the timer and takes the attribute away, and makes no other call.
#[tactic(auto, using(crate::proofs::TimedLed::stopped_on, crate::proofs::TimedLed::stopped_off, sc_helpers::proofs::Steps::goes_done))]
pub fn stop_only(turn: &mut Turn, what: &Stop) -> Result<(), Stopped>
    ensures same { turn.new.shown ≡ turn.old.shown }
    ensures goes { Goes 0 (script_with_stop what.now Done) turn.old result turn.new }
{
    match stop_timer(turn, 0, what) {
        Ok(_) => Ok(()),
        Err(stop) => Err(stop),
    }
}

/// Does the same as the last calls of a servlet.
#[tactic(auto, using(crate::proofs::TimedPlays::stop_played, crate::proofs::TimedPlays::stop_heard))]
pub fn play_stop(t: &mut Turn, what: &Stop) -> Result<(), NoMemory>
    requires { (play_of t.old).listed + 1 < MOST_CALLS }
    ensures same { t.new.shown ≡ t.old.shown }
    ensures played { OnOk result (IsPlayed (script_with_stop what.now Done) t.old t.new) }
{
    match stop_only(t, what) {
        Ok(()) => Ok(()),
        Err(stop) => heard(stop),
    }
}
