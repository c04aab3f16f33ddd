//! How session timers begin (RFC 4028 sections 7 to 10).

ghost use Rattle.std.specs.Prelude.{◌≡◌, ◌≤◌, ◌+◌, ◌<◌, [], false, IfOk, OnOk};
ghost use Rattle.sc_terms.specs.declared.views.Period.TheVariants.{Once};
ghost use Rattle.sc_hosts.specs.HelperParts.{accepted_then, answer_with};
ghost use Rattle.sc_hosts.specs.RefusalParts.{MOST_CALLS};
ghost use Rattle.sc_hosts.specs.Scripting.{only};
ghost use Rattle.sc_hosts.specs.SessionTimers.{begin_timed, granted_fields, timed_name, timed_text};
ghost use Rattle.sc_hosts.specs.Words.{ok};
ghost use Rattle.sc_turn.specs.Working.{play_of};
ghost use Rattle.sc_apps.specs.Scripted.{IsPlayed};
ghost use Rattle.sc_helpers.specs.Stopping.{Gives, Goes, Leads};
ghost use Rattle.sc_refreshes.specs.Intervals.{granted_of, IsGrantable};
ghost use Rattle.sc_refreshes.specs.TimedScripts.{begun_by, script_with_stop, script_with_timer};

use crate::expiries::{deadline, granted_fields};
use crate::intervals::Interval;
use crate::stopping::{Stop, stop_of, stop_only, stop_timer};
use crate::timed_texts::{timed_name, timed_text};
use sc_apps::{memory_of, shown};
use sc_helpers::{Stopped, answer_first, heard, try_set_attribute, try_start_timer, wanting};
use sc_terms::Call;
use sc_turn::Turn;
use sc_value::{NoMemory, ReqId, SessId, Text};
use std::alloc::Global;

/// Answers a request 200 `OK` with its interval, and begins the timer of its SipSession.
#[tactic(auto, using(sc_apps::proofs::Playing::begun_room, crate::proofs::TimedLaws::played_begin))]
pub fn accept(t: &mut Turn, req: ReqId, sess: SessId, interval: Interval) -> Result<(), NoMemory>
    requires calls { t.old.calls ≡ [] }
    requires memory { t.old.starved ≡ false }
    requires interval { IsGrantable interval }
    ensures same { t.new.shown ≡ t.old.shown }
    ensures played { OnOk result
        (IsPlayed
        (accepted_then (answer_with req 200 ok (granted_fields (granted_of interval)))
        (begin_timed sess t.old.shown (granted_of interval))) t.old t.new) }
{
    let what = stop_of(memory_of(t), shown(t), sess)?;
    accept_with(t, req, sess, interval, &what)
}

#[tactic(auto, unfolding(sc_hosts::specs::Words::ok), using(sc_helpers::proofs::LedLaws::accepted_on, sc_helpers::proofs::LedLaws::accepted_off))]
fn accept_with(
    t: &mut Turn,
    req: ReqId,
    sess: SessId,
    interval: Interval,
    what: &Stop,
) -> Result<(), NoMemory>
    requires room { (play_of t.old).listed + 4 < MOST_CALLS }
    requires interval { IsGrantable interval }
    ensures same { t.new.shown ≡ t.old.shown }
    ensures played { OnOk result
        (IsPlayed
        (accepted_then (answer_with req 200 ok (granted_fields (granted_of interval)))
        (begun_by what.now sess (granted_of interval))) t.old t.new) }
{
    let fields = granted_fields(memory_of(t), interval)?;
    if !answer_first(t, req, 200, b"OK", fields)? {
        return Ok(());
    }
    play_begin(t, sess, interval, what)
}

#[tactic(auto, using(crate::proofs::TimedPlays::begin_played, crate::proofs::TimedPlays::begin_heard))]
fn play_begin(t: &mut Turn, sess: SessId, interval: Interval, what: &Stop) -> Result<(), NoMemory>
    requires room { (play_of t.old).listed + 3 < MOST_CALLS }
    requires interval { IsGrantable interval }
    ensures same { t.new.shown ≡ t.old.shown }
    ensures played { OnOk result
        (IsPlayed (begun_by what.now sess (granted_of interval)) t.old t.new) }
{
    match begin_by(t, sess, interval, what) {
        Ok(()) => Ok(()),
        Err(stop) => heard(stop),
    }
}

/// Begins a session timer, as granted, once the old one is stopped.
#[tactic(auto, unfolding(crate::specs::TimedScripts::begun_by, crate::specs::Intervals::granted_of, crate::specs::Intervals::IsGrantable))]
pub fn begin_by(
    turn: &mut Turn,
    sess: SessId,
    interval: Interval,
    what: &Stop,
) -> Result<(), Stopped>
    requires interval { IsGrantable interval }
    ensures same { turn.new.shown ≡ turn.old.shown }
    ensures goes { Goes 0 (begun_by what.now sess (granted_of interval)) turn.old result turn.new }
{
    match interval {
        Interval::Off => stop_only(turn, what),
        Interval::TooSmall => stop_only(turn, what),
        Interval::On(seconds, me) => restart(turn, sess, seconds, me, what),
    }
}

/// Stops a session timer and begins one of so many seconds.
#[tactic(auto, using(crate::proofs::TimedLed::stopped_on, crate::proofs::TimedLed::stopped_off))]
pub fn restart(
    turn: &mut Turn,
    sess: SessId,
    seconds: u32,
    me: bool,
    what: &Stop,
) -> Result<(), Stopped>
    requires interval { seconds ≤ 4000000 }
    ensures same { turn.new.shown ≡ turn.old.shown }
    ensures goes { Goes 0 (script_with_stop what.now (script_with_timer sess seconds me)) turn.old
        result turn.new }
{
    match stop_timer(turn, 0, what) {
        Ok(made) => start(turn, made, sess, seconds, me),
        Err(stop) => Err(stop),
    }
}

#[tactic(auto, using(sc_helpers::proofs::Steps::given_wanting))]
fn start_named(turn: &mut Turn, made: u8, sess: SessId, delay_ms: u32) -> Result<u64, Stopped>
    ensures same { turn.new.shown ≡ turn.old.shown }
    ensures given { Gives (Call.StartTimer delay_ms Once (timed_name sess)) made turn.old result
        turn.new }
{
    match timed_name(memory_of(turn), sess) {
        Ok(name) => try_start_timer(turn, made, delay_ms, name),
        Err(NoMemory) => Err(wanting(made)),
    }
}

#[tactic(auto, unfolding(crate::specs::TimedScripts::script_with_timer), using(sc_helpers::proofs::Steps::number_on, sc_helpers::proofs::Steps::number_off))]
fn start(turn: &mut Turn, made: u8, sess: SessId, seconds: u32, me: bool) -> Result<(), Stopped>
    requires few { made < 90 }
    requires interval { seconds ≤ 4000000 }
    ensures same { turn.new.shown ≡ turn.old.shown }
    ensures goes { Goes made (script_with_timer sess seconds me) turn.old result turn.new }
{
    match start_named(turn, made, sess, deadline(seconds, me)) {
        Ok(timer) => note(turn, made + 1, sess, seconds, me, timer),
        Err(stop) => Err(stop),
    }
}

fn noted(
    alloc: Global,
    sess: SessId,
    seconds: u32,
    me: bool,
    timer: u64,
) -> Result<(Text, Text), NoMemory>
    ensures { IfOk result
        (λ texts. (texts.0 ≡ timed_name sess) × (texts.1 ≡ timed_text seconds me timer)) }
{
    let name = timed_name(alloc, sess)?;
    let value = timed_text(alloc, seconds, me, timer)?;
    Ok((name, value))
}

#[tactic(auto, using(sc_helpers::proofs::Steps::led_wanting))]
fn set_noted(
    turn: &mut Turn,
    made: u8,
    sess: SessId,
    seconds: u32,
    me: bool,
    timer: u64,
) -> Result<u8, Stopped>
    requires few { made < 100 }
    ensures same { turn.new.shown ≡ turn.old.shown }
    ensures led { Leads
        (accepted_then (Call.SetAttribute (timed_name sess) (timed_text seconds me timer))) made
        turn.old result turn.new }
{
    match noted(memory_of(turn), sess, seconds, me, timer) {
        Ok((name, value)) => try_set_attribute(turn, made, name, value),
        Err(NoMemory) => Err(wanting(made)),
    }
}

/// Notes the timer of a session behind so many accepted calls, and makes no other call.
#[tactic(auto, using(sc_helpers::proofs::Steps::last_on, sc_helpers::proofs::Steps::last_off))]
pub fn note(
    turn: &mut Turn,
    made: u8,
    sess: SessId,
    seconds: u32,
    me: bool,
    timer: u64,
) -> Result<(), Stopped>
    requires few { made < 100 }
    ensures same { turn.new.shown ≡ turn.old.shown }
    ensures goes { Goes made
        (only (Call.SetAttribute (timed_name sess) (timed_text seconds me timer))) turn.old result
        turn.new }
{
    match set_noted(turn, made, sess, seconds, me, timer) {
        Ok(_) => Ok(()),
        Err(stop) => Err(stop),
    }
}
