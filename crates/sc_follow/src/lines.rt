//! The steps of one line.

ghost use Rattle.std.specs.Prelude.{◌≡◌, ◌&&◌, nat_le, is_some, map, option_map, IfErr, OnOk};
ghost use Rattle.sc_servlets.specs.Stated.{both_charters};
ghost use Rattle.sc_model.specs.Settings.{IsSetup};
ghost use Rattle.sc_terms.specs.declared.steps.Line.TheVariants as lines;
ghost use Rattle.sc_hosts.specs.Histories.{as_session};
ghost use Rattle.sc_hosts.specs.Steps.{live_at};
ghost use Rattle.sc_runs.specs.Following.{Does, tick_to, withdrawal};
ghost use Rattle.sc_streams.specs.Streaming.{bytes_of};
ghost use Rattle.sc_switch.specs.Standing.{net_of};
ghost use Rattle.sc_follow.specs.Moving.{IsUntaken, IsFree, IsCut, IsDone, DoesUpto};
ghost use Rattle.sc_follow.specs.Hearing.{TicksUpto, WithdrawsUpto};

use crate::hearing::hear_all;
use crate::playing::{play, play_of};
use crate::stepping::{lost, tick, withdraw};
use sc_servlets::Catalogue;
use sc_streams::Streams;
use sc_switch::{StepRefused, Switch};
use sc_terms::Line;
use sc_value::{AppId, NoMemory, Place};
use std::alloc::Global;

/// Takes the steps that a line says.
///
/// # Errors
///
/// `JournalFull` where the journal has no room for the step that is due, and `NoMemory`. The steps
/// before it stand.
pub fn do_line(
    alloc: Global,
    switch: &mut Switch,
    streams: &mut Streams,
    apps: &Catalogue,
    line: &Line,
) -> Result<(), StepRefused>
    requires right { IsSetup switch.old.setup }
    requires kinds { switch.old.setup.kinds
        ≡ map
        (λ k.
        both_charters (stated (k.servlet.vtable, k.servlet.value))
        (option_map (λ l. listens (l.vtable, l.value)) k.listener)) apps.now.kinds }
    requires untaken { IsUntaken switch.old }
    requires free { IsFree switch.old }
    ensures ok { OnOk result
        (IsDone
        (λ made.
        Does as_session switch.old.setup (net_of switch.old) (bytes_of streams.old) line.now
        made (bytes_of streams.new)) switch.old switch.new) }
    ensures err { IfErr result
        (λ cause.
        IsCut (DoesUpto switch.old (bytes_of streams.old) line.now) switch.old switch.new cause) }
{
    match line {
        Line::In(place, text) => do_in(alloc, switch, streams, *place, text.as_bytes()),
        Line::Turn(app) => play_of(alloc, switch, apps, *app),
        Line::Run => play(alloc, switch, apps),
        Line::Tick(now) => do_tick(alloc, switch, *now),
        Line::Lost(place) => do_lost(alloc, switch, streams, *place),
        Line::Drop(app) => do_drop(alloc, switch, *app),
        Line::End => Ok(()),
    }
}

/// Bytes come from a place.
fn do_in(
    alloc: Global,
    switch: &mut Switch,
    streams: &mut Streams,
    place: Place,
    text: &[u8],
) -> Result<(), StepRefused>
    requires untaken { IsUntaken switch.old }
    requires free { IsFree switch.old }
    ensures ok { OnOk result
        (IsDone
        (λ made.
        Does as_session switch.old.setup (net_of switch.old) (bytes_of streams.old)
        (Line.In place text.now) made (bytes_of streams.new)) switch.old switch.new) }
    ensures err { IfErr result
        (λ cause.
        IsCut (DoesUpto switch.old (bytes_of streams.old) (Line.In place text.now)) switch.old
        switch.new cause) }
{
    match streams.feed(alloc, place, text) {
        Ok(()) => hear_all(alloc, switch, streams, place),
        Err(NoMemory) => Err(StepRefused::NoMemory),
    }
}

/// The clock reaches a moment, where it isn't below the last one.
#[tactic(auto, unfolding(sc_runs::specs::Following::tick_to))]
fn do_tick(alloc: Global, switch: &mut Switch, now: u64) -> Result<(), StepRefused>
    requires untaken { IsUntaken switch.old }
    requires free { IsFree switch.old }
    ensures ok { OnOk result
        (IsDone (λ made. made ≡ tick_to (net_of switch.old).moment now) switch.old switch.new) }
    ensures err { IfErr result
        (λ cause. IsCut (TicksUpto (net_of switch.old).moment now) switch.old switch.new cause) }
{
    if is_tickable(switch.now(), now) {
        tick(alloc, switch, now)
    } else {
        Ok(())
    }
}

/// Whether the clock may reach a moment after this one.
fn is_tickable(moment: u64, now: u64) -> bool
    ensures { result ≡ (nat_le moment now && nat_le now 9223372036854775808) }
{
    moment <= now && now <= 9_223_372_036_854_775_808
}

/// A place is lost, and what is kept of its stream is dropped.
fn do_lost(
    alloc: Global,
    switch: &mut Switch,
    streams: &mut Streams,
    place: Place,
) -> Result<(), StepRefused>
    requires untaken { IsUntaken switch.old }
    requires free { IsFree switch.old }
    ensures ok { OnOk result
        (IsDone
        (λ made.
        Does as_session switch.old.setup (net_of switch.old) (bytes_of streams.old)
        (Line.Lost place) made (bytes_of streams.new)) switch.old switch.new) }
    ensures err { IfErr result
        (λ cause.
        IsCut (DoesUpto switch.old (bytes_of streams.old) (Line.Lost place)) switch.old switch.new
        cause) }
{
    match lost(alloc, switch, place) {
        Ok(()) => {
            streams.drop_of(place);
            Ok(())
        }
        Err(cause) => Err(cause),
    }
}

/// An application session is ended, where it lives.
fn do_drop(alloc: Global, switch: &mut Switch, app: AppId) -> Result<(), StepRefused>
    requires untaken { IsUntaken switch.old }
    requires free { IsFree switch.old }
    ensures ok { OnOk result
        (IsDone (λ made. made ≡ withdrawal app (is_some (live_at app (net_of switch.old))))
        switch.old switch.new) }
    ensures err { IfErr result
        (λ cause.
        IsCut (WithdrawsUpto app (is_some (live_at app (net_of switch.old)))) switch.old
        switch.new cause) }
{
    match withdraw(alloc, switch, app) {
        Ok(_) => Ok(()),
        Err(cause) => Err(cause),
    }
}
