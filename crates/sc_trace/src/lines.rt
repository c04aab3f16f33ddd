//! The steps of the lines of a script.

use crate::hearing::{hear_text, lose};
use crate::telling::{tell_sent, tell_tick, tell_withdrawn};
use crate::turns::{take_turn_of, take_turns};
use sc_ladder::{Stop, Story};
use sc_servlets::Catalogue;
use sc_streams::Streams;
use sc_switch::{StepRefused, Switch};
use sc_terms::Line;
use sc_value::{AppId, Place};
use std::alloc::Global;

/// Takes the steps that the lines of a script say, and tells them.
///
/// # Errors
///
/// `JournalFull` where the journal has no room for the step that is due, and `NoMemory`. The steps
/// before it stand, and are told.
pub fn follow(
    alloc: Global,
    apps: &Catalogue,
    lines: &[Line],
    switch: &mut Switch,
    story: &mut Story,
) -> Result<(), StepRefused> {
    let mut streams = Streams::new(alloc);
    for line in lines {
        do_line(alloc, apps, line, &mut streams, switch, story)?;
    }
    Ok(())
}

fn do_line(
    alloc: Global,
    apps: &Catalogue,
    line: &Line,
    streams: &mut Streams,
    switch: &mut Switch,
    story: &mut Story,
) -> Result<(), StepRefused> {
    match line {
        Line::In(place, text) => hear_text(alloc, *place, text.as_bytes(), streams, switch, story),
        Line::Turn(app) => take_turn_of(alloc, apps, *app, switch, story),
        Line::Run => take_turns(alloc, apps, switch, story),
        Line::Tick(now) => do_tick(alloc, *now, switch, story),
        Line::Lost(place) => lose(alloc, *place, streams, switch, story),
        Line::Drop(app) => do_drop(alloc, *app, switch, story),
        Line::End => Ok(()),
    }
}

/// The clock reaches a moment, where it isn't below the last one.
fn do_tick(
    alloc: Global,
    now: u64,
    switch: &mut Switch,
    story: &mut Story,
) -> Result<(), StepRefused> {
    if switch.now() > now || now > 9_223_372_036_854_775_808 {
        return Ok(());
    }
    switch.tick(alloc, now)?;
    tell_tick(alloc, now, story)?;
    tell_sent(alloc, switch, Stop::Edge, story)?;
    Ok(())
}

/// An application session is ended, where it lives.
pub fn do_drop(
    alloc: Global,
    app: AppId,
    switch: &mut Switch,
    story: &mut Story,
) -> Result<(), StepRefused> {
    let lived = switch.withdraw(alloc, app)?;
    tell_withdrawn(alloc, switch.now(), app, lived, story)?;
    tell_sent(alloc, switch, Stop::App(app.host), story)?;
    Ok(())
}
