//! The steps that the bytes of a place make (RFC 3261 section 18.3).

ghost use Rattle.sc_hosts.specs.Runs.{HasVia};

use crate::telling::{tell_bad, tell_bytes, tell_long, tell_lost, tell_message, tell_sent};
use sc_ladder::{Stop, Story, Told, told_message};
use sc_stream::Heard;
use sc_streams::Streams;
use sc_switch::{StepRefused, Switch};
use sc_terms::Bad;
use sc_value::{Discard, Message, NoMemory, Place};
use std::alloc::Global;

/// More messages than bytes may come in a line.
const MOST_MESSAGES: u32 = 131_072;

/// Bytes come from a place.
pub fn hear_text(
    alloc: Global,
    place: Place,
    text: &[u8],
    streams: &mut Streams,
    switch: &mut Switch,
    story: &mut Story,
) -> Result<(), StepRefused> {
    streams.feed(alloc, place, text)?;
    let before = story.rows.len();
    hear_all(alloc, place, streams, switch, story)?;
    if story.rows.len() == before {
        tell_bytes(alloc, switch.now(), place, text.len(), story)?;
    }
    Ok(())
}

/// Takes the steps of all messages that are whole in what is kept of a place.
fn hear_all(
    alloc: Global,
    place: Place,
    streams: &mut Streams,
    switch: &mut Switch,
    story: &mut Story,
) -> Result<(), StepRefused> {
    for _ in 0..MOST_MESSAGES {
        if !hear(alloc, place, streams, switch, story)? {
            return Ok(());
        }
    }
    Ok(())
}

/// Takes the step of the next message: false where that was all that there is to hear.
#[tactic(auto, using(sc_follow::proofs::Hearings::some_via))]
fn hear(
    alloc: Global,
    place: Place,
    streams: &mut Streams,
    switch: &mut Switch,
    story: &mut Story,
) -> Result<bool, StepRefused> {
    match streams.next(place) {
        Heard::Message(message) => take_message(alloc, place, message, switch, story),
        Heard::NotYet => Ok(false),
        Heard::Bad(bad) => end_bad(alloc, place, bad, streams, switch, story),
        Heard::Long => end_long(alloc, place, streams, switch, story),
        Heard::NoMemory => Err(StepRefused::NoMemory),
    }
}

/// A message comes from a place.
pub fn take_message(
    alloc: Global,
    place: Place,
    message: Message,
    switch: &mut Switch,
    story: &mut Story,
) -> Result<bool, StepRefused>
    requires via { HasVia message }
{
    match told_message(alloc, &message) {
        Ok(told) => arrive(alloc, place, message, told, switch, story),
        Err(NoMemory) => {
            message.discard();
            Err(StepRefused::NoMemory)
        }
    }
}

fn arrive(
    alloc: Global,
    place: Place,
    message: Message,
    told: Told,
    switch: &mut Switch,
    story: &mut Story,
) -> Result<bool, StepRefused>
    requires via { HasVia message }
{
    let before = switch.waiting();
    switch.arrive(alloc, place, message)?;
    let is_queued = switch.waiting() > before;
    tell_message(alloc, switch, place, told, is_queued, story)?;
    tell_sent(alloc, switch, Stop::Edge, story)?;
    Ok(true)
}

/// A text is no message, and nothing behind it is heard.
fn end_bad(
    alloc: Global,
    place: Place,
    bad: Bad,
    streams: &mut Streams,
    switch: &mut Switch,
    story: &mut Story,
) -> Result<bool, StepRefused> {
    take_bad(alloc, place, bad, switch, story)?;
    lose(alloc, place, streams, switch, story)?;
    Ok(false)
}

/// A text comes from a place that is no message.
pub fn take_bad(
    alloc: Global,
    place: Place,
    bad: Bad,
    switch: &mut Switch,
    story: &mut Story,
) -> Result<(), StepRefused> {
    let at = bad.at;
    let kind = bad.kind;
    switch.hear_bad(alloc, place, bad)?;
    tell_bad(alloc, switch.now(), place, at, kind, story)?;
    tell_sent(alloc, switch, Stop::Edge, story)?;
    Ok(())
}

/// A text is too long, and nothing behind it is heard.
fn end_long(
    alloc: Global,
    place: Place,
    streams: &mut Streams,
    switch: &mut Switch,
    story: &mut Story,
) -> Result<bool, StepRefused> {
    tell_long(alloc, switch.now(), place, story)?;
    lose(alloc, place, streams, switch, story)?;
    Ok(false)
}

/// A place is lost, and what is kept of its stream is dropped.
pub fn lose(
    alloc: Global,
    place: Place,
    streams: &mut Streams,
    switch: &mut Switch,
    story: &mut Story,
) -> Result<(), StepRefused> {
    lose_place(alloc, place, switch, story)?;
    streams.drop_of(place);
    Ok(())
}

/// A place is lost.
pub fn lose_place(
    alloc: Global,
    place: Place,
    switch: &mut Switch,
    story: &mut Story,
) -> Result<(), StepRefused> {
    switch.lost(alloc, place)?;
    tell_lost(alloc, switch.now(), place, story)?;
    tell_sent(alloc, switch, Stop::Edge, story)?;
    Ok(())
}
