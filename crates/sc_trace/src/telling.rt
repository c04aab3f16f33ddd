//! The rows of what a step did.

use sc_ladder::{
    Mark, Row, Stop, Story, Told, add_coming, add_row, show_to, told_event, write_event,
    write_message, write_place, write_record, write_session,
};
use sc_servlets::Done;
use sc_switch::Switch;
use sc_terms::{CallRecord, End};
use sc_value::{AppId, CloneIn, Discard, List, NoMemory, Place, Sent, Text, sum, write_u64};
use std::alloc::Global;

/// A message came from a place. Where it queued no event and nothing was sent the row says so.
pub fn tell_message(
    alloc: Global,
    switch: &Switch,
    from: Place,
    told: Told,
    is_queued: bool,
    story: &mut Story,
) -> Result<(), NoMemory> {
    let mut text = told.label.clone_in(alloc)?;
    if is_queued {
        return add_coming(switch.now(), from, told, text, story);
    }
    if switch.untaken() == 0 {
        text.append(b": ends here")?;
    }
    add_row(switch.now(), arrow_in(from), text, story)
}

/// Bytes came from a place, behind which no message is whole.
pub fn tell_bytes(
    alloc: Global,
    now: u64,
    from: Place,
    count: usize,
    story: &mut Story,
) -> Result<(), NoMemory> {
    let mut text = Text::new(alloc);
    write_u64(count as u64, &mut text)?;
    text.append(b" bytes: no whole message yet")?;
    add_row(now, arrow_in(from), text, story)
}

/// A text came that is no message.
pub fn tell_bad(
    alloc: Global,
    now: u64,
    from: Place,
    at: usize,
    kind: u8,
    story: &mut Story,
) -> Result<(), NoMemory> {
    let mut text = Text::new(alloc);
    text.append(b"no message: fault ")?;
    write_u64(u64::from(kind), &mut text)?;
    text.append(b" at byte ")?;
    write_u64(at as u64, &mut text)?;
    add_row(now, arrow_in(from), text, story)
}

/// More bytes came than a message may have.
pub fn tell_long(alloc: Global, now: u64, from: Place, story: &mut Story) -> Result<(), NoMemory> {
    let text = Text::from_slice(alloc, b"no message: too long")?;
    add_row(now, arrow_in(from), text, story)
}

fn arrow_in(from: Place) -> Mark {
    Mark::Arrow {
        from: Stop::Outside(from),
        to: Stop::Edge,
    }
}

/// A place was lost.
pub fn tell_lost(alloc: Global, now: u64, at: Place, story: &mut Story) -> Result<(), NoMemory> {
    let mut text = Text::from_slice(alloc, b"lost ")?;
    write_place(at, &mut text)?;
    add_row(now, Mark::Cut(Stop::Outside(at)), text, story)
}

/// The clock reached a moment.
pub fn tell_tick(alloc: Global, now: u64, story: &mut Story) -> Result<(), NoMemory> {
    let mut text = Text::from_slice(alloc, b"tick ")?;
    write_u64(now, &mut text)?;
    add_row(now, Mark::Blank, text, story)
}

/// An epoch ended: from here on sessions are numbered anew.
pub fn tell_epoch(alloc: Global, now: u64, story: &mut Story) -> Result<(), NoMemory> {
    let text = Text::from_slice(alloc, b"the epoch ends")?;
    add_row(now, Mark::Blank, text, story)
}

/// A session was ended from outside, or didn't live.
pub fn tell_withdrawn(
    alloc: Global,
    now: u64,
    app: AppId,
    lived: bool,
    story: &mut Story,
) -> Result<(), NoMemory> {
    let mut text = Text::from_slice(alloc, b"drop ")?;
    write_session(app, story.names.as_slice(), &mut text)?;
    if lived {
        return add_row(now, Mark::Cut(Stop::App(app.host)), text, story);
    }
    text.append(b": does not live")?;
    add_row(now, Mark::Blank, text, story)
}

/// No event waits for a session that was to take a turn.
pub fn tell_idle(alloc: Global, now: u64, app: AppId, story: &mut Story) -> Result<(), NoMemory> {
    let mut text = Text::new(alloc);
    write_session(app, story.names.as_slice(), &mut text)?;
    text.append(b": no event waits")?;
    add_row(now, Mark::Blank, text, story)
}

/// A turn was made: its session with the event, and its calls.
pub fn tell_turn(alloc: Global, now: u64, done: &Done, story: &mut Story) -> Result<(), NoMemory> {
    let app = done.lease.app;
    let mut text = Text::new(alloc);
    write_session(app, story.names.as_slice(), &mut text)?;
    text.append(b": ")?;
    write_event(&done.lease.event, &mut text)?;
    if let End::Fault = done.end {
        text.append(b": fault")?;
    }
    add_row(now, Mark::Turn(Stop::App(app.host)), text, story)?;
    tell_calls(alloc, now, app.host, done.calls.as_slice(), story)
}

fn tell_calls(
    alloc: Global,
    now: u64,
    host: u32,
    calls: &[CallRecord],
    story: &mut Story,
) -> Result<(), NoMemory> {
    for call in calls {
        let mut text = Text::from_slice(alloc, b"  ")?;
        write_record(call, &mut text)?;
        add_row(now, Mark::Call(Stop::App(host)), text, story)?;
    }
    Ok(())
}

/// A turn shows a message that came: its arrow goes to the turn's application.
pub fn tell_shown(alloc: Global, done: &Done, rows: &mut [Row]) -> Result<(), NoMemory> {
    match told_event(alloc, &done.lease.event)? {
        Some(told) => {
            show_to(done.lease.app, &told, rows);
            Ok(())
        }
        None => Ok(()),
    }
}

/// Takes all that was sent, and tells it as sent from here.
pub fn tell_sent(
    alloc: Global,
    switch: &mut Switch,
    from: Stop,
    story: &mut Story,
) -> Result<(), NoMemory> {
    for _ in 0..switch.untaken() {
        match switch.take_sent() {
            Some(sent) => take_one(alloc, switch.now(), sent, from, story)?,
            None => return Ok(()),
        }
    }
    Ok(())
}

fn take_one(
    alloc: Global,
    now: u64,
    sent: Sent,
    from: Stop,
    story: &mut Story,
) -> Result<(), NoMemory> {
    let told = tell_one(alloc, now, &sent, from, story);
    sent.discard();
    told
}

fn tell_one(
    alloc: Global,
    now: u64,
    sent: &Sent,
    from: Stop,
    story: &mut Story,
) -> Result<(), NoMemory> {
    let mut text = Text::new(alloc);
    write_message(&sent.message, &mut text)?;
    story.sent = sum(story.sent, 1)?;
    let mark = Mark::Arrow {
        from,
        to: Stop::Outside(sent.place),
    };
    add_row(now, mark, text, story)
}

/// The names of sessions, one a line.
pub fn write_living(living: &List<AppId>, names: &[Text], out: &mut Text) -> Result<(), NoMemory> {
    for app in living.as_slice() {
        out.append(b"lives ")?;
        write_session(*app, names, out)?;
        out.append(b"\n")?;
    }
    Ok(())
}
