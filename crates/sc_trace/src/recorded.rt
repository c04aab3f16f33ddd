//! The steps of the rows of a recording.

use crate::hearing::{lose_place, take_bad, take_message};
use crate::lines::do_drop;
use crate::telling::{tell_epoch, tell_sent, tell_tick};
use crate::turns::bring;
use sc_ladder::{Stop, Story};
use sc_play::{
    APART, Entry, Player, Unplayed, Untaken, end_epoch, forget, heads_in, is_last_step, lease_for,
    lend_early, row_at, status_of,
};
use sc_replay::Status;
use sc_servlets::Catalogue;
use sc_stream::{Heard, Stream};
use sc_switch::Switch;
use sc_terms::Bad;
use sc_value::{AppId, NoMemory, Place};
use std::alloc::Global;

/// Takes the steps of a recording, as `play` does, and tells them: how many they are.
///
/// # Errors
///
/// The status with which `play` ends. The steps before it stand, and are told.
pub fn follow_rows(
    alloc: Global,
    apps: &Catalogue,
    text: &[u8],
    player: &mut Player,
    story: &mut Story,
) -> Result<u64, Status> {
    let mut steps: u64 = 0;
    let mut at = 0;
    while at < text.len() {
        match row_at(&text[at..]) {
            Ok(row) => {
                let bytes = &text[at..at + row.len];
                match play_row(alloc, apps, &row.entry, bytes, player, story) {
                    Ok(count) => steps = steps.saturating_add(count),
                    Err(cause) => return Err(status_of(at, cause)),
                }
                at += row.len;
            }
            Err(kind) => return Err(status_of(at, Unplayed::Refused(kind))),
        }
    }
    Ok(steps)
}

/// Plays a row of these bytes: how many steps it is.
fn play_row(
    alloc: Global,
    apps: &Catalogue,
    entry: &Entry<'_>,
    bytes: &[u8],
    player: &mut Player,
    story: &mut Story,
) -> Result<u64, Unplayed> {
    if let Entry::Epoch = entry {
        end_epoch(alloc, bytes, &mut player.switch)?;
        tell_epoch(alloc, player.switch.now(), story)?;
        return Ok(0);
    }
    take_step(alloc, apps, entry, player, story)?;
    if !is_last_step(alloc, bytes, &mut player.switch)? {
        return Err(Unplayed::Refused(APART));
    }
    Ok(1)
}

/// Takes the step of a row other than the end of an epoch.
fn take_step(
    alloc: Global,
    apps: &Catalogue,
    entry: &Entry<'_>,
    player: &mut Player,
    story: &mut Story,
) -> Result<(), Untaken> {
    match entry {
        Entry::In(place, text) => hear_message(alloc, *place, text, &mut player.switch, story),
        Entry::Bad(place, at, kind, lines) => {
            let heads = heads_in(alloc, lines)?;
            let bad = Bad {
                at: *at,
                kind: *kind,
                heads,
            };
            take_bad(alloc, *place, bad, &mut player.switch, story)?;
            Ok(())
        }
        Entry::Lost(place) => {
            lose_place(alloc, *place, &mut player.switch, story)?;
            Ok(())
        }
        Entry::Tick(now) => go_on(alloc, *now, player, story),
        Entry::Turn(app, _) => take_turn(alloc, apps, *app, player, story),
        Entry::Drop(app) => {
            do_drop(alloc, *app, &mut player.switch, story)?;
            forget(*app, &mut player.lent);
            Ok(())
        }
        Entry::Epoch => Err(Untaken::Apart),
    }
}

/// The message of this text comes.
fn hear_message(
    alloc: Global,
    place: Place,
    text: &[u8],
    switch: &mut Switch,
    story: &mut Story,
) -> Result<(), Untaken> {
    let mut stream = Stream::new(alloc);
    match stream.feed(text) {
        Ok(()) => hear_next(alloc, place, &mut stream, switch, story),
        Err(NoMemory) => Err(Untaken::NoMemory),
    }
}

/// The next message of a stream comes.
#[tactic(auto, using(sc_follow::proofs::Hearings::some_via))]
fn hear_next(
    alloc: Global,
    place: Place,
    stream: &mut Stream,
    switch: &mut Switch,
    story: &mut Story,
) -> Result<(), Untaken> {
    match stream.next() {
        Heard::Message(message) => match take_message(alloc, place, message, switch, story) {
            Ok(_) => Ok(()),
            Err(cause) => Err(Untaken::from(cause)),
        },
        Heard::NoMemory => Err(Untaken::NoMemory),
        _ => Err(Untaken::Apart),
    }
}

/// The clock reaches a moment, which is told where it made something of itself. The turns that are
/// made behind it are lent out before.
fn go_on(alloc: Global, now: u64, player: &mut Player, story: &mut Story) -> Result<(), Untaken> {
    lend_early(alloc, player)?;
    let switch = &mut player.switch;
    if switch.now() > now || now > 9_223_372_036_854_775_808 {
        return Err(Untaken::Apart);
    }
    let before = switch.waiting();
    switch.tick(alloc, now)?;
    if switch.waiting() > before || switch.untaken() > 0 {
        tell_tick(alloc, now, story)?;
    }
    tell_sent(alloc, switch, Stop::Edge, story)?;
    Ok(())
}

/// Makes the turn of a session that was lent out, or is lent out now, and commits it.
fn take_turn(
    alloc: Global,
    apps: &Catalogue,
    app: AppId,
    player: &mut Player,
    story: &mut Story,
) -> Result<(), Untaken> {
    let Some(lease) = lease_for(alloc, app, player)? else {
        return Err(Untaken::Apart);
    };
    if !bring(alloc, apps, lease, &mut player.switch, story)? {
        return Err(Untaken::Apart);
    }
    Ok(())
}
