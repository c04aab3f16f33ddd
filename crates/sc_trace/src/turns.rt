//! The turns of a run.

use crate::telling::{tell_idle, tell_sent, tell_shown, tell_turn};
use sc_ladder::{Stop, Story};
use sc_servlets::{Catalogue, Done, Lease};
use sc_switch::{CommitRefused, StepRefused, Switch};
use sc_terms::End;
use sc_value::{AppId, Discard, NoMemory};
use std::alloc::Global;

/// More turns than a journal has steps.
const MOST_TURNS: u32 = 1_000_001;

/// Takes turns until no event waits.
pub fn take_turns(
    alloc: Global,
    apps: &Catalogue,
    switch: &mut Switch,
    story: &mut Story,
) -> Result<(), StepRefused> {
    for _ in 0..MOST_TURNS {
        if !take_turn(alloc, apps, switch, story)? {
            return Ok(());
        }
    }
    Ok(())
}

/// Takes the turn of the lowest event that waits: false where none does.
fn take_turn(
    alloc: Global,
    apps: &Catalogue,
    switch: &mut Switch,
    story: &mut Story,
) -> Result<bool, StepRefused> {
    match switch.lease(alloc)? {
        Some(lease) => bring(alloc, apps, lease, switch, story),
        None => Ok(false),
    }
}

/// Takes the turn of the first event of a session, where one waits for it.
pub fn take_turn_of(
    alloc: Global,
    apps: &Catalogue,
    app: AppId,
    switch: &mut Switch,
    story: &mut Story,
) -> Result<(), StepRefused> {
    match switch.lease_of(alloc, app)? {
        Some(lease) => {
            let _ = bring(alloc, apps, lease, switch, story)?;
            Ok(())
        }
        None => {
            tell_idle(alloc, switch.now(), app, story)?;
            Ok(())
        }
    }
}

/// Makes the turn of a lease and commits it: false where the catalogue hasn't the lease's kind,
/// which no switch over that catalogue lends.
pub fn bring(
    alloc: Global,
    apps: &Catalogue,
    lease: Lease,
    switch: &mut Switch,
    story: &mut Story,
) -> Result<bool, StepRefused> {
    if lease.kind >= apps.kinds.len() {
        lease.discard();
        return Ok(false);
    }
    settle(alloc, apps.react(alloc, lease), switch, story)?;
    Ok(true)
}

/// Commits a turn, unless it ended for want of memory.
fn settle(
    alloc: Global,
    done: Done,
    switch: &mut Switch,
    story: &mut Story,
) -> Result<(), StepRefused> {
    if let End::Starved = done.end {
        done.discard();
        return Err(StepRefused::NoMemory);
    }
    let before = story.rows.len();
    let app = done.lease.app;
    match tell_made(alloc, switch.now(), &done, story) {
        Ok(()) => commit(alloc, done, before, switch, story)?,
        Err(NoMemory) => {
            done.discard();
            return Err(StepRefused::NoMemory);
        }
    }
    tell_sent(alloc, switch, Stop::App(app.host), story)?;
    Ok(())
}

fn tell_made(alloc: Global, now: u64, done: &Done, story: &mut Story) -> Result<(), NoMemory> {
    tell_shown(alloc, done, &mut story.rows.items)?;
    tell_turn(alloc, now, done, story)
}

/// Commits a turn that was told. One that is refused is no longer told.
fn commit(
    alloc: Global,
    done: Done,
    before: usize,
    switch: &mut Switch,
    story: &mut Story,
) -> Result<(), StepRefused> {
    match switch.commit(alloc, done) {
        Ok(_) => Ok(()),
        Err(CommitRefused { done, cause }) => {
            done.discard();
            story.rows.items.truncate(before);
            Err(cause)
        }
    }
}
