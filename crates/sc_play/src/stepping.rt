//! One step of a recording, taken again on a switch.

ghost use Rattle.std.specs.Prelude.{◌≡◌, OnOk};
ghost use Rattle.sc_play.specs.Played.{Lent, Took};

use crate::early::Early;
use crate::hearing::heads_in;
use crate::rows::Entry;
use sc_servlets::{Catalogue, Done, Lease};
use sc_stream::{Heard, Stream};
use sc_switch::{CommitRefused, Committed, StepRefused, Switch};
use sc_terms::{Bad, End};
use sc_value::{AppId, Discard, List, NoMemory, Place};
use std::alloc::Global;

/// Why a step isn't taken.
#[derive(Clone, Copy, Debug, PartialEq, Eq)]
pub enum Untaken {
    /// There is no such step.
    Apart,
    /// The journal has no room for it.
    JournalFull,
    /// There was no memory.
    NoMemory,
}

impl From<NoMemory> for Untaken {
    fn from(_cause: NoMemory) -> Untaken {
        Untaken::NoMemory
    }
}

impl From<StepRefused> for Untaken {
    fn from(cause: StepRefused) -> Untaken {
        match cause {
            StepRefused::JournalFull { .. } => Untaken::JournalFull,
            StepRefused::NoMemory => Untaken::NoMemory,
        }
    }
}

/// A switch, with the turns that are lent out before the clock goes on.
pub struct Player {
    pub switch: Switch,
    /// The turns that were lent out, and not made yet.
    pub lent: List<Lease>,
    /// The turns that are to be lent out before the clock goes on, by their moments.
    pub early: Vec<Early>,
    /// How many of them were lent out.
    pub done: usize,
}

impl Player {
    /// A player that lent out none of these turns, which stand by their moments.
    pub fn new(alloc: Global, switch: Switch, early: Vec<Early>) -> Player
        ensures { result.switch ≡ switch }
    {
        Player {
            switch,
            lent: List::new(alloc),
            early,
            done: 0,
        }
    }
}

impl Discard for Player {
    fn discard(self) {
        let Player {
            switch,
            lent,
            early,
            done: _,
        } = self;
        drop(switch);
        drop(lent);
        drop(early);
    }
}

/// Takes the step of a row other than the end of an epoch.
pub fn take_step(
    alloc: Global,
    apps: &Catalogue,
    entry: &Entry<'_>,
    player: &mut Player,
) -> Result<(), Untaken>
    ensures { OnOk result (Took player.old.switch player.new.switch) }
{
    match entry {
        Entry::In(place, text) => take_message(alloc, *place, text, &mut player.switch),
        Entry::Bad(place, at, kind, lines) => {
            take_bad(alloc, *place, *at, *kind, lines, &mut player.switch)
        }
        Entry::Lost(place) => take_loss(alloc, *place, &mut player.switch),
        Entry::Tick(now) => tick(alloc, *now, player),
        Entry::Turn(app, _) => take_turn(alloc, apps, *app, player),
        Entry::Drop(app) => withdraw(alloc, *app, player),
        Entry::Epoch => Err(Untaken::Apart),
    }
}

/// A text came that is no message.
#[tactic(auto, using(crate::proofs::PlayLaws::took_step))]
fn take_bad(
    alloc: Global,
    place: Place,
    at: usize,
    kind: u8,
    lines: &[u8],
    switch: &mut Switch,
) -> Result<(), Untaken>
    ensures { OnOk result (Took switch.old switch.new) }
{
    match heads_in(alloc, lines) {
        Ok(heads) => match switch.hear_bad(alloc, place, Bad { at, kind, heads }) {
            Ok(()) => Ok(()),
            Err(cause) => Err(Untaken::from(cause)),
        },
        Err(NoMemory) => Err(Untaken::NoMemory),
    }
}

/// A place was lost.
#[tactic(auto, using(crate::proofs::PlayLaws::took_step))]
fn take_loss(alloc: Global, place: Place, switch: &mut Switch) -> Result<(), Untaken>
    ensures { OnOk result (Took switch.old switch.new) }
{
    match switch.lost(alloc, place) {
        Ok(()) => Ok(()),
        Err(cause) => Err(Untaken::from(cause)),
    }
}

/// The message of this text comes.
fn take_message(
    alloc: Global,
    place: Place,
    text: &[u8],
    switch: &mut Switch,
) -> Result<(), Untaken>
    ensures { OnOk result (Took switch.old switch.new) }
{
    let mut stream = Stream::new(alloc);
    match stream.feed(text) {
        Ok(()) => take_next(alloc, place, &mut stream, switch),
        Err(NoMemory) => Err(Untaken::NoMemory),
    }
}

/// The next message of a stream comes.
#[tactic(auto, using(sc_follow::proofs::Hearings::some_via, crate::proofs::PlayLaws::took_step))]
fn take_next(
    alloc: Global,
    place: Place,
    stream: &mut Stream,
    switch: &mut Switch,
) -> Result<(), Untaken>
    ensures { OnOk result (Took switch.old switch.new) }
{
    match stream.next() {
        Heard::Message(message) => match switch.arrive(alloc, place, message) {
            Ok(()) => Ok(()),
            Err(cause) => Err(Untaken::from(cause)),
        },
        Heard::NoMemory => Err(Untaken::NoMemory),
        _ => Err(Untaken::Apart),
    }
}

/// Lends out the turns that are made behind this moment, and lets the clock go on.
#[tactic(auto, using(crate::proofs::PlayLaws::took_lent))]
fn tick(alloc: Global, now: u64, player: &mut Player) -> Result<(), Untaken>
    ensures { OnOk result (Took player.old.switch player.new.switch) }
{
    match lend_early(alloc, player) {
        Ok(()) => go_on(alloc, now, &mut player.switch),
        Err(NoMemory) => Err(Untaken::NoMemory),
    }
}

/// Lets the clock go on to this moment.
#[tactic(auto, using(crate::proofs::PlayLaws::took_step))]
fn go_on(alloc: Global, now: u64, switch: &mut Switch) -> Result<(), Untaken>
    ensures { OnOk result (Took switch.old switch.new) }
{
    if switch.now() > now || now > 9_223_372_036_854_775_808 {
        return Err(Untaken::Apart);
    }
    match switch.tick(alloc, now) {
        Ok(()) => Ok(()),
        Err(cause) => Err(Untaken::from(cause)),
    }
}

/// Lends out the turns of which the recording says that they were lent out at the last moment or
/// before, and made later.
///
/// # Errors
///
/// `NoMemory`; those before it are lent out.
#[tactic(auto, using(crate::proofs::PlayLaws::lent_none, crate::proofs::PlayLaws::lent_then))]
pub fn lend_early(alloc: Global, player: &mut Player) -> Result<(), NoMemory>
    ensures { OnOk result (Lent player.old.switch player.new.switch) }
{
    for _ in player.done..player.early.len() {
        if !lend_next(alloc, player)? {
            return Ok(());
        }
    }
    Ok(())
}

/// Lends out the next of these turns, where its moment isn't above the last one: whether there was
/// one.
#[tactic(auto, using(crate::proofs::PlayLaws::lent_none, crate::proofs::PlayLaws::lent_of))]
fn lend_next(alloc: Global, player: &mut Player) -> Result<bool, NoMemory>
    ensures { OnOk result (Lent player.old.switch player.new.switch) }
{
    let Some(early) = early_at(player) else {
        return Ok(false);
    };
    if early.now > player.switch.now() {
        return Ok(false);
    }
    match player.switch.lease_of(alloc, early.app) {
        Ok(lease) => {
            player.done = player.done.saturating_add(1);
            keep(lease, &mut player.lent)?;
            Ok(true)
        }
        Err(NoMemory) => Err(NoMemory),
    }
}

/// The next turn that is to be lent out before the clock goes on.
fn early_at(player: &Player) -> Option<Early> {
    player.early.get(player.done).copied()
}

/// Keeps a turn that was lent out.
fn keep(lease: Option<Lease>, lent: &mut List<Lease>) -> Result<(), NoMemory> {
    match lease {
        Some(lease) => match lent.push(lease) {
            Ok(()) => Ok(()),
            Err(refused) => {
                refused.value.discard();
                Err(NoMemory)
            }
        },
        None => Ok(()),
    }
}

/// Makes the turn of a session that was lent out, or is lent out now, and commits it.
#[tactic(auto, using(crate::proofs::PlayLaws::took_lent))]
fn take_turn(
    alloc: Global,
    apps: &Catalogue,
    app: AppId,
    player: &mut Player,
) -> Result<(), Untaken>
    ensures { OnOk result (Took player.old.switch player.new.switch) }
{
    match lease_for(alloc, app, player) {
        Ok(Some(lease)) => bring(alloc, apps, lease, &mut player.switch),
        Ok(None) => Err(Untaken::Apart),
        Err(NoMemory) => Err(Untaken::NoMemory),
    }
}

/// The turn of a session that was lent out, or that is lent out now; none where no event waits for
/// it.
///
/// # Errors
///
/// `NoMemory`; nothing is lent out.
#[tactic(auto, using(crate::proofs::PlayLaws::lent_none, crate::proofs::PlayLaws::lent_of))]
pub fn lease_for(alloc: Global, app: AppId, player: &mut Player) -> Result<Option<Lease>, NoMemory>
    ensures { OnOk result (Lent player.old.switch player.new.switch) }
{
    match lent_of(app, &mut player.lent) {
        Some(lease) => Ok(Some(lease)),
        None => player.switch.lease_of(alloc, app),
    }
}

/// Takes the turn of a session out of those that are lent out.
fn lent_of(app: AppId, lent: &mut List<Lease>) -> Option<Lease> {
    let at = lent.as_slice().iter().position(|lease| lease.app == app)?;
    if at < lent.items.len() {
        Some(lent.items.remove(at))
    } else {
        None
    }
}

/// Makes the turn of a lease, and commits it.
fn bring(alloc: Global, apps: &Catalogue, lease: Lease, switch: &mut Switch) -> Result<(), Untaken>
    ensures { OnOk result (Took switch.old switch.new) }
{
    if lease.kind >= apps.kinds.len() {
        lease.discard();
        return Err(Untaken::Apart);
    }
    settle(alloc, apps.react(alloc, lease), switch)
}

#[tactic(auto, unfolding(sc_switch::specs::Answers::Received), using(crate::proofs::PlayLaws::took_step))]
fn settle(alloc: Global, done: Done, switch: &mut Switch) -> Result<(), Untaken>
    ensures { OnOk result (Took switch.old switch.new) }
{
    if let End::Starved = done.end {
        done.discard();
        return Err(Untaken::NoMemory);
    }
    match switch.commit(alloc, done) {
        Ok(Committed::Taken) => Ok(()),
        Ok(_) => Err(Untaken::Apart),
        Err(CommitRefused { done, cause }) => {
            done.discard();
            Err(Untaken::from(cause))
        }
    }
}

/// The session is ended from outside; a turn of it that was lent out isn't made any more.
fn withdraw(alloc: Global, app: AppId, player: &mut Player) -> Result<(), Untaken>
    ensures { OnOk result (Took player.old.switch player.new.switch) }
{
    match end_session(alloc, app, &mut player.switch) {
        Ok(()) => {
            forget(app, &mut player.lent);
            Ok(())
        }
        Err(cause) => Err(cause),
    }
}

/// Forgets the turn of a session that was lent out, and isn't made any more.
pub fn forget(app: AppId, lent: &mut List<Lease>) {
    if let Some(lease) = lent_of(app, lent) {
        lease.discard();
    }
}

#[tactic(auto, unfolding(sc_switch::specs::Answers::Withdraws), using(crate::proofs::PlayLaws::took_step))]
fn end_session(alloc: Global, app: AppId, switch: &mut Switch) -> Result<(), Untaken>
    ensures { OnOk result (Took switch.old switch.new) }
{
    match switch.withdraw(alloc, app) {
        Ok(true) => Ok(()),
        Ok(false) => Err(Untaken::Apart),
        Err(cause) => Err(Untaken::from(cause)),
    }
}
