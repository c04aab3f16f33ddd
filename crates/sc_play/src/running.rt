//! The rows of a recording, one after the other: each step is taken, told again, compared, and what
//! it sends is put.

ghost use Rattle.std.specs.Prelude.{◌≡◌, ◌≤◌, ◌<◌, ◌+◌, ◌++◌, ◌∷◌, [], IfOk, OnOk, Option, drop, length, take, true};
ghost use Rattle.sc_parts.specs.declared.setup.Setup.{Setup};
ghost use Rattle.sc_tokens.specs.Bytes.{Bytes};
ghost use Rattle.sc_edge.specs.Taking.{Takes};
ghost use Rattle.sc_model.specs.Records.{end_text, records};
ghost use Rattle.sc_hosts.specs.Runs.{live_count};
ghost use Rattle.sc_recording.specs.StepTexts.{epoch_text, step_text};
ghost use Rattle.sc_switch.specs.Answers.{handing};
ghost use Rattle.sc_switch.specs.Standing.{net_of};
ghost use Rattle.sc_play.specs.Played.{IsEnd, IsPlayed, IsRecording, IsRow, capped_count, nothing_counted};

use crate::early::{Unread, early_turns};
use crate::rows::{APART, Entry, Row, row_at};
use crate::stepping::{Player, Untaken, take_step};
use sc_edge::Sink;
use sc_recording::{epoch_text, step_text};
use sc_replay::{Status, WriteRefused, put_end, put_sent};
use sc_servlets::Catalogue;
use sc_switch::{Epoch, Switch};
use sc_terms::Step;
use sc_value::{Discard, NoMemory};
use std::alloc::Global;

/// How many steps were taken and messages sent; each stays at its greatest value.
#[derive(Clone, Copy)]
pub struct Counts {
    pub steps: u64,
    pub sent: u64,
}

/// Plays a recording on a switch that took no step, and puts what it sends.
pub fn run<K: Sink>(
    alloc: Global,
    text: &[u8],
    switch: Switch,
    apps: &Catalogue,
    out: &mut K,
) -> Status
    requires epoch { switch.epoch ≡ 0 }
    requires began { switch.began ≡ 0 }
    requires handed { switch.handed ≡ [] }
    requires journal { switch.journal ≡ [] }
    requires left { switch.left ≡ [] }
    ensures done { result ≡ Status.Done
        → IsRecording switch.setup text.now (K.took out.old) (K.took out.new) }
{
    match early_turns(alloc, text) {
        Ok(early) => run_with(alloc, text, Player::new(alloc, switch, early), apps, out),
        Err(Unread::Refused { at, kind }) => {
            drop(switch);
            Status::Script { at, kind }
        }
        Err(Unread::NoMemory) => {
            drop(switch);
            Status::NoMemory
        }
    }
}

fn run_with<K: Sink>(
    alloc: Global,
    text: &[u8],
    mut player: Player,
    apps: &Catalogue,
    out: &mut K,
) -> Status
    requires epoch { player.switch.epoch ≡ 0 }
    requires began { player.switch.began ≡ 0 }
    requires handed { player.switch.handed ≡ [] }
    requires journal { player.switch.journal ≡ [] }
    requires left { player.switch.left ≡ [] }
    ensures done { result ≡ Status.Done
        → IsRecording player.switch.setup text.now (K.took out.old) (K.took out.new) }
{
    let status = play_rows(alloc, text, &mut player, apps, out);
    player.discard();
    status
}

/// Plays all rows and puts the last line.
#[tactic(auto, using(crate::proofs::PlayLaws::rows_none, crate::proofs::PlayLaws::rows_next))]
fn play_rows<K: Sink>(
    alloc: Global,
    text: &[u8],
    player: &mut Player,
    apps: &Catalogue,
    out: &mut K,
) -> Status
    ensures done { result ≡ Status.Done → (setup : Setup)
        → IsPlayed setup [] player.old.switch nothing_counted (K.took out.old) (K.took out.old)
        → IsRecording setup text.now (K.took out.old) (K.took out.new) }
{
    let mut counts = Counts { steps: 0, sent: 0 };
    let mut at = 0;
    while at < text.len() {
        match play_at(alloc, text, at, player, apps, &mut counts, out) {
            Ok(next) => at = next,
            Err(stop) => return status_of(at, stop),
        }
    }
    player.switch.show_laws();
    put_last(alloc, counts, &player.switch, out)
}

/// How a run ends, where the row at this byte isn't played.
pub fn status_of(at: usize, stop: Unplayed) -> Status
    ensures { result ≡ Status.Done → ⊥ }
{
    match stop {
        Unplayed::Refused(kind) => Status::Script { at, kind },
        Unplayed::JournalFull => Status::JournalFull,
        Unplayed::NoMemory => Status::NoMemory,
        Unplayed::Write => Status::Write,
    }
}

/// Plays the row at this byte; the byte behind it.
fn play_at<K: Sink>(
    alloc: Global,
    text: &[u8],
    at: usize,
    player: &mut Player,
    apps: &Catalogue,
    counts: &mut Counts,
    out: &mut K,
) -> Result<usize, Unplayed>
    requires { at ≤ length text.now }
    ensures later { IfOk result (λ next. at < next) }
    ensures within { IfOk result (λ next. next ≤ length text.now) }
    ensures played { IfOk result
        (λ next.
        (setup : Setup) (first : Option Bytes)
        → IsPlayed setup (take at text.now) player.old.switch counts.old first (K.took out.old)
        → IsPlayed setup (take next text.now) player.new.switch counts.new first
        (K.took out.new)) }
{
    let rest = rest_at(text, at);
    match row_at(rest) {
        Ok(row) => match play_row(
            alloc,
            &row,
            front_of(rest, row.len),
            player,
            apps,
            counts,
            out,
        ) {
            Ok(()) => Ok(at + row.len),
            Err(stop) => Err(stop),
        },
        Err(kind) => Err(Unplayed::Refused(kind)),
    }
}

/// What stands behind so many bytes.
fn rest_at(text: &[u8], at: usize) -> &[u8]
    requires { at ≤ length text.now }
    ensures { result.now ≡ drop at text.now }
{
    &text[at..]
}

/// The first so many bytes.
fn front_of(text: &[u8], len: usize) -> &[u8]
    requires { len ≤ length text.now }
    ensures { result.now ≡ take len text.now }
{
    &text[..len]
}

/// Why a row isn't played.
#[derive(Clone, Copy, Debug, PartialEq, Eq)]
pub enum Unplayed {
    /// What is wrong there, by its number, as of the status `Script`.
    Refused(u8),
    /// The journal has no room for the step.
    JournalFull,
    /// There was no memory.
    NoMemory,
    /// The sink failed.
    Write,
}

impl From<NoMemory> for Unplayed {
    fn from(_cause: NoMemory) -> Unplayed {
        Unplayed::NoMemory
    }
}

impl From<Untaken> for Unplayed {
    fn from(cause: Untaken) -> Unplayed {
        match cause {
            Untaken::Apart => Unplayed::Refused(APART),
            Untaken::JournalFull => Unplayed::JournalFull,
            Untaken::NoMemory => Unplayed::NoMemory,
        }
    }
}

impl From<WriteRefused> for Unplayed {
    fn from(cause: WriteRefused) -> Unplayed {
        match cause {
            WriteRefused::NoMemory => Unplayed::NoMemory,
            WriteRefused::Failed => Unplayed::Write,
        }
    }
}

/// Plays a row, of these bytes.
#[tactic(auto, using(crate::proofs::PlayLaws::played_row, crate::proofs::PlayLaws::played_end))]
fn play_row<K: Sink>(
    alloc: Global,
    row: &Row<'_>,
    bytes: &[u8],
    player: &mut Player,
    apps: &Catalogue,
    counts: &mut Counts,
    out: &mut K,
) -> Result<(), Unplayed>
    ensures { OnOk result
        ((setup : Setup) (before : Bytes) (first : Option Bytes)
        → IsPlayed setup before player.old.switch counts.old first (K.took out.old)
        → IsPlayed setup (before ++ bytes.now) player.new.switch counts.new first
        (K.took out.new)) }
{
    match row.entry {
        Entry::Epoch => match end_epoch(alloc, bytes, &mut player.switch) {
            Ok(()) => Ok(()),
            Err(cause) => Err(cause),
        },
        _ => match play_step(alloc, &row.entry, bytes, player, apps) {
            Ok(()) => match put_row(alloc, &mut player.switch, counts, out) {
                Ok(()) => Ok(()),
                Err(cause) => Err(cause),
            },
            Err(cause) => Err(cause),
        },
    }
}

/// Takes a step, and hands it on, where its text has these bytes.
#[tactic(auto, unfolding(crate::specs::Played::Took), using(crate::proofs::PlayLaws::row_of))]
fn play_step(
    alloc: Global,
    entry: &Entry<'_>,
    bytes: &[u8],
    player: &mut Player,
    apps: &Catalogue,
) -> Result<(), Unplayed>
    ensures { OnOk result
        (player.old.switch.journal ≡ [] → IsRow player.old.switch player.new.switch bytes.now) }
{
    match take_step(alloc, apps, entry, player) {
        Ok(()) => match is_last_step(alloc, bytes, &mut player.switch) {
            Ok(true) => Ok(()),
            Ok(false) => Err(Unplayed::Refused(APART)),
            Err(NoMemory) => Err(Unplayed::NoMemory),
        },
        Err(cause) => Err(Unplayed::from(cause)),
    }
}

/// Puts the records of what a step sent, and counts both.
fn put_row<K: Sink>(
    alloc: Global,
    switch: &mut Switch,
    counts: &mut Counts,
    out: &mut K,
) -> Result<(), Unplayed>
    ensures same { switch.new ≡ record switch.old { left = switch.new.left } }
    ensures left { OnOk result (switch.new.left ≡ []) }
    ensures takes { OnOk result
        (Takes (K.took out.old) (K.took out.new) (records switch.old.left)) }
    ensures steps { OnOk result (counts.new.steps ≡ capped_count (counts.old.steps + 1)) }
    ensures sent { OnOk result
        (counts.new.sent ≡ capped_count (counts.old.sent + length switch.old.left)) }
{
    let sent = switch.untaken();
    match put_sent(alloc, switch, out) {
        Ok(()) => {
            counts.steps = counts.steps.saturating_add(1);
            counts.sent = counts.sent.saturating_add(sent);
            Ok(())
        }
        Err(cause) => Err(Unplayed::from(cause)),
    }
}

/// Hands the last step on, and whether its text has these bytes: false where there is none.
///
/// # Errors
///
/// `NoMemory`; the step is handed on.
pub fn is_last_step(alloc: Global, bytes: &[u8], switch: &mut Switch) -> Result<bool, NoMemory>
    ensures handed { switch.new ≡ handing switch.old }
    ensures same { IfOk result
        (λ same.
        same ≡ true → (step : Step) → switch.old.journal ≡ step ∷ []
        → bytes.now ≡ step_text step) }
{
    let journal = switch.hand_on();
    match journal.get(0) {
        Some(step) => is_text(alloc, bytes, step),
        None => Ok(false),
    }
}

/// Whether the text of a step has these bytes.
fn is_text(alloc: Global, bytes: &[u8], step: &Step) -> Result<bool, NoMemory>
    ensures { IfOk result (λ same. same ≡ true → bytes.now ≡ step_text step.now) }
{
    let text = step_text(alloc, step)?;
    Ok(text.as_bytes() == bytes)
}

/// Ends the epoch, whose line has these bytes.
///
/// # Errors
///
/// `Refused` with [`APART`] where no epoch ends here, as something lives, or where another one
/// does, and `NoMemory`.
#[tactic(auto, using(crate::proofs::PlayLaws::end_of))]
pub fn end_epoch(alloc: Global, bytes: &[u8], switch: &mut Switch) -> Result<(), Unplayed>
    ensures { OnOk result (IsEnd switch.old switch.new bytes.now) }
{
    match switch.turn_epoch() {
        Ok(ended) => match is_end(alloc, bytes, &ended) {
            Ok(true) => Ok(()),
            Ok(false) => Err(Unplayed::Refused(APART)),
            Err(NoMemory) => Err(Unplayed::NoMemory),
        },
        Err(_) => Err(Unplayed::Refused(APART)),
    }
}

/// Whether the text of an epoch's end has these bytes.
fn is_end(alloc: Global, bytes: &[u8], ended: &Epoch) -> Result<bool, NoMemory>
    ensures { IfOk result
        (λ same. same ≡ true → bytes.now ≡ epoch_text ended.now.number ended.now.began) }
{
    let text = epoch_text(alloc, ended.number, ended.began)?;
    Ok(text.as_bytes() == bytes)
}

/// Puts the last line.
fn put_last<K: Sink>(alloc: Global, counts: Counts, switch: &Switch, out: &mut K) -> Status
    ensures { result ≡ Status.Done
        → Takes (K.took out.old) (K.took out.new)
        (end_text counts.steps counts.sent (live_count (net_of switch.now))) }
{
    match put_end(alloc, counts.steps, counts.sent, switch.live(), out) {
        Ok(()) => Status::Done,
        Err(WriteRefused::NoMemory) => Status::NoMemory,
        Err(WriteRefused::Failed) => Status::Write,
    }
}
