//! Subscriptions that begin or are renewed, and how that is told (RFC 6665 sections 4.2.1 and
//! 4.2.2).

ghost use Rattle.std.specs.Prelude.{◌≡◌, ◌≤◌, ◌*◌, ◌+◌, ◌<◌, IfOk};
ghost use Rattle.sc_terms.specs.declared.views.Period.TheVariants.{Once};
ghost use Rattle.sc_hosts.specs.HelperParts.{accepted_then};
ghost use Rattle.sc_hosts.specs.Subscriptions.{ev_name, sub_name, sub_text};
ghost use Rattle.sc_helpers.specs.Leading.{cancel_some};
ghost use Rattle.sc_helpers.specs.Stopping.{Gives, Goes, Leads};
ghost use Rattle.sc_notifies.specs.SubScripts.{begun_noted, begun_timed, begun_told, subscribed_by};

use crate::notifying::{end, tell_begun};
use crate::standing::Standing;
use crate::sub_texts::{ev_name, sub_name, sub_text};
use sc_apps::memory_of;
use sc_helpers::{Stopped, try_cancel_some, try_set_attribute, try_start_timer, wanting};
use sc_terms::Call;
use sc_turn::Turn;
use sc_value::{NoMemory, SessId, Text};
use std::alloc::Global;

/// For how long a subscription goes on, and how.
#[derive(Clone, Copy, Debug)]
pub struct Term {
    /// For so many seconds, at most 4,000,000; 0 ends it.
    pub seconds: u32,
    /// The moment at which it ends, in milliseconds.
    pub due: u64,
    /// Whether it is active, and not pending.
    pub active: bool,
}

/// Begins, renews or ends a subscription, and tells so, behind so many accepted calls.
#[tactic(auto, unfolding(crate::specs::SubScripts::subscribed_by, sc_hosts::specs::Subscriptions::timeout_state))]
pub fn subscribed_by(
    turn: &mut Turn,
    made: u8,
    term: Term,
    sess: SessId,
    event: &[u8],
    body: &[u8],
    standing: &Standing,
) -> Result<(), Stopped>
    requires few { made < 40 }
    requires within { term.seconds ≤ 4000000 }
    ensures same { turn.new.shown ≡ turn.old.shown }
    ensures goes { Goes made (subscribed_by standing.now term sess event.now body.now) turn.old
        result turn.new }
{
    if term.seconds == 0 {
        return end(
            turn,
            made,
            sess,
            event,
            b"terminated;reason=timeout",
            standing,
        );
    }
    renew(turn, made, term, sess, event, body, standing)
}

#[tactic(auto, using(sc_helpers::proofs::Steps::cancelled_on, sc_helpers::proofs::Steps::cancelled_off))]
fn renew(
    turn: &mut Turn,
    made: u8,
    term: Term,
    sess: SessId,
    event: &[u8],
    body: &[u8],
    standing: &Standing,
) -> Result<(), Stopped>
    requires few { made < 40 }
    requires within { term.seconds ≤ 4000000 }
    ensures same { turn.new.shown ≡ turn.old.shown }
    ensures goes { Goes made
        (cancel_some standing.now.running (begun_timed term sess event.now body.now)) turn.old
        result turn.new }
{
    match try_cancel_some(turn, made, standing.running) {
        Ok(made) => begin(turn, made, term, sess, event, body),
        Err(stop) => Err(stop),
    }
}

#[tactic(auto, using(sc_helpers::proofs::Steps::given_wanting))]
fn start(turn: &mut Turn, made: u8, sess: SessId, seconds: u32) -> Result<u64, Stopped>
    requires within { seconds ≤ 4000000 }
    ensures same { turn.new.shown ≡ turn.old.shown }
    ensures given { Gives (Call.StartTimer (seconds * 1000) Once (sub_name sess)) made turn.old
        result turn.new }
{
    match sub_name(memory_of(turn), sess) {
        Ok(name) => try_start_timer(turn, made, seconds * 1000, name),
        Err(NoMemory) => Err(wanting(made)),
    }
}

#[tactic(auto, unfolding(crate::specs::SubScripts::begun_timed), using(sc_helpers::proofs::Steps::number_on, sc_helpers::proofs::Steps::number_off))]
fn begin(
    turn: &mut Turn,
    made: u8,
    term: Term,
    sess: SessId,
    event: &[u8],
    body: &[u8],
) -> Result<(), Stopped>
    requires few { made < 50 }
    requires within { term.seconds ≤ 4000000 }
    ensures same { turn.new.shown ≡ turn.old.shown }
    ensures goes { Goes made (begun_timed term sess event.now body.now) turn.old result turn.new }
{
    match start(turn, made, sess, term.seconds) {
        Ok(timer) => note(turn, made + 1, term, sess, event, body, timer),
        Err(stop) => Err(stop),
    }
}

fn noted(alloc: Global, sess: SessId, term: Term, timer: u64) -> Result<(Text, Text), NoMemory>
    ensures { IfOk result
        (λ texts. (texts.0 ≡ sub_name sess) × (texts.1 ≡ sub_text term.active term.due timer)) }
{
    let name = sub_name(alloc, sess)?;
    let value = sub_text(alloc, term.active, term.due, timer)?;
    Ok((name, value))
}

#[tactic(auto, using(sc_helpers::proofs::Steps::led_wanting))]
fn note_sub(turn: &mut Turn, made: u8, sess: SessId, term: Term, timer: u64) -> Result<u8, Stopped>
    requires few { made < 100 }
    ensures same { turn.new.shown ≡ turn.old.shown }
    ensures led { Leads
        (accepted_then (Call.SetAttribute (sub_name sess) (sub_text term.active term.due timer)))
        made turn.old result turn.new }
    ensures count { IfOk result (λ after. after ≡ made + 1) }
{
    match noted(memory_of(turn), sess, term, timer) {
        Ok((name, value)) => try_set_attribute(turn, made, name, value),
        Err(NoMemory) => Err(wanting(made)),
    }
}

#[tactic(auto, unfolding(crate::specs::SubScripts::begun_noted), using(sc_helpers::proofs::Steps::accepted_on, sc_helpers::proofs::Steps::accepted_off))]
fn note(
    turn: &mut Turn,
    made: u8,
    term: Term,
    sess: SessId,
    event: &[u8],
    body: &[u8],
    timer: u64,
) -> Result<(), Stopped>
    requires few { made < 60 }
    ensures same { turn.new.shown ≡ turn.old.shown }
    ensures goes { Goes made (begun_noted term sess event.now body.now timer) turn.old result
        turn.new }
{
    match note_sub(turn, made, sess, term, timer) {
        Ok(made) => name_and_tell(turn, made, term, sess, event, body),
        Err(stop) => Err(stop),
    }
}

fn named(alloc: Global, sess: SessId, event: &[u8]) -> Result<(Text, Text), NoMemory>
    ensures { IfOk result (λ texts. (texts.0 ≡ ev_name sess) × (texts.1 ≡ event.now)) }
{
    let name = ev_name(alloc, sess)?;
    let value = Text::from_slice(alloc, event)?;
    Ok((name, value))
}

#[tactic(auto, using(sc_helpers::proofs::Steps::led_wanting))]
fn note_event(turn: &mut Turn, made: u8, sess: SessId, event: &[u8]) -> Result<u8, Stopped>
    requires few { made < 100 }
    ensures same { turn.new.shown ≡ turn.old.shown }
    ensures led { Leads (accepted_then (Call.SetAttribute (ev_name sess) event.now)) made turn.old
        result turn.new }
    ensures count { IfOk result (λ after. after ≡ made + 1) }
{
    match named(memory_of(turn), sess, event) {
        Ok((name, value)) => try_set_attribute(turn, made, name, value),
        Err(NoMemory) => Err(wanting(made)),
    }
}

#[tactic(auto, using(sc_helpers::proofs::Steps::accepted_on, sc_helpers::proofs::Steps::accepted_off))]
fn name_and_tell(
    turn: &mut Turn,
    made: u8,
    term: Term,
    sess: SessId,
    event: &[u8],
    body: &[u8],
) -> Result<(), Stopped>
    requires few { made < 70 }
    ensures same { turn.new.shown ≡ turn.old.shown }
    ensures goes { Goes made
        (accepted_then (Call.SetAttribute (ev_name sess) event.now)
        (begun_told term sess event.now body.now)) turn.old result turn.new }
{
    match note_event(turn, made, sess, event) {
        Ok(made) => tell_begun(turn, made, term, sess, event, body),
        Err(stop) => Err(stop),
    }
}
