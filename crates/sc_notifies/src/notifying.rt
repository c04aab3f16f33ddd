//! NOTIFYs, and the end of a subscription's timer and attributes (RFC 6665 section 4.2).

ghost use Rattle.std.specs.Prelude.{◌≡◌, ◌≤◌, ◌+◌, ◌<◌, ◌∷◌, [], codes, if◌then◌else◌, IfOk};
ghost use Rattle.sc_hosts.specs.HelperParts.{field, send_in};
ghost use Rattle.sc_hosts.specs.Scripting.{Done};
ghost use Rattle.sc_hosts.specs.Subscriptions.{ev_name, notifies, sub_name};
ghost use Rattle.sc_model.specs.Dialogs.{notify};
ghost use Rattle.sc_helpers.specs.Leading.{remove_if};
ghost use Rattle.sc_helpers.specs.Stopping.{Goes, Leads};
ghost use Rattle.sc_notifies.specs.Notifying.{live_ended, live_told};
ghost use Rattle.sc_notifies.specs.SubScripts.{begun_told, without_attributes, without_subscription};

use crate::standing::{Live, Standing};
use crate::sub_texts::{ev_name, state_text, sub_name};
use crate::subscribing::Term;
use sc_apps::memory_of;
use sc_helpers::{Stopped, field, try_cancel_some, try_remove_if, try_send_in, two, wanting};
use sc_turn::Turn;
use sc_value::{Field, List, NoMemory, SessId, Text};
use std::alloc::Global;

fn before_state(alloc: Global, event: Field, state: &[u8]) -> Result<List<Field>, NoMemory>
    ensures { IfOk result
        (λ fields. fields ≡ event ∷ field (codes "Subscription-State") state.now ∷ []) }
{
    let state = field(alloc, b"Subscription-State", state)?;
    two(alloc, event, state)
}

fn state_fields(alloc: Global, event: &[u8], state: &[u8]) -> Result<List<Field>, NoMemory>
    ensures { IfOk result
        (λ fields.
        fields
        ≡ field (codes "Event") event.now ∷ field (codes "Subscription-State") state.now ∷ []) }
{
    let event = field(alloc, b"Event", event)?;
    before_state(alloc, event, state)
}

#[tactic(auto, unfolding(sc_model::specs::Dialogs::notify))]
fn send_fields(
    turn: &mut Turn,
    made: u8,
    sess: SessId,
    fields: List<Field>,
    body: &[u8],
) -> Result<u8, Stopped>
    requires few { made < 90 }
    ensures same { turn.new.shown ≡ turn.old.shown }
    ensures led { Leads (send_in sess notify fields body.now) made turn.old result turn.new }
{
    try_send_in(turn, made, sess, b"NOTIFY", fields, body)
}

#[tactic(auto, using(sc_helpers::proofs::Steps::sent_on, sc_helpers::proofs::Steps::sent_off, sc_helpers::proofs::Steps::goes_done))]
fn send_notify(
    turn: &mut Turn,
    made: u8,
    sess: SessId,
    fields: List<Field>,
    body: &[u8],
) -> Result<(), Stopped>
    requires few { made < 90 }
    ensures same { turn.new.shown ≡ turn.old.shown }
    ensures goes { Goes made (send_in sess notify fields body.now Done) turn.old result turn.new }
{
    match send_fields(turn, made, sess, fields, body) {
        Ok(_) => Ok(()),
        Err(stop) => Err(stop),
    }
}

/// Sends a NOTIFY with this Event, state and body behind so many accepted calls, and makes no other
/// call.
#[tactic(auto, unfolding(sc_hosts::specs::Subscriptions::notifies), using(sc_helpers::proofs::Steps::goes_wanting))]
pub fn notify(
    turn: &mut Turn,
    made: u8,
    sess: SessId,
    event: &[u8],
    state: &[u8],
    body: &[u8],
) -> Result<(), Stopped>
    requires few { made < 90 }
    ensures same { turn.new.shown ≡ turn.old.shown }
    ensures goes { Goes made (notifies sess event.now state.now body.now) turn.old result turn.new }
{
    match state_fields(memory_of(turn), event, state) {
        Ok(fields) => send_notify(turn, made, sess, fields, body),
        Err(NoMemory) => Err(wanting(made)),
    }
}

fn body_if(active: bool, body: &[u8]) -> &[u8]
    ensures { result.now ≡ (if active then body.now else []) }
{
    if active { body } else { b"" }
}

/// Tells the state of a subscription.
#[tactic(auto, unfolding(crate::specs::Notifying::live_told), using(sc_helpers::proofs::Steps::goes_wanting))]
pub fn tell_live(turn: &mut Turn, sess: SessId, body: &[u8], live: &Live) -> Result<(), Stopped>
    ensures same { turn.new.shown ≡ turn.old.shown }
    ensures goes { Goes 0 (live_told sess body.now live.now) turn.old result turn.new }
{
    let told = body_if(live.sub.active, body);
    match state_text(memory_of(turn), live.sub.active, live.left) {
        Ok(state) => notify(turn, 0, sess, live.event.as_bytes(), state.as_bytes(), told),
        Err(NoMemory) => Err(wanting(0)),
    }
}

/// Tells of a subscription that begins or goes on, behind so many accepted calls.
#[tactic(auto, unfolding(crate::specs::SubScripts::begun_told), using(sc_helpers::proofs::Steps::goes_wanting))]
pub fn tell_begun(
    turn: &mut Turn,
    made: u8,
    term: Term,
    sess: SessId,
    event: &[u8],
    body: &[u8],
) -> Result<(), Stopped>
    requires few { made < 90 }
    ensures same { turn.new.shown ≡ turn.old.shown }
    ensures goes { Goes made (begun_told term sess event.now body.now) turn.old result turn.new }
{
    let told = body_if(term.active, body);
    match state_text(memory_of(turn), term.active, u64::from(term.seconds)) {
        Ok(state) => notify(turn, made, sess, event, state.as_bytes(), told),
        Err(NoMemory) => Err(wanting(made)),
    }
}

fn names_of(alloc: Global, sess: SessId) -> Result<(Text, Text), NoMemory>
    ensures { IfOk result (λ names. (names.0 ≡ sub_name sess) × (names.1 ≡ ev_name sess)) }
{
    let told = sub_name(alloc, sess)?;
    let named = ev_name(alloc, sess)?;
    Ok((told, named))
}

#[tactic(auto, using(crate::proofs::SubLed::unnamed_both, crate::proofs::SubLed::unnamed_none))]
fn remove_named(
    turn: &mut Turn,
    made: u8,
    told: &[u8],
    named: &[u8],
    standing: &Standing,
) -> Result<u8, Stopped>
    requires few { made < 90 }
    ensures same { turn.new.shown ≡ turn.old.shown }
    ensures led { Leads
        (λ script.
        remove_if standing.now.told told.now (remove_if standing.now.named named.now script)) made
        turn.old result turn.new }
    ensures count { IfOk result (λ after. after ≤ made + 2) }
{
    match try_remove_if(turn, made, standing.told, told) {
        Ok(made) => try_remove_if(turn, made, standing.named, named),
        Err(stop) => Err(stop),
    }
}

#[tactic(auto, unfolding(crate::specs::SubScripts::without_attributes), using(sc_helpers::proofs::Steps::led_wanting))]
fn remove_both(turn: &mut Turn, made: u8, sess: SessId, standing: &Standing) -> Result<u8, Stopped>
    requires few { made < 90 }
    ensures same { turn.new.shown ≡ turn.old.shown }
    ensures led { Leads (without_attributes standing.now sess) made turn.old result turn.new }
    ensures count { IfOk result (λ after. after ≤ made + 2) }
{
    match names_of(memory_of(turn), sess) {
        Ok((told, named)) => {
            remove_named(turn, made, told.as_bytes(), named.as_bytes(), standing)
        }
        Err(NoMemory) => Err(wanting(made)),
    }
}

/// Ends a subscription's timer and takes its attributes away, behind so many accepted calls.
#[tactic(auto, using(crate::proofs::SubLed::cleared_both, crate::proofs::SubLed::cleared_none))]
pub fn clear(turn: &mut Turn, made: u8, sess: SessId, standing: &Standing) -> Result<u8, Stopped>
    requires few { made < 50 }
    ensures same { turn.new.shown ≡ turn.old.shown }
    ensures led { Leads (without_subscription standing.now sess) made turn.old result turn.new }
    ensures count { IfOk result (λ after. after ≤ made + 3) }
{
    match try_cancel_some(turn, made, standing.running) {
        Ok(made) => remove_both(turn, made, sess, standing),
        Err(stop) => Err(stop),
    }
}

/// Ends a subscription and tells so with this state, behind so many accepted calls.
#[tactic(auto, using(crate::proofs::SubLed::cleared_on, crate::proofs::SubLed::cleared_off))]
pub fn end(
    turn: &mut Turn,
    made: u8,
    sess: SessId,
    event: &[u8],
    state: &[u8],
    standing: &Standing,
) -> Result<(), Stopped>
    requires few { made < 50 }
    ensures same { turn.new.shown ≡ turn.old.shown }
    ensures goes { Goes made (without_subscription standing.now sess (notifies sess event.now state.now []))
        turn.old result turn.new }
{
    match clear(turn, made, sess, standing) {
        Ok(made) => notify(turn, made, sess, event, state, b""),
        Err(stop) => Err(stop),
    }
}

/// The same of a subscription that was read.
#[tactic(auto, unfolding(crate::specs::Notifying::live_ended))]
pub fn end_live(turn: &mut Turn, sess: SessId, state: &[u8], live: &Live) -> Result<(), Stopped>
    ensures same { turn.new.shown ≡ turn.old.shown }
    ensures goes { Goes 0 (live_ended sess state.now live.now) turn.old result turn.new }
{
    end(turn, 0, sess, live.event.as_bytes(), state, &live.standing)
}
