//! Changes of a subscription, which its subscriber is told (RFC 6665 section 4.2.2).

ghost use Rattle.std.specs.Prelude.{◌≡◌, ◌++◌, ◌<◌, ◌+◌, true, false, codes, decimal, IfOk};
ghost use Rattle.sc_hosts.specs.HelperParts.{accepted_then};
ghost use Rattle.sc_hosts.specs.Subscriptions.{changes, notifies, state_word, sub_name, sub_text, subscription_of};
ghost use Rattle.sc_turn.specs.Working.{play_of};
ghost use Rattle.sc_helpers.specs.Stopping.{Goes, Leads};
ghost use Rattle.sc_notifies.specs.Notifying.{IsActivated, IsCarriedOut, IsOfPending, IsOfSubscription, activates, live_activated, live_told, next_of};

use crate::notifying::{notify, tell_live};
use crate::refused::{NotifyRefused, turned};
use crate::standing::{Live, live_of};
use crate::sub_texts::{state_text, sub_name, sub_text};
use sc_apps::memory_of;
use sc_helpers::{Stopped, try_set_attribute, wanting};
use sc_terms::Call;
use sc_turn::Turn;
use sc_value::{NoMemory, ReqId, SessId, Text};
use std::alloc::Global;

#[tactic(auto, using(crate::proofs::NotifyCalls::sent_through, crate::proofs::NotifyCalls::sent_stopped))]
fn change_one(
    turn: &mut Turn,
    sess: SessId,
    body: &[u8],
    live: &Live,
) -> Result<ReqId, NotifyRefused>
    ensures same { turn.new.shown ≡ turn.old.shown }
    ensures carried { IsCarriedOut (live_told sess body.now live.now) live.now.next turn.old result
        turn.new }
{
    match tell_live(turn, sess, body, live) {
        Ok(()) => Ok(live.next),
        Err(stop) => Err(turned(stop)),
    }
}

/// Tells the subscriber of a new state: a NOTIFY (`create_in_dialog`, `send`) with the
/// subscription's Event, its state with the seconds that are left, rounded up, and, where it is
/// active, this body (RFC 6665 section 4.2.2). Gives the NOTIFY's number.
///
/// # Errors
///
/// The first of these that holds:
/// - `NotSubscribed`: the SipSession has no subscription. No call is made.
/// - `Turn`: the turn refuses one of the two calls.
///
/// For want of memory it is `Turn` with `NoMemory`; where a call of this turn wanted memory before,
/// the turn is over, and nothing is said.
#[tactic(auto, using(crate::proofs::NotifyCalls::change_some, crate::proofs::NotifyCalls::change_none, crate::proofs::NotifyCalls::sub_wanting))]
pub fn change(turn: &mut Turn, sess: SessId, body: &[u8]) -> Result<ReqId, NotifyRefused>
    ensures same { turn.new.shown ≡ turn.old.shown }
    ensures carried { turn.old.starved ≡ false
        → IsOfSubscription (subscription_of (play_of turn.old).view sess)
        (changes (play_of turn.old).view sess body.now) (next_of (play_of turn.old).view) turn.old
        result turn.new }
{
    match live_of(memory_of(turn), turn.view(), sess) {
        Ok(Some(live)) => change_one(turn, sess, body, &live),
        Ok(None) => Err(NotifyRefused::NotSubscribed),
        Err(NoMemory) => Err(turned(wanting(0))),
    }
}

fn noted(alloc: Global, sess: SessId, due: u64, timer: u64) -> Result<(Text, Text), NoMemory>
    ensures { IfOk result
        (λ texts. (texts.0 ≡ sub_name sess) × (texts.1 ≡ sub_text true due timer)) }
{
    let name = sub_name(alloc, sess)?;
    let value = sub_text(alloc, true, due, timer)?;
    Ok((name, value))
}

#[tactic(auto, using(sc_helpers::proofs::Steps::led_wanting))]
fn note_active(turn: &mut Turn, sess: SessId, due: u64, timer: u64) -> Result<u8, Stopped>
    ensures same { turn.new.shown ≡ turn.old.shown }
    ensures led { Leads
        (accepted_then (Call.SetAttribute (sub_name sess) (sub_text true due timer))) 0 turn.old
        result turn.new }
    ensures count { IfOk result (λ after. after ≡ 1) }
{
    match noted(memory_of(turn), sess, due, timer) {
        Ok((name, value)) => try_set_attribute(turn, 0, name, value),
        Err(NoMemory) => Err(wanting(0)),
    }
}

#[tactic(auto, using(sc_helpers::proofs::Steps::goes_wanting))]
fn tell_active(
    turn: &mut Turn,
    made: u8,
    sess: SessId,
    body: &[u8],
    live: &Live,
) -> Result<(), Stopped>
    requires few { made < 50 }
    ensures same { turn.new.shown ≡ turn.old.shown }
    ensures goes { Goes made
        (notifies sess live.now.event
        (state_word true ++ codes ";expires=" ++ decimal live.now.left) body.now) turn.old result
        turn.new }
{
    match state_text(memory_of(turn), true, live.left) {
        Ok(state) => notify(
            turn,
            made,
            sess,
            live.event.as_bytes(),
            state.as_bytes(),
            body,
        ),
        Err(NoMemory) => Err(wanting(made)),
    }
}

#[tactic(auto, unfolding(crate::specs::Notifying::live_activated), using(sc_helpers::proofs::Steps::accepted_on, sc_helpers::proofs::Steps::accepted_off))]
fn activate_live(turn: &mut Turn, sess: SessId, body: &[u8], live: &Live) -> Result<(), Stopped>
    ensures same { turn.new.shown ≡ turn.old.shown }
    ensures goes { Goes 0 (live_activated sess body.now live.now) turn.old result turn.new }
{
    match note_active(turn, sess, live.sub.due, live.sub.timer) {
        Ok(made) => tell_active(turn, made, sess, body, live),
        Err(stop) => Err(stop),
    }
}

#[tactic(auto, using(crate::proofs::NotifyCalls::sent_through, crate::proofs::NotifyCalls::sent_stopped))]
fn activate_one(
    turn: &mut Turn,
    sess: SessId,
    body: &[u8],
    live: &Live,
) -> Result<ReqId, NotifyRefused>
    ensures same { turn.new.shown ≡ turn.old.shown }
    ensures carried { IsCarriedOut (live_activated sess body.now live.now) live.now.next turn.old
        result turn.new }
{
    match activate_live(turn, sess, body, live) {
        Ok(()) => Ok(live.next),
        Err(stop) => Err(turned(stop)),
    }
}

#[tactic(auto, using(crate::proofs::NotifyCalls::activate_pending, crate::proofs::NotifyCalls::activate_active))]
fn activate_by(
    turn: &mut Turn,
    sess: SessId,
    body: &[u8],
    live: &Live,
) -> Result<ReqId, NotifyRefused>
    ensures same { turn.new.shown ≡ turn.old.shown }
    ensures carried { IsActivated (live_activated sess body.now live.now) live.now turn.old result
        turn.new }
{
    if live.sub.active {
        return Err(NotifyRefused::NotPending);
    }
    activate_one(turn, sess, body, live)
}

/// Makes a pending subscription active (RFC 6665 section 4.1.3): `set_attribute` of `sub` with the
/// SipSession's number to `A DUE TIMER`, and then, where that was accepted, a NOTIFY
/// (`create_in_dialog`, `send`) with the subscription's Event, `active` with the seconds that are
/// left, rounded up, and this body. Gives the NOTIFY's number.
///
/// # Errors
///
/// The first of these that holds:
/// - `NotSubscribed`: the SipSession has no subscription. No call is made.
/// - `NotPending`: the subscription is active. No call is made.
/// - `Turn`: the turn refuses one of the calls, and the ones before it were accepted.
///
/// For want of memory it is `Turn` with `NoMemory`; where a call of this turn wanted memory before,
/// the turn is over, and nothing is said.
#[tactic(auto, using(crate::proofs::NotifyCalls::activate_some, crate::proofs::NotifyCalls::activate_none, crate::proofs::NotifyCalls::pending_wanting))]
pub fn activate(turn: &mut Turn, sess: SessId, body: &[u8]) -> Result<ReqId, NotifyRefused>
    ensures same { turn.new.shown ≡ turn.old.shown }
    ensures carried { turn.old.starved ≡ false
        → IsOfPending (subscription_of (play_of turn.old).view sess)
        (activates (play_of turn.old).view sess body.now) (next_of (play_of turn.old).view)
        turn.old result turn.new }
{
    match live_of(memory_of(turn), turn.view(), sess) {
        Ok(Some(live)) => activate_by(turn, sess, body, &live),
        Ok(None) => Err(NotifyRefused::NotSubscribed),
        Err(NoMemory) => Err(turned(wanting(0))),
    }
}
