//! How subscriptions end: as the servlet says, with their time, or where a NOTIFY failed (RFC 6665
//! sections 4.2.1 and 4.2.2).

ghost use Rattle.std.specs.Prelude.{◌≡◌, ◌++◌, ◌<◌, Some, false, codes, option_map, IfOk};
ghost use Rattle.sc_hosts.specs.HelperParts.{accepted_then};
ghost use Rattle.sc_hosts.specs.Scripting.{only, where_some};
ghost use Rattle.sc_hosts.specs.Subscriptions.{ended_sub, failed_sub, subscription_of, timeout_state};
ghost use Rattle.sc_turn.specs.Working.{play_of};
ghost use Rattle.sc_helpers.specs.Stopping.{Goes, Leads};
ghost use Rattle.sc_notifies.specs.Notifying.{IsCarriedOut, IsEnded, IsFailed, IsOfSubscription, ends, fired_of, live_ended, live_failed, next_of, over_by, over_script};

use crate::notifying::{clear, end_live};
use crate::refused::{NotifyRefused, turned};
use crate::standing::{Live, live_by, live_of};
use crate::sub_texts::{NamedSubscribed, first_sub};
use sc_apps::memory_of;
use sc_helpers::{Stopped, counted, wanting};
use sc_terms::{Call, View};
use sc_turn::Turn;
use sc_value::{NoMemory, ReqId, SessId, Text, TimerId};
use std::alloc::Global;

/// A subscription whose timer fired, with its SipSession.
#[derive(Drop)]
pub struct Over {
    /// The SipSession.
    pub sess: SessId,
    /// The subscription.
    pub live: Live,
}

fn reason_text(alloc: Global, reason: &[u8]) -> Result<Text, NoMemory>
    ensures { IfOk result (λ text. text ≡ codes "terminated;reason=" ++ reason.now) }
{
    let mut text = Text::from_slice(alloc, b"terminated;reason=")?;
    text.append(reason)?;
    Ok(text)
}

#[tactic(auto, using(sc_helpers::proofs::Steps::goes_wanting))]
fn end_for(turn: &mut Turn, sess: SessId, reason: &[u8], live: &Live) -> Result<(), Stopped>
    ensures same { turn.new.shown ≡ turn.old.shown }
    ensures goes { Goes 0 (live_ended sess (codes "terminated;reason=" ++ reason.now) live.now)
        turn.old result turn.new }
{
    match reason_text(memory_of(turn), reason) {
        Ok(state) => end_live(turn, sess, state.as_bytes(), live),
        Err(NoMemory) => Err(wanting(0)),
    }
}

#[tactic(auto, using(crate::proofs::NotifyCalls::sent_through, crate::proofs::NotifyCalls::sent_stopped))]
fn end_one(
    turn: &mut Turn,
    sess: SessId,
    reason: &[u8],
    live: &Live,
) -> Result<ReqId, NotifyRefused>
    ensures same { turn.new.shown ≡ turn.old.shown }
    ensures carried { IsCarriedOut
        (live_ended sess (codes "terminated;reason=" ++ reason.now) live.now) live.now.next turn.old
        result turn.new }
{
    match end_for(turn, sess, reason, live) {
        Ok(()) => Ok(live.next),
        Err(stop) => Err(turned(stop)),
    }
}

/// Ends a subscription for this reason (RFC 6665 section 4.1.3), as `noresource`: `cancel_timer` of
/// its timer, where that runs; `remove_attribute` of `sub` and of `ev` with the SipSession's
/// number, where they are set; and last a NOTIFY (`create_in_dialog`, `send`) with the
/// subscription's Event and `terminated;reason=REASON`, without body. Each is made where the one
/// before was accepted. Gives the NOTIFY's number.
///
/// # Errors
///
/// The first of these that holds:
/// - `NotSubscribed`: the SipSession has no subscription. No call is made.
/// - `Turn`: the turn refuses one of the calls, and the ones before it were accepted.
///
/// For want of memory it is `Turn` with `NoMemory`; where a call of this turn wanted memory before,
/// the turn is over, and nothing is said.
#[tactic(auto, using(crate::proofs::NotifyCalls::end_some, crate::proofs::NotifyCalls::end_none, crate::proofs::NotifyCalls::sub_wanting))]
pub fn end(turn: &mut Turn, sess: SessId, reason: &[u8]) -> Result<ReqId, NotifyRefused>
    ensures same { turn.new.shown ≡ turn.old.shown }
    ensures carried { turn.old.starved ≡ false
        → IsOfSubscription (subscription_of (play_of turn.old).view sess)
        (ends (play_of turn.old).view sess reason.now) (next_of (play_of turn.old).view) turn.old
        result turn.new }
{
    match live_of(memory_of(turn), turn.view(), sess) {
        Ok(Some(live)) => end_one(turn, sess, reason, &live),
        Ok(None) => Err(NotifyRefused::NotSubscribed),
        Err(NoMemory) => Err(turned(wanting(0))),
    }
}

#[tactic(auto, using(sc_helpers::proofs::Steps::led_called, sc_helpers::proofs::Steps::called_same))]
fn try_invalidate(turn: &mut Turn, made: u8, sess: SessId) -> Result<u8, Stopped>
    requires few { made < 100 }
    ensures same { turn.new.shown ≡ turn.old.shown }
    ensures led { Leads (accepted_then (Call.InvalidateSession sess)) made turn.old result
        turn.new }
{
    let told = turn.invalidate_session(sess);
    counted(made, told)
}

#[tactic(auto, using(sc_helpers::proofs::Steps::last_on, sc_helpers::proofs::Steps::last_off))]
fn end_session(turn: &mut Turn, made: u8, sess: SessId) -> Result<(), Stopped>
    requires few { made < 100 }
    ensures same { turn.new.shown ≡ turn.old.shown }
    ensures goes { Goes made (only (Call.InvalidateSession sess)) turn.old result turn.new }
{
    match try_invalidate(turn, made, sess) {
        Ok(_) => Ok(()),
        Err(stop) => Err(stop),
    }
}

#[tactic(auto, unfolding(crate::specs::Notifying::live_failed), using(crate::proofs::SubLed::cleared_on, crate::proofs::SubLed::cleared_off))]
fn fail_live(turn: &mut Turn, sess: SessId, live: &Live) -> Result<(), Stopped>
    ensures same { turn.new.shown ≡ turn.old.shown }
    ensures goes { Goes 0 (live_failed sess live.now) turn.old result turn.new }
{
    match clear(turn, 0, sess, &live.standing) {
        Ok(made) => end_session(turn, made, sess),
        Err(stop) => Err(stop),
    }
}

#[tactic(auto, using(crate::proofs::NotifyCalls::failed_through, crate::proofs::NotifyCalls::failed_stopped))]
fn fail_one(turn: &mut Turn, sess: SessId, live: &Live) -> Result<(), NotifyRefused>
    ensures same { turn.new.shown ≡ turn.old.shown }
    ensures ended { IsEnded (live_failed sess live.now) turn.old result turn.new }
{
    match fail_live(turn, sess, live) {
        Ok(()) => Ok(()),
        Err(stop) => Err(turned(stop)),
    }
}

/// Ends a subscription with its SipSession, where a NOTIFY failed (RFC 6665 section 4.2.2):
/// `cancel_timer` of its timer, where that runs; `remove_attribute` of `sub` and of `ev` with the
/// SipSession's number, where they are set; and last
/// `invalidate_session`. Each is made where the one before was accepted. No NOTIFY is sent.
///
/// # Errors
///
/// The first of these that holds:
/// - `NotSubscribed`: the SipSession has no subscription. No call is made.
/// - `Turn`: the turn refuses one of the calls, and the ones before it were accepted.
///
/// For want of memory it is `Turn` with `NoMemory`; where a call of this turn wanted memory before,
/// the turn is over, and nothing is said.
#[tactic(auto, using(crate::proofs::NotifyCalls::failed_some, crate::proofs::NotifyCalls::failed_none, crate::proofs::NotifyCalls::failed_wanting))]
pub fn failed(turn: &mut Turn, sess: SessId) -> Result<(), NotifyRefused>
    ensures same { turn.new.shown ≡ turn.old.shown }
    ensures ended { turn.old.starved ≡ false
        → IsFailed (subscription_of (play_of turn.old).view sess)
        (failed_sub (play_of turn.old).view sess) turn.old result turn.new }
{
    match live_of(memory_of(turn), turn.view(), sess) {
        Ok(Some(live)) => fail_one(turn, sess, &live),
        Ok(None) => Err(NotifyRefused::NotSubscribed),
        Err(NoMemory) => Err(turned(wanting(0))),
    }
}

#[tactic(auto, unfolding(crate::specs::Notifying::over_by))]
fn over_by(alloc: Global, view: &View, named: NamedSubscribed) -> Result<Over, NoMemory>
    ensures { IfOk result (λ over. over ≡ over_by view.entry.now named) }
{
    let sess = named.sess;
    let live = live_by(alloc, view, sess, named.sub)?;
    Ok(Over { sess, live })
}

fn over_some(
    alloc: Global,
    view: &View,
    named: Option<NamedSubscribed>,
) -> Result<Option<Over>, NoMemory>
    ensures { IfOk result (λ over. over ≡ option_map (over_by view.entry.now) named) }
{
    match named {
        Some(named) => {
            let over = over_by(alloc, view, named)?;
            Ok(Some(over))
        }
        None => Ok(None),
    }
}

#[tactic(auto, unfolding(crate::specs::Notifying::fired_of))]
fn over_of(alloc: Global, view: &View, id: TimerId) -> Result<Option<Over>, NoMemory>
    ensures { IfOk result
        (λ over. over ≡ option_map (over_by view.entry.now) (fired_of view.entry.now id)) }
{
    let named = first_sub(view.attributes.as_slice(), id);
    over_some(alloc, view, named)
}

#[tactic(auto, unfolding(sc_hosts::specs::Subscriptions::timeout_state))]
fn end_over(turn: &mut Turn, over: &Over) -> Result<(), Stopped>
    ensures same { turn.new.shown ≡ turn.old.shown }
    ensures goes { Goes 0 (live_ended over.now.sess timeout_state over.now.live) turn.old result
        turn.new }
{
    end_live(turn, over.sess, b"terminated;reason=timeout", &over.live)
}

#[tactic(auto, using(crate::proofs::NotifyCalls::over_through, crate::proofs::NotifyCalls::over_stopped))]
fn fire_one(turn: &mut Turn, over: &Over) -> Result<Option<ReqId>, NotifyRefused>
    ensures same { turn.new.shown ≡ turn.old.shown }
    ensures carried { IsCarriedOut (live_ended over.now.sess timeout_state over.now.live)
        (Some over.now.live.next) turn.old result turn.new }
{
    match end_over(turn, over) {
        Ok(()) => Ok(Some(over.live.next)),
        Err(stop) => Err(turned(stop)),
    }
}

#[tactic(auto, unfolding(sc_hosts::specs::Scripting::where_some, crate::specs::Notifying::over_script), using(crate::proofs::NotifyCalls::nothing_over))]
fn fire_by(turn: &mut Turn, over: Option<Over>) -> Result<Option<ReqId>, NotifyRefused>
    ensures same { turn.new.shown ≡ turn.old.shown }
    ensures carried { IsCarriedOut (where_some over over_script)
        (option_map (λ o. o.live.next) over) turn.old result turn.new }
{
    match over {
        Some(over) => fire_one(turn, &over),
        None => Ok(None),
    }
}

/// Ends the subscription whose timer fired, where an attribute names this timer: it makes the calls
/// of [`end`] for the reason `timeout`, and gives the NOTIFY's number. `None` comes exactly where
/// no attribute does; no call is made then.
///
/// # Errors
///
/// `Turn` alone: the turn refuses one of the calls, and the ones before it were accepted. For want
/// of memory it is `Turn` with `NoMemory`; where a call of this turn wanted memory before, the turn
/// is over, and nothing is said.
#[tactic(auto, using(crate::proofs::NotifyCalls::fire_carried, crate::proofs::NotifyCalls::fire_wanting))]
pub fn fire(turn: &mut Turn, id: TimerId) -> Result<Option<ReqId>, NotifyRefused>
    ensures same { turn.new.shown ≡ turn.old.shown }
    ensures carried { turn.old.starved ≡ false
        → IsCarriedOut
        (where_some (fired_of (play_of turn.old).view id) (ended_sub (play_of turn.old).view))
        (option_map (λ named. next_of (play_of turn.old).view)
        (fired_of (play_of turn.old).view id)) turn.old result turn.new }
{
    match over_of(memory_of(turn), turn.view(), id) {
        Ok(over) => fire_by(turn, over),
        Err(NoMemory) => Err(turned(wanting(0))),
    }
}
