//! How session timers end: the side that refreshes sends an UPDATE, the other side a BYE (RFC 4028
//! sections 7.2 and 10).

ghost use Rattle.std.specs.Prelude.{◌≡◌, ◌≤◌, ◌++◌, ◌∷◌, ◌<◌, [], true, false, codes, decimal, IfSome, IfOk};
ghost use Rattle.sc_hosts.specs.HelperParts.{field, send_in, supported_word};
ghost use Rattle.sc_hosts.specs.Scripting.{only, where_some};
ghost use Rattle.sc_hosts.specs.SessionTimers.{refresh_by, script_after_refresh, session_expires, timed_name, timed_text, timer_option};
ghost use Rattle.sc_model.specs.Dialogs.{update};
ghost use Rattle.sc_model.specs.SessionStates.{bye};
ghost use Rattle.sc_turn.specs.Working.{play_of};
ghost use Rattle.sc_helpers.specs.Stopping.{Goes, IsCarried, Leads};
ghost use Rattle.sc_refreshes.specs.Refreshing.{answered_by, answered_of, fired_by, fired_of, fired_to, timer_at};
ghost use Rattle.sc_refreshes.specs.TimedScripts.{refreshed_by, stop_of};

use crate::expiries::refresh_fields;
use crate::stopping::{Stop, stop_of, timed_in};
use crate::timed_texts::{NamedRefresh, Refresh, first_timed, timed_name};
use crate::timing::{note, restart};
use sc_apps::memory_of;
use sc_helpers::{Stopped, try_remove_attribute, try_send_in, wanting};
use sc_methods::{is_failure, is_success};
use sc_terms::{Call, View};
use sc_turn::Turn;
use sc_value::{Field, List, NoMemory, ReqId, SessId, Text, TimerId};
use std::alloc::Global;

/// What a timer that fired brought.
#[derive(Clone, Copy, Debug, PartialEq, Eq)]
pub enum Fired {
    /// Nothing: it is no session timer's.
    NotMine,
    /// An UPDATE of this number, which refreshes the session.
    Refresh(ReqId),
    /// A BYE of this number, as the peer didn't refresh the session.
    Bye(ReqId),
}

#[tactic(auto, unfolding(crate::specs::Refreshing::fired_to))]
fn fired_to(me: bool, next: ReqId) -> Fired
    ensures { result ≡ fired_to me next }
{
    if me {
        Fired::Refresh(next)
    } else {
        Fired::Bye(next)
    }
}

#[tactic(auto, using(sc_helpers::proofs::Steps::sent_on, sc_helpers::proofs::Steps::sent_off))]
fn send_refresh(
    turn: &mut Turn,
    sess: SessId,
    seconds: u32,
    fields: List<Field>,
) -> Result<(), Stopped>
    ensures same { turn.new.shown ≡ turn.old.shown }
    ensures goes { Goes 0
        (send_in sess update fields []
        (only (Call.SetAttribute (timed_name sess) (timed_text seconds true 0)))) turn.old result
        turn.new }
{
    match send_update(turn, sess, fields) {
        Ok(made) => note(turn, made, sess, seconds, true, 0),
        Err(stop) => Err(stop),
    }
}

#[tactic(auto, unfolding(sc_model::specs::Dialogs::update))]
fn send_update(turn: &mut Turn, sess: SessId, fields: List<Field>) -> Result<u8, Stopped>
    ensures same { turn.new.shown ≡ turn.old.shown }
    ensures led { Leads (send_in sess update fields []) 0 turn.old result turn.new }
    ensures count { IfOk result (λ after. after ≡ 2) }
{
    try_send_in(turn, 0, sess, b"UPDATE", fields, b"")
}

#[tactic(auto, using(sc_helpers::proofs::Steps::goes_wanting))]
fn refresh(turn: &mut Turn, sess: SessId, seconds: u32) -> Result<(), Stopped>
    ensures same { turn.new.shown ≡ turn.old.shown }
    ensures goes { Goes 0
        (send_in sess update
        (field session_expires (decimal seconds ++ codes ";refresher=uac")
        ∷ field supported_word timer_option ∷ []) []
        (only (Call.SetAttribute (timed_name sess) (timed_text seconds true 0)))) turn.old result
        turn.new }
{
    match refresh_fields(memory_of(turn), seconds) {
        Ok(fields) => send_refresh(turn, sess, seconds, fields),
        Err(NoMemory) => Err(wanting(0)),
    }
}

#[tactic(auto, unfolding(sc_model::specs::SessionStates::bye))]
fn send_bye(turn: &mut Turn, sess: SessId) -> Result<u8, Stopped>
    ensures same { turn.new.shown ≡ turn.old.shown }
    ensures led { Leads (send_in sess bye [] []) 0 turn.old result turn.new }
    ensures count { IfOk result (λ after. after ≡ 2) }
{
    let none = List::new(memory_of(turn));
    try_send_in(turn, 0, sess, b"BYE", none, b"")
}

#[tactic(auto, using(sc_helpers::proofs::Steps::sent_on, sc_helpers::proofs::Steps::sent_off))]
fn give_up(turn: &mut Turn, sess: SessId) -> Result<(), Stopped>
    ensures same { turn.new.shown ≡ turn.old.shown }
    ensures goes { Goes 0 (send_in sess bye [] [] (only (Call.RemoveAttribute (timed_name sess))))
        turn.old result turn.new }
{
    match send_bye(turn, sess) {
        Ok(made) => forget(turn, made, sess),
        Err(stop) => Err(stop),
    }
}

#[tactic(auto, using(sc_helpers::proofs::Steps::last_on, sc_helpers::proofs::Steps::last_off))]
fn remove(turn: &mut Turn, made: u8, name: Text) -> Result<(), Stopped>
    requires few { made < 100 }
    ensures same { turn.new.shown ≡ turn.old.shown }
    ensures goes { Goes made (only (Call.RemoveAttribute name)) turn.old result turn.new }
{
    match try_remove_attribute(turn, made, name) {
        Ok(_) => Ok(()),
        Err(stop) => Err(stop),
    }
}

#[tactic(auto, using(sc_helpers::proofs::Steps::goes_wanting))]
fn forget(turn: &mut Turn, made: u8, sess: SessId) -> Result<(), Stopped>
    requires few { made < 100 }
    ensures same { turn.new.shown ≡ turn.old.shown }
    ensures goes { Goes made (only (Call.RemoveAttribute (timed_name sess))) turn.old result
        turn.new }
{
    match timed_name(memory_of(turn), sess) {
        Ok(name) => remove(turn, made, name),
        Err(NoMemory) => Err(wanting(made)),
    }
}

#[tactic(auto, unfolding(sc_hosts::specs::SessionTimers::refresh_by))]
fn refresh_by(turn: &mut Turn, named: &NamedRefresh) -> Result<(), Stopped>
    ensures same { turn.new.shown ≡ turn.old.shown }
    ensures goes { Goes 0 (refresh_by named.now) turn.old result turn.new }
{
    let sess = named.sess;
    if named.refresh.me {
        return refresh(turn, sess, named.refresh.seconds);
    }
    give_up(turn, sess)
}

#[tactic(auto, using(sc_helpers::proofs::Steps::goes_carried, sc_helpers::proofs::Steps::goes_stopped))]
fn fire_one(turn: &mut Turn, named: &NamedRefresh, next: ReqId) -> Result<Fired, Stopped>
    ensures same { turn.new.shown ≡ turn.old.shown }
    ensures carried { IsCarried (refresh_by named.now) (fired_to named.now.timed.me next) turn.old
        result turn.new }
{
    match refresh_by(turn, named) {
        Ok(()) => Ok(fired_to(named.refresh.me, next)),
        Err(stop) => Err(stop),
    }
}

#[tactic(auto, unfolding(sc_hosts::specs::Scripting::where_some, crate::specs::Refreshing::fired_by), using(crate::proofs::TimedCalls::nothing_fired))]
fn fire_by(turn: &mut Turn, named: Option<NamedRefresh>, next: ReqId) -> Result<Fired, Stopped>
    ensures same { turn.new.shown ≡ turn.old.shown }
    ensures carried { IsCarried (where_some named refresh_by) (fired_by next named) turn.old result
        turn.new }
{
    match named {
        Some(named) => fire_one(turn, &named, next),
        None => Ok(Fired::NotMine),
    }
}

#[tactic(auto, unfolding(crate::specs::Refreshing::fired_of))]
fn fired_of(view: &View, id: TimerId) -> (Option<NamedRefresh>, ReqId)
    ensures named { result.0 ≡ fired_of view.entry.now id }
    ensures next { result.1 ≡ record { 0 = view.entry.now.next_request } }
{
    let named = first_timed(view.attributes.as_slice(), id);
    (named, ReqId(view.next_request))
}

/// Acts where the servlet timer of a session timer fired: where an attribute of a session timer
/// names this timer, it sends an UPDATE where the application refreshes the session, with the
/// headers `Session-Expires: SECONDS;refresher=uac` and `Supported: timer`, and then sets the
/// attribute to `SECONDS me 0`; else it sends a BYE, and then removes the attribute (RFC 4028
/// sections 7.2 and 10). Each is made where the one before was accepted: `create_in_dialog`,
/// `send`, and the change of the attribute. Tells what was sent, by the request's number. `NotMine`
/// comes exactly where no attribute names the timer; no call is made then.
///
/// # Errors
///
/// The turn refuses one of the calls, and the ones before it were accepted: [`Stopped`] says which.
/// None is made behind it. For want of memory it is `NoMemory`; where a call of this turn wanted
/// memory before, the turn is over, and nothing is said.
#[tactic(auto, using(crate::proofs::TimedCalls::fire_carried))]
pub fn fire(turn: &mut Turn, id: TimerId) -> Result<Fired, Stopped>
    ensures same { turn.new.shown ≡ turn.old.shown }
    ensures carried { turn.old.starved ≡ false
        → IsCarried (where_some (fired_of (play_of turn.old).view id) refresh_by)
        (fired_by (record { 0 = (play_of turn.old).view.next_request })
        (fired_of (play_of turn.old).view id)) turn.old result turn.new }
{
    let (named, next) = fired_of(turn.view(), id);
    fire_by(turn, named, next)
}

#[tactic(auto, unfolding(crate::specs::TimedScripts::refreshed_by), using(sc_helpers::proofs::Steps::goes_done))]
fn refreshed_by(
    turn: &mut Turn,
    sess: SessId,
    code: u16,
    timed: &Refresh,
    what: &Stop,
) -> Result<(), Stopped>
    requires interval { timed.now.seconds ≤ 4000000 }
    ensures same { turn.new.shown ≡ turn.old.shown }
    ensures goes { Goes 0 (refreshed_by what.now sess code timed.now) turn.old result turn.new }
{
    if !(timed.me && timed.timer == 0) {
        return Ok(());
    }
    if is_success(code) {
        return restart(turn, sess, timed.seconds, true, what);
    }
    if is_failure(code) {
        return give_up(turn, sess);
    }
    Ok(())
}

#[tactic(auto, unfolding(crate::specs::Refreshing::answered_of))]
fn answered_of(code: u16, next: ReqId, timed: &Refresh) -> Option<ReqId>
    ensures { result ≡ answered_of code next timed.now }
{
    if timed.me && timed.timer == 0 && !is_success(code) && is_failure(code) {
        Some(next)
    } else {
        None
    }
}

#[tactic(auto, using(sc_helpers::proofs::Steps::goes_carried, sc_helpers::proofs::Steps::goes_stopped))]
fn answered_one(
    turn: &mut Turn,
    sess: SessId,
    code: u16,
    timed: &Refresh,
    what: &Stop,
    next: ReqId,
) -> Result<Option<ReqId>, Stopped>
    requires interval { timed.now.seconds ≤ 4000000 }
    ensures same { turn.new.shown ≡ turn.old.shown }
    ensures carried { IsCarried (refreshed_by what.now sess code timed.now)
        (answered_of code next timed.now) turn.old result turn.new }
{
    match refreshed_by(turn, sess, code, timed, what) {
        Ok(()) => Ok(answered_of(code, next, timed)),
        Err(stop) => Err(stop),
    }
}

#[tactic(auto, unfolding(sc_hosts::specs::Scripting::where_some, crate::specs::Refreshing::answered_by), using(crate::proofs::TimedCalls::nothing_answered))]
fn answered_by(
    turn: &mut Turn,
    sess: SessId,
    code: u16,
    timed: Option<Refresh>,
    what: &Stop,
    next: ReqId,
) -> Result<Option<ReqId>, Stopped>
    requires interval { IfSome timed (λ timed. timed.seconds ≤ 4000000) }
    ensures same { turn.new.shown ≡ turn.old.shown }
    ensures carried { IsCarried (where_some timed (refreshed_by what.now sess code))
        (answered_by code next timed) turn.old result turn.new }
{
    match timed {
        Some(timed) => answered_one(turn, sess, code, &timed, what, next),
        None => Ok(None),
    }
}

#[tactic(auto, unfolding(crate::specs::Refreshing::timer_at))]
fn refreshes_of(
    alloc: Global,
    view: &View,
    sess: SessId,
) -> Result<(Option<Refresh>, Stop, ReqId), NoMemory>
    ensures exact { IfOk result
        (λ read.
        (read.0 ≡ timer_at view.entry.now sess) × (read.1 ≡ stop_of view.entry.now sess)
        × (read.2 ≡ record { 0 = view.entry.now.next_request })) }
    ensures within { IfOk result (λ read. IfSome read.0 (λ timed. timed.seconds ≤ 4000000)) }
{
    let timed = timed_in(alloc, view, sess)?;
    let what = stop_of(alloc, view, sess)?;
    Ok((timed, what, ReqId(view.next_request)))
}

/// Acts on the response to a refresh of this SipSession, which came with this code: where its
/// session timer waits for that, a 2xx begins the timer anew, as [`begin`](crate::begin) does for
/// the same seconds and the application as the one that refreshes; a code of 300 to 699 ends the
/// session by a BYE, whose number it gives, and the attribute is removed (RFC 4028 section 7.2). In
/// every other case it makes no call and gives `None`.
///
/// # Errors
///
/// The turn refuses one of the calls, and the ones before it were accepted: [`Stopped`] says which.
/// None is made behind it. For want of memory it is `NoMemory`; where a call of this turn wanted
/// memory before, the turn is over, and nothing is said.
#[tactic(auto, using(crate::proofs::TimedCalls::answered_carried, crate::proofs::TimedCalls::wanting_carried))]
pub fn answered(turn: &mut Turn, sess: SessId, code: u16) -> Result<Option<ReqId>, Stopped>
    ensures same { turn.new.shown ≡ turn.old.shown }
    ensures carried { turn.old.starved ≡ false
        → IsCarried
        (where_some (timer_at (play_of turn.old).view sess)
        (script_after_refresh (play_of turn.old).view sess code))
        (answered_by code (record { 0 = (play_of turn.old).view.next_request })
        (timer_at (play_of turn.old).view sess)) turn.old result turn.new }
{
    match refreshes_of(memory_of(turn), turn.view(), sess) {
        Ok((timed, what, next)) => answered_by(turn, sess, code, timed, &what, next),
        Err(NoMemory) => Err(wanting(0)),
    }
}
