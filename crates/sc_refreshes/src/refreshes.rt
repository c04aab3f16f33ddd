//! The application that keeps sessions alive by timers.

ghost use Rattle.std.specs.Prelude.{◌≡◌, ◌<◌, ◌+◌, [], false, option_and_then, if◌then◌else◌, OnOk};
ghost use Rattle.sc_tokens.specs.Names.{same_bytes};
ghost use Rattle.sc_terms.specs.declared.charters.Charter.{Charter};
ghost use Rattle.sc_model.specs.Dialogs.{update};
ghost use Rattle.sc_model.specs.SessionStates.{bye, invite};
ghost use Rattle.sc_hosts.specs.Charters.{reply_ok};
ghost use Rattle.sc_hosts.specs.RefusalParts.{MOST_CALLS};
ghost use Rattle.sc_hosts.specs.Scripting.{Done, attribute, only, reply, then_make, where_some};
ghost use Rattle.sc_hosts.specs.SessionTimers.{grant, is_granting, refresh_by, script_after_refresh, stop_then, timed_name, timed_of, timed_script};
ghost use Rattle.sc_hosts.specs.Words.{ok};
ghost use Rattle.sc_turn.specs.Working.{play_of};
ghost use Rattle.sc_apps.specs.Scripted.{IsPlayed};
ghost use Rattle.sc_refreshes.specs.Refreshing.{fired_of, timer_at};
ghost use Rattle.sc_refreshes.specs.TimedScripts.{script_with_stop};

use crate::granting::grant;
use crate::refreshing::{answered, fire};
use crate::stopping::{Stop, play_stop, stop_of};
use sc_apps::{ended, memory_of, reply_200, reply_first_200, reply_ok, shown};
use sc_helpers::heard;
use sc_methods::{is_bye, is_invite};
use sc_servlets::SipServlet;
use sc_terms::{Charter, End, Event};
use sc_turn::Turn;
use sc_value::{NoMemory, ReqId, Request, Response, SessId, TimerId};

/// Answers INVITEs and UPDATEs 200 `OK`, with the session interval that their Session-Expires asks
/// for (RFC 4028 section 9), up to 4,000,000 seconds. An interval below the first parameter, 90 to
/// 86,400 seconds and else 90, it answers 422 `Session Interval Too Small`, or grants none where
/// the request doesn't support timers. Where it refreshes the session itself, it sends an UPDATE
/// after half of the interval; where the peer does, a BYE a third of the interval, at most 32
/// seconds, before its end. A refresh that fails ends the session by a BYE. A BYE ends the timer.
/// Each other request but an ACK it answers 200 `OK`. At all other events it makes no call.
#[derive(Clone, Copy, Debug)]
pub struct Refreshes;

impl SipServlet for Refreshes {
    ghost stated = { λ _. Charter.Timed };

    fn charter(&self) -> Charter {
        Charter::Timed
    }

    #[tactic(auto, unfolding(sc_servlets::specs::Brought::Promises, sc_hosts::specs::Bringing::servlet_script), using(sc_apps::proofs::Playing::keeps))]
    fn turn(&self, t: &mut Turn, e: &Event) -> End {
        ended(handle(t, e))
    }
}

#[tactic(auto, unfolding(sc_hosts::specs::SessionTimers::timed_script, crate::specs::Refreshing::fired_of), using(sc_apps::proofs::Playing::played_done))]
fn handle(t: &mut Turn, e: &Event) -> Result<(), NoMemory>
    requires calls { t.old.calls ≡ [] }
    requires memory { t.old.starved ≡ false }
    ensures same { t.new.shown ≡ t.old.shown }
    ensures played { OnOk result (IsPlayed (timed_script t.old.shown e.now) t.old t.new) }
{
    match e {
        Event::Initial {
            req,
            sess,
            request,
            ..
        } => begin(t, *req, *sess, request.get()),
        Event::Request { req, sess, request } => take_later(t, *req, *sess, request.get()),
        Event::Response { sess, response, .. } => take_response(t, *sess, response.get()),
        Event::Branch { .. } => Ok(()),
        Event::Cancelled { .. } => Ok(()),
        Event::Timer { id, .. } => time_out(t, *id),
        Event::Expired => Ok(()),
        Event::Ready => Ok(()),
    }
}

#[tactic(auto, using(sc_apps::proofs::Playing::begun_room))]
fn begin(t: &mut Turn, req: ReqId, sess: SessId, request: &Request) -> Result<(), NoMemory>
    requires calls { t.old.calls ≡ [] }
    requires memory { t.old.starved ≡ false }
    ensures same { t.new.shown ≡ t.old.shown }
    ensures played { OnOk result
        (IsPlayed
        (if same_bytes request.now.method invite then grant t.old.shown req sess request.now
        else only (reply req 200 ok)) t.old t.new) }
{
    if is_invite(request.method.as_bytes()) {
        return grant(t, req, sess, request);
    }
    reply_200(t, req)
}

#[tactic(auto, unfolding(sc_model::specs::Dialogs::update))]
fn is_update(method: &[u8]) -> bool
    ensures { result ≡ same_bytes method.now update }
{
    method == b"UPDATE".as_slice()
}

#[tactic(auto, unfolding(sc_hosts::specs::SessionTimers::is_granting))]
fn is_granting(request: &Request) -> bool
    ensures { result ≡ is_granting request.now }
{
    is_invite(request.method.as_bytes()) || is_update(request.method.as_bytes())
}

#[tactic(auto, using(sc_apps::proofs::Playing::begun_room))]
fn take_later(t: &mut Turn, req: ReqId, sess: SessId, request: &Request) -> Result<(), NoMemory>
    requires calls { t.old.calls ≡ [] }
    requires memory { t.old.starved ≡ false }
    ensures same { t.new.shown ≡ t.old.shown }
    ensures played { OnOk result
        (IsPlayed
        (if is_granting request.now then grant t.old.shown req sess request.now
        else (if same_bytes request.now.method bye
        then then_make (reply req 200 ok) (stop_then sess t.old.shown Done)
        else reply_ok req request.now)) t.old t.new) }
{
    if is_granting(request) {
        return grant(t, req, sess, request);
    }
    if is_bye(request.method.as_bytes()) {
        return end(t, req, sess);
    }
    reply_ok(t, req, request)
}

#[tactic(auto, using(sc_apps::proofs::Playing::begun_room, crate::proofs::TimedLaws::played_stop))]
fn end(t: &mut Turn, req: ReqId, sess: SessId) -> Result<(), NoMemory>
    requires calls { t.old.calls ≡ [] }
    requires memory { t.old.starved ≡ false }
    ensures same { t.new.shown ≡ t.old.shown }
    ensures played { OnOk result
        (IsPlayed (then_make (reply req 200 ok) (stop_then sess t.old.shown Done)) t.old t.new) }
{
    let what = stop_of(memory_of(t), shown(t), sess)?;
    answer_and_stop(t, req, &what)
}

#[tactic(auto, using(sc_apps::proofs::Playing::played_then))]
fn answer_and_stop(t: &mut Turn, req: ReqId, what: &Stop) -> Result<(), NoMemory>
    requires { (play_of t.old).listed + 2 < MOST_CALLS }
    ensures same { t.new.shown ≡ t.old.shown }
    ensures played { OnOk result
        (IsPlayed (then_make (reply req 200 ok) (script_with_stop what.now Done)) t.old t.new) }
{
    reply_first_200(t, req)?;
    play_stop(t, what)
}

#[tactic(auto, unfolding(crate::specs::Refreshing::timer_at), using(sc_apps::proofs::Playing::played_done))]
fn take_response(t: &mut Turn, sess: SessId, response: &Response) -> Result<(), NoMemory>
    requires calls { t.old.calls ≡ [] }
    requires memory { t.old.starved ≡ false }
    ensures same { t.new.shown ≡ t.old.shown }
    ensures played { OnOk result
        (IsPlayed
        (if same_bytes response.now.head.cseq.method update
        then where_some (option_and_then timed_of (attribute (timed_name sess) t.old.shown))
        (script_after_refresh t.old.shown sess response.now.code)
        else Done) t.old t.new) }
{
    if !is_update(response.head.cseq.method.as_bytes()) {
        return Ok(());
    }
    take_answer(t, sess, response.code)
}

#[tactic(auto, using(crate::proofs::TimedPlays::answered_played, crate::proofs::TimedPlays::answered_heard))]
fn take_answer(t: &mut Turn, sess: SessId, code: u16) -> Result<(), NoMemory>
    requires calls { t.old.calls ≡ [] }
    requires memory { t.old.starved ≡ false }
    ensures same { t.new.shown ≡ t.old.shown }
    ensures played { OnOk result
        (IsPlayed (where_some (timer_at t.old.shown sess) (script_after_refresh t.old.shown sess code)) t.old
        t.new) }
{
    match answered(t, sess, code) {
        Ok(_) => Ok(()),
        Err(stop) => heard(stop),
    }
}

#[tactic(auto, using(crate::proofs::TimedPlays::fired_played, crate::proofs::TimedPlays::fired_heard))]
fn time_out(t: &mut Turn, id: TimerId) -> Result<(), NoMemory>
    requires calls { t.old.calls ≡ [] }
    requires memory { t.old.starved ≡ false }
    ensures same { t.new.shown ≡ t.old.shown }
    ensures played { OnOk result
        (IsPlayed (where_some (fired_of t.old.shown id) refresh_by) t.old t.new) }
{
    match fire(t, id) {
        Ok(_) => Ok(()),
        Err(stop) => heard(stop),
    }
}
