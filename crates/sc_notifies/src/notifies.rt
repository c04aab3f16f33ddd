//! The application that notifies of an event package.

ghost use Rattle.std.specs.Prelude.{◌≡◌, ◌&&◌, ◌+◌, ◌<◌, [], false, if◌then◌else◌, OnOk};
ghost use Rattle.sc_tokens.specs.Names.{same_bytes};
ghost use Rattle.sc_terms.specs.declared.charters.Charter.{Charter};
ghost use Rattle.sc_model.specs.Dialogs.{notify, subscribe};
ghost use Rattle.sc_model.specs.Transactions.{is_failure};
ghost use Rattle.sc_hosts.specs.Charters.{reply_ok};
ghost use Rattle.sc_hosts.specs.RefusalParts.{MOST_CALLS};
ghost use Rattle.sc_hosts.specs.Scripting.{Done, only, reply, then_make, where_some};
ghost use Rattle.sc_hosts.specs.Subscriptions.{accepts, accepts_by, changes, ended_sub, failed_sub, info_word, notify_request, notify_script, rule_in, subscription_of};
ghost use Rattle.sc_hosts.specs.Words.{ok};
ghost use Rattle.sc_turn.specs.Working.{play_of};
ghost use Rattle.sc_apps.specs.Scripted.{IsPlayed};
ghost use Rattle.sc_notifies.specs.Notifying.{fired_of};
ghost use Rattle.sc_model.specs.BestResponses.{server_error};

use crate::accepting::{Grant, accept};
use crate::changing::change;
use crate::ending::{failed, fire};
use crate::refused::told;
use crate::rules::{Rule, rule_in};
use sc_apps::{ended, memory_of, reply_200, reply_500, reply_first_200, reply_ok, shown};
use sc_methods::{is_failure, is_notify, is_subscribe};
use sc_servlets::SipServlet;
use sc_terms::{Call, Charter, End, Event};
use sc_turn::Turn;
use sc_value::{NoMemory, ReqId, Request, Response, SessId, TimerId};

/// Accepts SUBSCRIBEs to the event package that its first parameter names (RFC 6665 section 4.2),
/// for as many seconds as they ask, at least as many as the second parameter and at most as many as
/// the third, and tells the state by a NOTIFY, whose body is the fourth parameter. One for another
/// package it answers 489 `Bad Event`, one for a shorter time 423 `Interval Too Brief`. An INFO in
/// the dialog brings a new state, which it tells. A new subscription is active, and a SUBSCRIBE for
/// some seconds renews it as it is. It ends by a SUBSCRIBE for 0 seconds or with its time, which a
/// last NOTIFY tells, or where a NOTIFY fails, which ends the SipSession.
/// Where the parameters make no such rule, it answers the request that began the application
/// session 500 `Server Internal Error`. Each other request but an ACK it answers 200 `OK`. At all
/// other events it makes no call.
#[derive(Clone, Copy, Debug)]
pub struct Notifies;

impl SipServlet for Notifies {
    ghost stated = { λ _. Charter.Notify };

    fn charter(&self) -> Charter {
        Charter::Notify
    }

    #[tactic(auto, unfolding(sc_servlets::specs::Brought::Promises, sc_hosts::specs::Bringing::servlet_script), using(sc_apps::proofs::Playing::keeps))]
    fn turn(&self, t: &mut Turn, e: &Event) -> End {
        ended(handle(t, e))
    }
}

#[tactic(auto, unfolding(sc_hosts::specs::Subscriptions::notify_script, crate::specs::Notifying::fired_of), using(sc_apps::proofs::Playing::played_done))]
fn handle(t: &mut Turn, e: &Event) -> Result<(), NoMemory>
    requires calls { t.old.calls ≡ [] }
    requires memory { t.old.starved ≡ false }
    ensures same { t.new.shown ≡ t.old.shown }
    ensures played { OnOk result (IsPlayed (notify_script t.old.shown e.now) t.old t.new) }
{
    match e {
        Event::Initial {
            req,
            sess,
            request,
            ..
        } => begin(t, *req, *sess, request.get()),
        Event::Request { req, sess, request } => take_later(t, *req, *sess, request.get()),
        Event::Response { sess, response, .. } => take_response(t, *sess, response.get()),
        Event::Branch { .. } => Ok(()),
        Event::Cancelled { .. } => Ok(()),
        Event::Timer { id, .. } => time_out(t, *id),
        Event::Expired => Ok(()),
        Event::Ready => Ok(()),
    }
}

fn begin(t: &mut Turn, req: ReqId, sess: SessId, request: &Request) -> Result<(), NoMemory>
    requires calls { t.old.calls ≡ [] }
    requires memory { t.old.starved ≡ false }
    ensures same { t.new.shown ≡ t.old.shown }
    ensures played { OnOk result
        (IsPlayed
        (accepts_by t.old.shown (rule_in t.old.shown.params) (reply req 500 server_error) req sess
        request.now) t.old t.new) }
{
    let rule = rule_in(memory_of(t), shown(t).params.as_slice())?;
    begin_by(t, rule, req, sess, request)
}

#[tactic(auto, unfolding(sc_hosts::specs::Subscriptions::accepts_by), using(sc_apps::proofs::Playing::begun_room))]
fn begin_by(
    t: &mut Turn,
    rule: Option<Rule>,
    req: ReqId,
    sess: SessId,
    request: &Request,
) -> Result<(), NoMemory>
    requires calls { t.old.calls ≡ [] }
    requires memory { t.old.starved ≡ false }
    ensures same { t.new.shown ≡ t.old.shown }
    ensures played { OnOk result
        (IsPlayed (accepts_by t.old.shown rule (reply req 500 server_error) req sess request.now)
        t.old t.new) }
{
    match rule {
        Some(rule) => accept_or_answer(t, &rule, req, sess, request),
        None => reply_500(t, req),
    }
}

#[tactic(auto, using(sc_apps::proofs::Playing::begun_room))]
fn accept_or_answer(
    t: &mut Turn,
    rule: &Rule,
    req: ReqId,
    sess: SessId,
    request: &Request,
) -> Result<(), NoMemory>
    requires calls { t.old.calls ≡ [] }
    requires memory { t.old.starved ≡ false }
    ensures same { t.new.shown ≡ t.old.shown }
    ensures played { OnOk result
        (IsPlayed
        (if same_bytes request.now.method subscribe
        then accepts t.old.shown rule.now req sess request.now
        else only (reply req 200 ok)) t.old t.new) }
{
    if is_subscribe(request.method.as_bytes()) {
        return accept_subscribe(t, rule, req, sess, request);
    }
    reply_200(t, req)
}

// A new subscription is active, and one that is there stays what it is.
#[tactic(auto, using(crate::proofs::NotifyPlays::accepts_through, crate::proofs::NotifyPlays::accepts_told))]
fn accept_subscribe(
    t: &mut Turn,
    rule: &Rule,
    req: ReqId,
    sess: SessId,
    request: &Request,
) -> Result<(), NoMemory>
    requires calls { t.old.calls ≡ [] }
    requires memory { t.old.starved ≡ false }
    ensures same { t.new.shown ≡ t.old.shown }
    ensures played { OnOk result
        (IsPlayed (accepts t.old.shown rule.now req sess request.now) t.old t.new) }
{
    match accept(t, req, sess, request, rule, Grant::Active) {
        Ok(_) => Ok(()),
        Err(refused) => told(refused),
    }
}

fn renew(t: &mut Turn, req: ReqId, sess: SessId, request: &Request) -> Result<(), NoMemory>
    requires calls { t.old.calls ≡ [] }
    requires memory { t.old.starved ≡ false }
    ensures same { t.new.shown ≡ t.old.shown }
    ensures played { OnOk result
        (IsPlayed
        (accepts_by t.old.shown (rule_in t.old.shown.params) (reply req 200 ok) req sess
        request.now) t.old t.new) }
{
    let rule = rule_in(memory_of(t), shown(t).params.as_slice())?;
    renew_by(t, rule, req, sess, request)
}

#[tactic(auto, unfolding(sc_hosts::specs::Subscriptions::accepts_by), using(sc_apps::proofs::Playing::begun_room))]
fn renew_by(
    t: &mut Turn,
    rule: Option<Rule>,
    req: ReqId,
    sess: SessId,
    request: &Request,
) -> Result<(), NoMemory>
    requires calls { t.old.calls ≡ [] }
    requires memory { t.old.starved ≡ false }
    ensures same { t.new.shown ≡ t.old.shown }
    ensures played { OnOk result
        (IsPlayed (accepts_by t.old.shown rule (reply req 200 ok) req sess request.now) t.old
        t.new) }
{
    match rule {
        Some(rule) => accept_or_answer(t, &rule, req, sess, request),
        None => reply_200(t, req),
    }
}

#[tactic(auto, unfolding(sc_hosts::specs::Subscriptions::info_word))]
fn is_info(method: &[u8]) -> bool
    ensures { result ≡ same_bytes method.now info_word }
{
    method == b"INFO".as_slice()
}

#[tactic(auto, unfolding(sc_hosts::specs::Subscriptions::notify_request), using(sc_apps::proofs::Playing::begun_room))]
fn take_later(t: &mut Turn, req: ReqId, sess: SessId, request: &Request) -> Result<(), NoMemory>
    requires calls { t.old.calls ≡ [] }
    requires memory { t.old.starved ≡ false }
    ensures same { t.new.shown ≡ t.old.shown }
    ensures played { OnOk result
        (IsPlayed (notify_request t.old.shown (rule_in t.old.shown.params) req sess request.now)
        t.old t.new) }
{
    if is_subscribe(request.method.as_bytes()) {
        return renew(t, req, sess, request);
    }
    if is_info(request.method.as_bytes()) {
        return answer_and_change(t, req, sess, request);
    }
    reply_ok(t, req, request)
}

#[tactic(auto, using(sc_apps::proofs::Playing::begun_room, crate::proofs::ChangePlays::answered_fed, crate::proofs::ChangePlays::answered_then))]
fn answer_and_change(
    t: &mut Turn,
    req: ReqId,
    sess: SessId,
    request: &Request,
) -> Result<(), NoMemory>
    requires calls { t.old.calls ≡ [] }
    requires memory { t.old.starved ≡ false }
    ensures same { t.new.shown ≡ t.old.shown }
    ensures played { OnOk result
        (IsPlayed
        (then_make (reply req 200 ok)
        (where_some (subscription_of t.old.shown sess)
        (changes t.old.shown sess request.now.head.body))) t.old t.new) }
{
    reply_first_200(t, req)?;
    tell_change(t, sess, request.head.body.as_bytes())
}

#[tactic(auto, using(crate::proofs::ChangePlays::change_through, crate::proofs::ChangePlays::change_told))]
fn tell_change(t: &mut Turn, sess: SessId, body: &[u8]) -> Result<(), NoMemory>
    requires room { (play_of t.old).listed + 1 < MOST_CALLS }
    requires memory { t.old.starved ≡ false }
    ensures same { t.new.shown ≡ t.old.shown }
    ensures played { OnOk result
        (IsPlayed
        (where_some (subscription_of (play_of t.old).view sess)
        (changes (play_of t.old).view sess body.now)) t.old t.new) }
{
    match change(t, sess, body) {
        Ok(_) => Ok(()),
        Err(refused) => told(refused),
    }
}

fn is_failed_notify(response: &Response) -> bool
    ensures { result
        ≡ (same_bytes response.now.head.cseq.method notify && is_failure response.now.code) }
{
    is_notify(response.head.cseq.method.as_bytes()) && is_failure(response.code)
}

#[tactic(auto, using(sc_apps::proofs::Playing::played_done))]
fn take_response(t: &mut Turn, sess: SessId, response: &Response) -> Result<(), NoMemory>
    requires calls { t.old.calls ≡ [] }
    requires memory { t.old.starved ≡ false }
    ensures same { t.new.shown ≡ t.old.shown }
    ensures played { OnOk result
        (IsPlayed
        (if same_bytes response.now.head.cseq.method notify && is_failure response.now.code
        then where_some (subscription_of t.old.shown sess) (failed_sub t.old.shown sess)
        else Done) t.old t.new) }
{
    if !is_failed_notify(response) {
        return Ok(());
    }
    fail(t, sess)
}

#[tactic(auto, using(crate::proofs::NotifyPlays::failed_played, crate::proofs::NotifyPlays::failed_told))]
fn fail(t: &mut Turn, sess: SessId) -> Result<(), NoMemory>
    requires calls { t.old.calls ≡ [] }
    requires memory { t.old.starved ≡ false }
    ensures same { t.new.shown ≡ t.old.shown }
    ensures played { OnOk result
        (IsPlayed (where_some (subscription_of t.old.shown sess) (failed_sub t.old.shown sess))
        t.old t.new) }
{
    match failed(t, sess) {
        Ok(()) => Ok(()),
        Err(refused) => told(refused),
    }
}

#[tactic(auto, using(crate::proofs::NotifyPlays::fired_played, crate::proofs::NotifyPlays::fired_told))]
fn time_out(t: &mut Turn, id: TimerId) -> Result<(), NoMemory>
    requires calls { t.old.calls ≡ [] }
    requires memory { t.old.starved ≡ false }
    ensures same { t.new.shown ≡ t.old.shown }
    ensures played { OnOk result
        (IsPlayed (where_some (fired_of t.old.shown id) (ended_sub t.old.shown)) t.old t.new) }
{
    match fire(t, id) {
        Ok(_) => Ok(()),
        Err(refused) => told(refused),
    }
}
