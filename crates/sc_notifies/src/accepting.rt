//! Which answer a SUBSCRIBE gets, and what follows it (RFC 6665 section 4.2.1).

ghost use Rattle.std.specs.Prelude.{◌≡◌, ◌≤◌, ◌*◌, ◌+◌, ◌∷◌, [], false, codes, decimal, IfOk};
ghost use Rattle.sc_hosts.specs.HelperParts.{accepted_then, answer_with, field};
ghost use Rattle.sc_hosts.specs.Scripting.{only};
ghost use Rattle.sc_hosts.specs.Subscriptions.{notified_event};
ghost use Rattle.sc_hosts.specs.Words.{ok};
ghost use Rattle.sc_turn.specs.Working.{play_of};
ghost use Rattle.sc_helpers.specs.Stopping.{Goes, Leads};
ghost use Rattle.sc_notifies.specs.Notifying.{IsAtMost, IsCarriedOut, accepted_by, asked_of, begins_active, is_active, read_by, read_of, seconds_in};
ghost use Rattle.sc_notifies.specs.SubScripts.{subscribed_by};

use crate::refused::{Asked, NotifyRefused, turned};
use crate::rules::{Rule, asked_for, event_of};
use crate::standing::{self, Standing, standing_of, subscription_of};
use crate::sub_texts::Subscribed;
use crate::subscribing::{Term, subscribed_by};
use sc_apps::memory_of;
use sc_helpers::{Stopped, field, number_field, one, try_answer, wanting};
use sc_terms::View;
use sc_turn::Turn;
use sc_value::{Field, List, NoMemory, ReqId, Request, SessId, Text, sum};
use std::alloc::Global;

/// What a new subscription is: active, or pending, as where it waits for a decision (RFC 6665
/// section 4.1.3). One that is there stays what it is.
#[derive(Clone, Copy, Debug, PartialEq, Eq)]
pub enum Grant {
    /// A new one is active.
    Active,
    /// A new one is pending.
    Pending,
}

/// How a subscription goes on, as it was read before the answer.
#[derive(Drop)]
pub struct Read {
    /// How the old one stands.
    pub standing: Standing,
    /// The Event of the NOTIFY.
    pub event: Text,
    /// For how long it goes on.
    pub term: Term,
}

#[tactic(auto, unfolding(crate::specs::Notifying::seconds_in, crate::specs::Notifying::IsAtMost))]
fn seconds_in(asked: Asked) -> u32
    requires { IsAtMost 4000000 asked }
    ensures exact { result ≡ seconds_in asked }
    ensures within { result ≤ 4000000 }
{
    match asked {
        Asked::BadEvent => 0,
        Asked::Brief => 0,
        Asked::For(seconds) => seconds,
    }
}

#[tactic(auto, unfolding(crate::specs::Notifying::begins_active))]
fn begins_active(grant: Grant) -> bool
    ensures { result ≡ begins_active grant }
{
    match grant {
        Grant::Active => true,
        Grant::Pending => false,
    }
}

#[tactic(auto, unfolding(crate::specs::Notifying::is_active))]
fn is_active(grant: Grant, old: &Option<Subscribed>) -> bool
    ensures { result ≡ is_active grant old.now }
{
    match old {
        Some(old) => old.active,
        None => begins_active(grant),
    }
}

// The Event of the NOTIFY that follows the answer.
#[tactic(auto, unfolding(sc_hosts::specs::Subscriptions::notified_event))]
fn notified_event(
    alloc: Global,
    view: &View,
    sess: SessId,
    request: &Request,
    seconds: u32,
    old: &Option<Subscribed>,
) -> Result<Text, NoMemory>
    ensures { IfOk result
        (λ text. text ≡ notified_event view.entry.now sess request.now seconds old.now) }
{
    if seconds == 0 && old.is_some() {
        return standing::event_of(alloc, view, sess);
    }
    Text::from_slice(alloc, event_of(request))
}

fn term_of(moment: u64, seconds: u32, active: bool) -> Result<Term, NoMemory>
    requires within { seconds ≤ 4000000 }
    ensures exact { IfOk result
        (λ term.
        term
        ≡ record {
          seconds = seconds;
          due = moment + seconds * 1000;
          active = active;
        }) }
    ensures within { IfOk result (λ term. term.seconds ≤ 4000000) }
{
    let due = sum(moment, u64::from(seconds) * 1000)?;
    Ok(Term {
        seconds,
        due,
        active,
    })
}

#[tactic(auto, unfolding(crate::specs::Notifying::read_by))]
fn read_by(
    alloc: Global,
    view: &View,
    sess: SessId,
    request: &Request,
    seconds: u32,
    grant: Grant,
    old: &Option<Subscribed>,
) -> Result<Read, NoMemory>
    requires within { seconds ≤ 4000000 }
    ensures exact { IfOk result
        (λ read. read ≡ read_by view.entry.now sess request.now seconds grant old.now) }
    ensures within { IfOk result (λ read. read.term.seconds ≤ 4000000) }
{
    let standing = standing_of(alloc, view, sess, old)?;
    let term = term_of(view.now, seconds, is_active(grant, old))?;
    let event = notified_event(alloc, view, sess, request, seconds, old)?;
    Ok(Read {
        standing,
        event,
        term,
    })
}

#[tactic(auto, unfolding(crate::specs::Notifying::read_of))]
fn read_of(
    alloc: Global,
    view: &View,
    sess: SessId,
    request: &Request,
    asked: Asked,
    grant: Grant,
) -> Result<Read, NoMemory>
    requires within { IsAtMost 4000000 asked }
    ensures exact { IfOk result
        (λ read. read ≡ read_of view.entry.now sess request.now asked grant) }
    ensures within { IfOk result (λ read. read.term.seconds ≤ 4000000) }
{
    let old = subscription_of(alloc, view, sess)?;
    read_by(alloc, view, sess, request, seconds_in(asked), grant, &old)
}

#[tactic(auto, using(sc_helpers::proofs::Steps::last_on, sc_helpers::proofs::Steps::last_off))]
fn answer_last(
    turn: &mut Turn,
    req: ReqId,
    code: u16,
    reason: &[u8],
    fields: List<Field>,
) -> Result<(), Stopped>
    ensures same { turn.new.shown ≡ turn.old.shown }
    ensures goes { Goes 0 (only (answer_with req code reason.now fields)) turn.old result turn.new }
{
    match try_answer(turn, 0, req, code, reason, fields) {
        Ok(_) => Ok(()),
        Err(stop) => Err(stop),
    }
}

fn package_field(alloc: Global, event_package: &[u8]) -> Result<List<Field>, NoMemory>
    ensures { IfOk result (λ fields. fields ≡ field (codes "Allow-Events") event_package.now ∷ []) }
{
    let field = field(alloc, b"Allow-Events", event_package)?;
    one(alloc, field)
}

#[tactic(auto, using(sc_helpers::proofs::Steps::goes_wanting))]
fn refuse_event(turn: &mut Turn, req: ReqId, event_package: &[u8]) -> Result<(), Stopped>
    ensures same { turn.new.shown ≡ turn.old.shown }
    ensures goes { Goes 0
        (only
        (answer_with req 489 (codes "Bad Event")
        (field (codes "Allow-Events") event_package.now ∷ []))) turn.old result turn.new }
{
    match package_field(memory_of(turn), event_package) {
        Ok(fields) => answer_last(turn, req, 489, b"Bad Event", fields),
        Err(NoMemory) => Err(wanting(0)),
    }
}

fn least_field(alloc: Global, least: u32) -> Result<List<Field>, NoMemory>
    ensures { IfOk result (λ fields. fields ≡ field (codes "Min-Expires") (decimal least) ∷ []) }
{
    let field = number_field(alloc, b"Min-Expires", u64::from(least))?;
    one(alloc, field)
}

#[tactic(auto, using(sc_helpers::proofs::Steps::goes_wanting))]
fn refuse_brief(turn: &mut Turn, req: ReqId, least: u32) -> Result<(), Stopped>
    ensures same { turn.new.shown ≡ turn.old.shown }
    ensures goes { Goes 0
        (only
        (answer_with req 423 (codes "Interval Too Brief")
        (field (codes "Min-Expires") (decimal least) ∷ []))) turn.old result turn.new }
{
    match least_field(memory_of(turn), least) {
        Ok(fields) => answer_last(turn, req, 423, b"Interval Too Brief", fields),
        Err(NoMemory) => Err(wanting(0)),
    }
}

fn expires_field(alloc: Global, seconds: u32) -> Result<List<Field>, NoMemory>
    ensures { IfOk result (λ fields. fields ≡ field (codes "Expires") (decimal seconds) ∷ []) }
{
    let field = number_field(alloc, b"Expires", u64::from(seconds))?;
    one(alloc, field)
}

#[tactic(auto, unfolding(sc_hosts::specs::Words::ok), using(sc_helpers::proofs::Steps::led_wanting))]
fn answer_200(turn: &mut Turn, req: ReqId, seconds: u32) -> Result<u8, Stopped>
    ensures same { turn.new.shown ≡ turn.old.shown }
    ensures led { Leads
        (accepted_then (answer_with req 200 ok (field (codes "Expires") (decimal seconds) ∷ []))) 0
        turn.old result turn.new }
    ensures count { IfOk result (λ after. after ≡ 1) }
{
    match expires_field(memory_of(turn), seconds) {
        Ok(fields) => try_answer(turn, 0, req, 200, b"OK", fields),
        Err(NoMemory) => Err(wanting(0)),
    }
}

#[tactic(auto, using(sc_helpers::proofs::Steps::accepted_on, sc_helpers::proofs::Steps::accepted_off))]
fn answer_and_begin(
    turn: &mut Turn,
    req: ReqId,
    sess: SessId,
    seconds: u32,
    read: &Read,
    body: &[u8],
) -> Result<(), Stopped>
    requires within { read.now.term.seconds ≤ 4000000 }
    ensures same { turn.new.shown ≡ turn.old.shown }
    ensures goes { Goes 0
        (accepted_then (answer_with req 200 ok (field (codes "Expires") (decimal seconds) ∷ []))
        (subscribed_by read.now.standing read.now.term sess read.now.event body.now)) turn.old
        result turn.new }
{
    match answer_200(turn, req, seconds) {
        Ok(made) => subscribed_by(
            turn,
            made,
            read.term,
            sess,
            read.event.as_bytes(),
            body,
            &read.standing,
        ),
        Err(stop) => Err(stop),
    }
}

#[tactic(auto, unfolding(crate::specs::Notifying::accepted_by))]
fn accept_by(
    turn: &mut Turn,
    rule: &Rule,
    req: ReqId,
    sess: SessId,
    asked: Asked,
    read: &Read,
) -> Result<(), Stopped>
    requires within { read.now.term.seconds ≤ 4000000 }
    ensures same { turn.new.shown ≡ turn.old.shown }
    ensures goes { Goes 0 (accepted_by rule.now req sess asked read.now) turn.old result turn.new }
{
    match asked {
        Asked::BadEvent => refuse_event(turn, req, rule.event_package()),
        Asked::Brief => refuse_brief(turn, req, rule.least()),
        Asked::For(seconds) => { answer_and_begin(turn, req, sess, seconds, read, rule.body()) }
    }
}

#[tactic(auto, using(crate::proofs::NotifyCalls::went_through, crate::proofs::NotifyCalls::came_to_stop))]
fn accept_as(
    turn: &mut Turn,
    rule: &Rule,
    req: ReqId,
    sess: SessId,
    asked: Asked,
    read: &Read,
) -> Result<Asked, NotifyRefused>
    requires within { read.now.term.seconds ≤ 4000000 }
    ensures same { turn.new.shown ≡ turn.old.shown }
    ensures carried { IsCarriedOut (accepted_by rule.now req sess asked read.now) asked turn.old
        result turn.new }
{
    match accept_by(turn, rule, req, sess, asked, read) {
        Ok(()) => Ok(asked),
        Err(stop) => Err(turned(stop)),
    }
}

/// Answers a SUBSCRIBE, which began this SipSession or came in its dialog, and tells the state (RFC
/// 6665 section 4.2.1). Gives what it asked for, as [`asked_for`](crate::asked_for) says. `grant`
/// says whether a new subscription is active or pending; one that is there stays what it is: only
/// [`activate`](crate::activate) makes a pending one active.
///
/// It makes these calls, each where the one before was accepted. `BadEvent`: `respond` 489 `Bad
/// Event` with `Allow-Events`. `Brief`: `respond` 423 `Interval Too Brief` with `Min-Expires`.
/// `For` some seconds: `respond` 200 `OK` with `Expires`; `cancel_timer` of the old timer, where it
/// runs; `start_timer` of those seconds; `set_attribute` of `sub` with the SipSession's number to
/// `A DUE TIMER` where the subscription is active, or `P DUE TIMER` where it is pending;
/// `set_attribute` of `ev` with that number to the Event; for 0 seconds `remove_attribute` of the
/// two that are set in place of these three; and last a NOTIFY (`create_in_dialog`, `send`) with
/// `Event`, `Subscription-State` and, where that says `active`, the rule's body.
///
/// # Errors
///
/// `Turn` alone: the turn refuses one of the calls, and the ones before it were accepted. None is
/// made behind it, and what the accepted ones did stays. For want of memory it is `Turn` with
/// `NoMemory`; where a call of this turn wanted memory before, the turn is over, and nothing is
/// said.
#[tactic(auto, using(crate::proofs::NotifyCalls::accept_carried, crate::proofs::NotifyCalls::accept_wanting))]
pub fn accept(
    turn: &mut Turn,
    req: ReqId,
    sess: SessId,
    request: &Request,
    rule: &Rule,
    grant: Grant,
) -> Result<Asked, NotifyRefused>
    ensures same { turn.new.shown ≡ turn.old.shown }
    ensures carried { turn.old.starved ≡ false
        → IsCarriedOut
        (accepted_by rule.now req sess (asked_of rule.now request.now)
        (read_of (play_of turn.old).view sess request.now (asked_of rule.now request.now)
        grant)) (asked_of rule.now request.now) turn.old result turn.new }
{
    let asked = asked_for(request, rule);
    match read_of(memory_of(turn), turn.view(), sess, request, asked, grant) {
        Ok(read) => accept_as(turn, rule, req, sess, asked, &read),
        Err(NoMemory) => Err(turned(wanting(0))),
    }
}
