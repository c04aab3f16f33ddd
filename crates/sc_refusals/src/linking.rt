//! Refusals of ACK, CANCEL, links, timers and attributes.

ghost use Rattle.std.specs.Prelude.{◌≡◌, ◌∷◌, [], ◌==◌, not, nat_le, length, take, Some, None, is_none};
ghost use Rattle.std.specs.List.{list_any};
ghost use Rattle.std.specs.Option.{option_or};
ghost use Rattle.sc_terms.specs.declared.calls.Refusal.TheVariants.{NotLinked, NotSent, NotYours, BadText, Limit};
ghost use Rattle.sc_hosts.specs.Looking.{partner, request_in, session_in, timer_in};
ghost use Rattle.sc_hosts.specs.RefusalParts.{first_of};
ghost use Rattle.sc_hosts.specs.Refusals.{awaits_ack, cancel_refusal, begun_by, b2b_respond_refusal, link_refusal, linked_refusal, is_zero_period, is_set};

use crate::asking::respond_refusal;
use sc_looking::{
    AwaitingAck, begun_by, is_ended, is_set, partner, request_in, session_in, timer_in,
};
use sc_methods::is_invite;
use sc_pages::Scope;
use sc_terms::{Answer, Period, Refusal, RequestView, State, View};
use sc_value::{Field, ReqId, SessId, TimerId};

/// Whether a sent INVITE waits for an ACK to its 2xx in this SipSession.
#[tactic(auto, using(sc_terms::proofs::RestLaws::awaiting_busy))]
pub fn is_unacked(view: &View, sess: SessId) -> bool
    ensures { result ≡ list_any (awaits_ack sess) view.entry.now.requests }
{
    view.requests.any(Scope::Busy, &AwaitingAck { sess })
}

#[tactic(auto, unfolding(sc_hosts::specs::Refusals::cancel_refusal, sc_hosts::specs::RefusalParts::first_of))]
fn cancelled(view: &View, request: &RequestView) -> Option<Refusal>
    ensures { result ≡ cancel_refusal view.entry.now (Some request.now) }
{
    if request.received || !is_invite(request.method.as_bytes()) {
        return Some(Refusal::NotSent);
    }
    if request.answered.is_none() {
        return None;
    }
    match session_in(view, request.sess) {
        Some(session) => Some(Refusal::WrongState(session.state)),
        None => None,
    }
}

/// The refusal of a CANCEL.
#[tactic(auto, unfolding(sc_hosts::specs::Refusals::cancel_refusal))]
pub fn cancel_refusal(view: &View, req: ReqId) -> Option<Refusal>
    ensures { result ≡ cancel_refusal view.entry.now (request_in view.entry.now req) }
{
    match request_in(view, req) {
        Some(request) => cancelled(view, request),
        None => Some(Refusal::NotYours),
    }
}

/// The refusal of an answer to the received initial request of a SipSession.
#[tactic(auto, unfolding(sc_hosts::specs::Refusals::b2b_respond_refusal))]
pub fn b2b_respond_refusal(view: &View, sess: SessId, answer: &Answer) -> Option<Refusal>
    ensures { result ≡ b2b_respond_refusal view.entry.now sess answer.now }
{
    if partner(view, sess).is_none() {
        return Some(Refusal::NotLinked);
    }
    match begun_by(view, sess) {
        Some(request) => respond_refusal(request, answer),
        None => Some(Refusal::NotYours),
    }
}

// The SipSession to which one of the two is linked, the first one's before.
#[tactic(auto, unfolding(sc_hosts::specs::Refusals::linked_refusal))]
fn already_linked(view: &View, a: SessId, b: SessId) -> Option<Refusal>
    ensures { result
        ≡ option_or (linked_refusal (partner view.entry.now a))
        (linked_refusal (partner view.entry.now b)) }
{
    if let Some(other) = partner(view, a) {
        return Some(Refusal::AlreadyLinked(other));
    }
    match partner(view, b) {
        Some(other) => Some(Refusal::AlreadyLinked(other)),
        None => None,
    }
}

/// The refusal of a link.
#[tactic(auto, unfolding(sc_hosts::specs::Refusals::link_refusal, sc_hosts::specs::RefusalParts::first_of))]
pub fn link_refusal(view: &View, a: SessId, b: SessId) -> Option<Refusal>
    ensures { result ≡ link_refusal view.entry.now a b }
{
    if a.0 == b.0 {
        return Some(Refusal::AlreadyLinked(a));
    }
    if is_ended(view, a) || is_ended(view, b) {
        return Some(Refusal::WrongState(State::Terminated));
    }
    already_linked(view, a, b)
}

/// The refusal to take a link away.
#[tactic(auto, unfolding(sc_hosts::specs::RefusalParts::first_of))]
pub fn unlink_refusal(view: &View, a: SessId) -> Option<Refusal>
    ensures { result ≡ first_of ((is_none (partner view.entry.now a), NotLinked) ∷ []) }
{
    if partner(view, a).is_none() {
        return Some(Refusal::NotLinked);
    }
    None
}

/// The refusal of an ACK.
#[tactic(auto, unfolding(sc_hosts::specs::RefusalParts::first_of))]
pub fn ack_refusal(view: &View, sess: SessId) -> Option<Refusal>
    ensures { result
        ≡ first_of ((not (list_any (awaits_ack sess) view.entry.now.requests), NotSent) ∷ []) }
{
    if !is_unacked(view, sess) {
        return Some(Refusal::NotSent);
    }
    None
}

#[tactic(auto, unfolding(sc_hosts::specs::Refusals::is_zero_period))]
fn is_zero_period(period: Period) -> bool
    ensures { result ≡ is_zero_period period }
{
    match period {
        Period::Once => false,
        Period::Rate(n) | Period::Delay(n) => n == 0,
    }
}

/// The refusal of a timer.
#[tactic(auto, unfolding(sc_hosts::specs::RefusalParts::first_of))]
pub fn timer_refusal(view: &View, period: Period) -> Option<Refusal>
    ensures { result
        ≡ first_of
        ((is_zero_period period, BadText 1) ∷ (nat_le 64 (length view.entry.now.timers), Limit 64)
        ∷ []) }
{
    if is_zero_period(period) {
        return Some(Refusal::BadText(1));
    }
    if 64 <= view.timers.len() {
        return Some(Refusal::Limit(64));
    }
    None
}

/// The refusal to end a timer.
#[tactic(auto, unfolding(sc_hosts::specs::RefusalParts::first_of))]
pub fn cancel_timer_refusal(view: &View, id: TimerId) -> Option<Refusal>
    ensures { result ≡ first_of ((is_none (timer_in view.entry.now id), NotYours) ∷ []) }
{
    if timer_in(view, id).is_none() {
        return Some(Refusal::NotYours);
    }
    None
}

/// The refusal to remove an attribute.
#[tactic(auto, unfolding(sc_hosts::specs::RefusalParts::first_of))]
pub fn remove_refusal(view: &View, name: &[u8]) -> Option<Refusal>
    ensures { result ≡ first_of ((not (is_set name.now view.entry.now.attributes), NotYours) ∷ []) }
{
    if !is_set(name, view.attributes.as_slice()) {
        return Some(Refusal::NotYours);
    }
    None
}
