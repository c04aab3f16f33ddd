//! Refusals of answers and of requests that are made.

ghost use Rattle.std.specs.Prelude.{◌≡◌, ◌&&◌, ◌||◌, Some, None, Option};
ghost use Rattle.sc_hosts.specs.Looking.{request_in, session_in};
ghost use Rattle.sc_hosts.specs.Refusals.{respond_refusal, is_new, is_origin, is_sent_origin, create_refusal, dialog_refusal, linked_refusal, b2b_refusal, directive_refusal, send_refusal};
ghost use Rattle.sc_hosts.specs.RefusalParts.{draft_in};

use crate::texts::{answer_text, asked_text, has_system_answer, has_system_ask, has_system_name};
use sc_looking::{
    draft_in, is_ended, is_open_state, is_proxy, partner, request_in, session_count, session_in,
};
use sc_methods::is_ack;
use sc_state::{Draft, Play};
use sc_terms::{Answer, Ask, Inside, Refusal, RequestView, SessionView, State};
use sc_value::{Directive, ReqId, SessId};

/// The refusal of an answer to a request.
#[tactic(auto, unfolding(sc_hosts::specs::Refusals::respond_refusal, sc_hosts::specs::RefusalParts::first_of))]
pub fn respond_refusal(request: &RequestView, answer: &Answer) -> Option<Refusal>
    ensures { result ≡ respond_refusal request.now answer.now }
{
    if !request.received || is_ack(request.method.as_bytes()) {
        return Some(Refusal::NotYours);
    }
    if request.proxied {
        return Some(Refusal::AlreadyProxy);
    }
    if request.answered.is_some() {
        return Some(Refusal::AlreadyAnswered);
    }
    if has_system_answer(request.method.as_bytes(), answer) {
        return Some(Refusal::SystemHeader);
    }
    answer_text(answer)
}

#[tactic(auto, unfolding(sc_hosts::specs::Refusals::is_new))]
fn is_new(directive: Directive) -> bool
    ensures { result ≡ is_new directive }
{
    directive == Directive::New
}

// Whether the origin came and began its SipSession.
#[tactic(auto, unfolding(sc_hosts::specs::Refusals::is_origin))]
fn is_origin(play: &Play, origin: Option<ReqId>) -> bool
    ensures { result ≡ is_origin play.now origin }
{
    let Some(req) = origin else {
        return false;
    };
    match request_in(&play.view, req) {
        Some(request) => request.received && request.initial,
        None => false,
    }
}

#[tactic(auto, unfolding(sc_hosts::specs::Refusals::is_sent_origin))]
fn is_sent_origin(play: &Play, origin: Option<ReqId>) -> bool
    ensures { result ≡ is_sent_origin play.now origin }
{
    let Some(req) = origin else {
        return false;
    };
    match request_in(&play.view, req) {
        Some(request) => !request.received,
        None => false,
    }
}

/// The refusal of a request of one's own.
#[tactic(auto, unfolding(sc_hosts::specs::Refusals::create_refusal, sc_hosts::specs::RefusalParts::first_of))]
pub fn create_refusal(play: &Play, ask: &Ask) -> Option<Refusal>
    ensures { result ≡ create_refusal play.now ask.now }
{
    if 64 <= session_count(&play.view) {
        return Some(Refusal::Limit(64));
    }
    if is_sent_origin(play, ask.origin) {
        return Some(Refusal::NotYours);
    }
    if !is_new(ask.directive) && !is_origin(play, ask.origin) {
        return Some(Refusal::NotInitial);
    }
    if has_system_ask(ask) {
        return Some(Refusal::SystemHeader);
    }
    asked_text(ask.method.as_bytes(), ask.fields.as_slice())
}

#[tactic(auto, unfolding(sc_hosts::specs::Refusals::dialog_refusal, sc_hosts::specs::RefusalParts::first_of))]
fn asked_in(session: &SessionView, ask: &Inside) -> Option<Refusal>
    ensures { result ≡ dialog_refusal (Some session.now) ask.now }
{
    if !is_open_state(session.state) || is_proxy(session.role) {
        return Some(Refusal::WrongState(session.state));
    }
    if has_system_name(ask.fields.as_slice()) {
        return Some(Refusal::SystemHeader);
    }
    asked_text(ask.method.as_bytes(), ask.fields.as_slice())
}

/// The refusal of a request in the dialog of a SipSession.
#[tactic(auto, unfolding(sc_hosts::specs::Refusals::dialog_refusal))]
pub fn dialog_refusal(play: &Play, sess: SessId, ask: &Inside) -> Option<Refusal>
    ensures { result ≡ dialog_refusal (session_in play.now.view sess) ask.now }
{
    match session_in(&play.view, sess) {
        Some(session) => asked_in(session, ask),
        None => Some(Refusal::NotYours),
    }
}

#[tactic(auto, unfolding(sc_hosts::specs::Refusals::b2b_refusal, sc_hosts::specs::RefusalParts::first_of, sc_hosts::specs::Refusals::linked_refusal))]
fn leg_refusal(play: &Play, request: &RequestView) -> Option<Refusal>
    ensures { result ≡ b2b_refusal play.now (Some request.now) }
{
    if !request.received {
        return Some(Refusal::NotYours);
    }
    if !request.initial {
        return Some(Refusal::NotInitial);
    }
    if request.proxied {
        return Some(Refusal::AlreadyProxy);
    }
    if request.answered.is_some() {
        return Some(Refusal::AlreadyAnswered);
    }
    if let Some(other) = partner(&play.view, request.sess) {
        return Some(Refusal::AlreadyLinked(other));
    }
    if request.hops == 0 {
        return Some(Refusal::NoHops);
    }
    if 64 <= session_count(&play.view) {
        return Some(Refusal::Limit(64));
    }
    None
}

/// The refusal of a second leg.
#[tactic(auto, unfolding(sc_hosts::specs::Refusals::b2b_refusal))]
pub fn b2b_refusal(play: &Play, req: ReqId) -> Option<Refusal>
    ensures { result ≡ b2b_refusal play.now (request_in play.now.view req) }
{
    match request_in(&play.view, req) {
        Some(request) => leg_refusal(play, request),
        None => Some(Refusal::NotYours),
    }
}

#[tactic(auto, unfolding(sc_hosts::specs::Refusals::directive_refusal, sc_hosts::specs::RefusalParts::first_of))]
fn directed(
    play: &Play,
    draft: &Draft,
    directive: Directive,
    origin: Option<ReqId>,
) -> Option<Refusal>
    ensures { result ≡ directive_refusal play.now (Some draft.now) directive origin }
{
    if !draft.initial || (!is_new(directive) && !is_origin(play, origin)) {
        return Some(Refusal::NotInitial);
    }
    None
}

/// The refusal of a draft's directive.
#[tactic(auto, unfolding(sc_hosts::specs::Refusals::directive_refusal))]
pub fn directive_refusal(
    play: &Play,
    draft: u32,
    directive: Directive,
    origin: Option<ReqId>,
) -> Option<Refusal>
    ensures { result ≡ directive_refusal play.now (draft_in play.now draft) directive origin }
{
    match draft_in(play, draft) {
        Some(draft) => directed(play, draft, directive, origin),
        None => Some(Refusal::NotYours),
    }
}

#[tactic(auto, unfolding(sc_hosts::specs::Refusals::send_refusal, sc_hosts::specs::RefusalParts::first_of))]
fn sent_refusal(play: &Play, draft: &Draft) -> Option<Refusal>
    ensures { result ≡ send_refusal play.now (Some draft.now) }
{
    if !draft.initial && is_ended(&play.view, draft.sess) {
        return Some(Refusal::WrongState(State::Terminated));
    }
    None
}

/// The refusal to send a draft.
#[tactic(auto, unfolding(sc_hosts::specs::Refusals::send_refusal))]
pub fn send_refusal(play: &Play, draft: u32) -> Option<Refusal>
    ensures { result ≡ send_refusal play.now (draft_in play.now draft) }
{
    match draft_in(play, draft) {
        Some(draft) => sent_refusal(play, draft),
        None => Some(Refusal::NotYours),
    }
}
