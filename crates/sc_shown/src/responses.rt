//! A response to a request of one's own (RFC 3261 section 13.2.2, JSR 289 section 6.2).

ghost use Rattle.std.specs.Prelude.{◌≡◌, [], false, None, is_some, IfOk, OnOk};
ghost use Rattle.std.specs.Option.{option_map_or};
ghost use Rattle.sc_terms.specs.declared.events.Event.{Event};
ghost use Rattle.sc_model.specs.Dialogs.{tag_of};
ghost use Rattle.sc_model.specs.Transactions.{is_success};
ghost use Rattle.sc_hosts.specs.PreparingRequests.{showing};
ghost use Rattle.sc_hosts.specs.ViewChanges.{answered_in, tidy};
ghost use Rattle.sc_hosts.specs.Looking.{change_request, request_in, session_in};
ghost use Rattle.sc_hosts.specs.PreparingResponses.{accepts_invite, is_first_success, noted_final, prepared_own, responded_again, responded_in, session_of_response, settled_legs, shown_again, with_handled_response, with_success};
ghost use Rattle.sc_shown.specs.Shown.{prepared_as};

use crate::again::{shown_again, with_request_again};
use crate::copies::session_copy;
use crate::shown::{Shown, showing, silent};
use crate::successes::success_in;
use sc_derived::{handled, overtaken, without_derived};
use sc_effects::{answered_in, final_noted, request_copy, tidy};
use sc_legs::take_answer;
use sc_looking::is_gone_in;
use sc_methods::{is_failure, is_invite, is_success};
use sc_state::{Kept, Session};
use sc_terms::{Event, RequestView, SessionView, View};
use sc_value::{CloneIn, List, NoMemory, ReqId, Response, SessId, Shared, tag};
use std::alloc::Global;

/// A response as it is shown.
pub fn response_event(
    alloc: Global,
    req: ReqId,
    sess: SessId,
    response: &Shared<Response>,
) -> Result<Event, NoMemory>
    ensures { IfOk result (λ e. e ≡ Event.Response req sess response.now) }
{
    let response = response.clone_in(alloc)?;
    Ok(Event::Response {
        req,
        sess,
        response,
    })
}

fn has_success(answered: Option<u16>) -> bool
    ensures { result ≡ option_map_or is_success answered false }
{
    match answered {
        Some(code) => is_success(code),
        None => false,
    }
}

// The first 2xx of an initial INVITE.
#[tactic(auto, unfolding(sc_hosts::specs::PreparingResponses::is_first_success))]
fn is_first_success(request: &RequestView, response: &Response) -> bool
    ensures { result ≡ is_first_success request.now response.now }
{
    request.initial
        && is_invite(request.method.as_bytes())
        && is_success(response.code)
        && !has_success(request.answered)
}

#[tactic(auto, unfolding(sc_hosts::specs::PreparingResponses::settled_legs))]
fn settled_legs(
    alloc: Global,
    session: &mut Session,
    request: &RequestView,
    sess: SessId,
    response: &Response,
) -> Result<(), NoMemory>
    ensures { OnOk result (session.new ≡ settled_legs request.now sess response.now session.old) }
{
    if is_first_success(request, response) {
        return overtaken(alloc, session, request.id, sess);
    }
    if request.initial && is_failure(response.code) {
        without_derived(session, request.id, request.sess);
    }
    Ok(())
}

fn responded_view(
    view: &mut View,
    request: &RequestView,
    response: &Response,
    sess: SessId,
) -> Result<(), NoMemory>
    ensures { OnOk result
        (view.new
        ≡ tidy
        (change_request request.now.id (with_success sess response.now)
        (answered_in sess request.now (is_some (tag_of response.now.head.to))
        response.now.code view.old))) }
{
    let tagged = tag(&response.head.to).is_some();
    answered_in(view, sess, request, tagged, response.code)?;
    success_in(&mut view.requests, request.id, sess, response)?;
    tidy(view)
}

// A response handled in this SipSession.
#[tactic(auto, unfolding(sc_hosts::specs::PreparingResponses::with_handled_response))]
fn responded(
    alloc: Global,
    session: &mut Session,
    kept: &Kept,
    request: &RequestView,
    response: &Response,
    sess: SessId,
) -> Result<(), NoMemory>
    ensures { OnOk result
        (session.new ≡ with_handled_response kept.now request.now response.now sess session.old) }
{
    settled_legs(alloc, session, request, sess, response)?;
    responded_view(&mut session.view, request, response, sess)?;
    take_answer(
        alloc,
        &mut session.known,
        sess,
        kept.request.get(),
        response,
    )
}

// The final response is noted with its request.
#[tactic(auto, unfolding(sc_hosts::specs::PreparingResponses::noted_final))]
fn noted_final(session: &mut Session, req: ReqId, code: u16) -> Result<(), NoMemory>
    ensures { OnOk result (session.new ≡ noted_final req code session.old) }
{
    final_noted(&mut session.view, req, code)
}

// A response handled in this SipSession and shown.
#[tactic(auto, unfolding(sc_hosts::specs::PreparingRequests::showing))]
fn responded_shown(
    alloc: Global,
    session: &mut Session,
    kept: &Kept,
    request: &RequestView,
    response: &Shared<Response>,
    sess: SessId,
) -> Result<Shown, NoMemory>
    ensures { IfOk result
        (λ s.
        showing (with_handled_response kept.now request.now response.now sess session.old)
        (Event.Response kept.now.id sess response.now) None [] ≡ prepared_as session.new s) }
{
    responded(alloc, session, kept, request, response.get(), sess)?;
    let event = response_event(alloc, kept.id, sess, response)?;
    Ok(showing(event, None, List::new(alloc)))
}

// Nothing is shown of a SipSession that is gone, and nothing changes in it.
#[tactic(auto, unfolding(sc_hosts::specs::PreparingResponses::responded_in, sc_hosts::specs::PreparingRequests::silent))]
fn responded_in(
    alloc: Global,
    session: &mut Session,
    kept: &Kept,
    request: &RequestView,
    response: &Shared<Response>,
    sess: SessId,
) -> Result<Shown, NoMemory>
    ensures { IfOk result
        (λ s.
        responded_in kept.now request.now response.now (sess, session.old)
        ≡ prepared_as session.new s) }
{
    if is_gone_in(&session.view, sess) {
        noted_final(session, kept.id, response.get().code)?;
        return Ok(silent(List::new(alloc)));
    }
    responded_shown(alloc, session, kept, request, response, sess)
}

#[tactic(auto, unfolding(sc_hosts::specs::PreparingResponses::session_of_response))]
fn placed_by(
    alloc: Global,
    session: &mut Session,
    kept: &Kept,
    request: &RequestView,
    response: &Response,
    original: &Option<SessionView>,
) -> Result<SessId, NoMemory>
    ensures { IfOk result
        (λ sess.
        session_of_response session.old kept.now request.now response.now original.now ≡ (sess, session.new)) }
{
    match original {
        Some(original) => {
            if request.initial {
                let sent = kept.request.get();
                return handled(alloc, session, request.id, original, None, sent, response);
            }
            Ok(request.sess)
        }
        None => Ok(request.sess),
    }
}

// The SipSession of a response, which may be a derived one.
fn placed(
    alloc: Global,
    session: &mut Session,
    kept: &Kept,
    request: &RequestView,
    response: &Response,
) -> Result<SessId, NoMemory>
    ensures { IfOk result
        (λ sess.
        session_of_response session.old kept.now request.now response.now
        (session_in session.old.view request.now.sess) ≡ (sess, session.new)) }
{
    let original = session_copy(alloc, &session.view, request.sess)?;
    placed_by(alloc, session, kept, request, response, &original)
}

// Whether the response is a 2xx to an INVITE.
fn accepts_invite(kept: &Kept, response: &Response) -> bool
    ensures { result ≡ accepts_invite kept.now response.now }
{
    is_invite(kept.request.get().method.as_bytes()) && is_success(response.code)
}

// A 2xx to an INVITE that the view shows no more, in this SipSession.
#[tactic(auto, unfolding(sc_hosts::specs::PreparingResponses::responded_again, sc_hosts::specs::PreparingRequests::silent))]
fn responded_again(
    alloc: Global,
    session: &mut Session,
    kept: &Kept,
    request: &RequestView,
    response: &Shared<Response>,
    sess: SessId,
) -> Result<Shown, NoMemory>
    ensures { IfOk result
        (λ s.
        responded_again kept.now request.now response.now (sess, session.old)
        ≡ prepared_as session.new s) }
{
    if is_gone_in(&session.view, sess) {
        return Ok(silent(List::new(alloc)));
    }
    with_request_again(alloc, session, request)?;
    responded_shown(alloc, session, kept, request, response, sess)
}

fn again_in(
    alloc: Global,
    session: &mut Session,
    kept: &Kept,
    request: &RequestView,
    response: &Shared<Response>,
) -> Result<Shown, NoMemory>
    ensures { IfOk result
        (λ s.
        responded_again kept.now request.now response.now
        (session_of_response session.old kept.now request.now response.now
        (session_in session.old.view request.now.sess)) ≡ prepared_as session.new s) }
{
    let sess = placed(alloc, session, kept, request, response.get())?;
    responded_again(alloc, session, kept, request, response, sess)
}

// The INVITE comes back into the view.
#[tactic(auto, unfolding(sc_hosts::specs::PreparingResponses::shown_again))]
fn again_shown(
    alloc: Global,
    session: &mut Session,
    kept: &Kept,
    response: &Shared<Response>,
) -> Result<Shown, NoMemory>
    ensures { IfOk result
        (λ s.
        responded_again kept.now (shown_again session.old.known kept.now response.now.code)
        response.now
        (session_of_response session.old kept.now
        (shown_again session.old.known kept.now response.now.code) response.now
        (session_in session.old.view kept.now.sess)) ≡ prepared_as session.new s) }
{
    let request = shown_again(alloc, &session.known, kept, response.get().code)?;
    again_in(alloc, session, kept, &request, response)
}

fn own_shown(
    alloc: Global,
    session: &mut Session,
    kept: &Kept,
    request: &RequestView,
    response: &Shared<Response>,
) -> Result<Shown, NoMemory>
    ensures { IfOk result
        (λ s.
        responded_in kept.now request.now response.now
        (session_of_response session.old kept.now request.now response.now
        (session_in session.old.view request.now.sess)) ≡ prepared_as session.new s) }
{
    let sess = placed(alloc, session, kept, request, response.get())?;
    responded_in(alloc, session, kept, request, response, sess)
}

/// A response to a request of one's own. A request that the view shows no more has had its final
/// response: where it is an INVITE, a 2xx brings it back, to be acknowledged again (RFC 3261
/// section 13.2.2.4).
#[tactic(auto, unfolding(sc_hosts::specs::PreparingResponses::prepared_own, sc_hosts::specs::PreparingRequests::silent))]
pub fn prepared_own(
    alloc: Global,
    session: &mut Session,
    kept: &Kept,
    response: &Shared<Response>,
) -> Result<Shown, NoMemory>
    ensures { IfOk result
        (λ s.
        prepared_own session.old kept.now response.now (request_in session.old.view kept.now.id)
        ≡ prepared_as session.new s) }
{
    match request_copy(alloc, &session.view, kept.id)? {
        Some(request) => own_shown(alloc, session, kept, &request, response),
        None => {
            if accepts_invite(kept, response.get()) {
                return again_shown(alloc, session, kept, response);
            }
            Ok(silent(List::new(alloc)))
        }
    }
}
