//! What a response to a request leaves of a view.

ghost use Rattle.std.specs.Prelude.{◌≡◌, Some, is_none, ◌&&◌, IfOk, OnOk};
ghost use Rattle.sc_value.specs.Lists.{change_first};
ghost use Rattle.sc_hosts.specs.Looking.{is_request, is_session, request_in};
ghost use Rattle.sc_hosts.specs.Refusals.{begun_by};
ghost use Rattle.sc_hosts.specs.ViewChanges.{answered_in, view_with_answer, with_answer, with_response};

use crate::states::after_response;
use crate::tidying::tidy;
use sc_looking::{Numbered, begun_by, request_in, session_place};
use sc_methods::is_final;
use sc_pages::{Change, Pages, Scope};
use sc_terms::{RequestView, SessionView, View};
use sc_value::{CloneIn, NoMemory, ReqId, SessId};
use std::alloc::Global;

#[tactic(auto, unfolding(sc_hosts::specs::ViewChanges::with_answer))]
fn with_answer(request: &mut RequestView, code: u16)
    ensures { request.new ≡ with_answer code request.old }
{
    if is_final(code) && request.answered.is_none() {
        request.answered = Some(code);
    }
}

// An answer of this code.
#[derive(Clone, Copy)]
struct AnswerNoted {
    code: u16,
}

impl Change<RequestView> for AnswerNoted {
    ghost changed = { λ p. with_answer p.code };

    fn change(&self, request: &mut RequestView) -> Result<(), NoMemory> {
        with_answer(request, self.code);
        Ok(())
    }
}

pub(crate) fn answer_in(
    requests: &mut Pages<RequestView>,
    req: ReqId,
    code: u16,
) -> Result<(), NoMemory>
    ensures { OnOk result
        (requests.new ≡ change_first (is_request req) (with_answer code) requests.old) }
{
    requests.change_first(
        Scope::Number(req.0),
        &Numbered { req },
        &AnswerNoted { code },
    )
}

#[tactic(auto, unfolding(sc_hosts::specs::ViewChanges::with_response))]
fn with_response(session: &mut SessionView, request: &RequestView, tagged: bool, code: u16)
    ensures { session.new ≡ with_response request.now tagged code session.old }
{
    session.state = after_response(session.role, request, tagged, session.state, code);
}

#[tactic(auto, using(sc_value::proofs::ListFacts::change_first_position, sc_value::proofs::ListFacts::change_first_none))]
fn response_in(
    sessions: &mut [SessionView],
    sess: SessId,
    request: &RequestView,
    tagged: bool,
    code: u16,
)
    ensures { sessions.new
        ≡ change_first (is_session sess) (with_response request.now tagged code) sessions.old }
{
    match session_place(sessions, sess) {
        Some(at) => with_response(&mut sessions[at], request, tagged, code),
        None => {}
    }
}

/// Notes a response of this code to a request, sent, handled or forwarded in a SipSession: on the
/// request, where the first final code stays, and in the state of the SipSession.
#[tactic(auto, unfolding(sc_hosts::specs::ViewChanges::answered_in))]
pub fn answered_in(
    view: &mut View,
    sess: SessId,
    request: &RequestView,
    tagged: bool,
    code: u16,
) -> Result<(), NoMemory>
    ensures { OnOk result (view.new ≡ answered_in sess request.now tagged code view.old) }
{
    answer_in(&mut view.requests, request.id, code)?;
    response_in(&mut view.sessions.items, sess, request, tagged, code);
    Ok(())
}

/// Notes an answer of this code that the application or the container gave to a request.
#[tactic(auto, unfolding(sc_hosts::specs::ViewChanges::view_with_answer))]
pub fn answered(view: &mut View, request: &RequestView, code: u16) -> Result<(), NoMemory>
    ensures { OnOk result (view.new ≡ view_with_answer (Some request.now) code view.old) }
{
    answered_in(view, request.sess, request, true, code)?;
    tidy(view)
}

#[tactic(auto, unfolding(sc_hosts::specs::ViewChanges::view_with_answer))]
fn answered_where(view: &mut View, request: Option<RequestView>, code: u16) -> Result<(), NoMemory>
    ensures { OnOk result (view.new ≡ view_with_answer request code view.old) }
{
    match request {
        Some(request) => answered(view, &request, code),
        None => Ok(()),
    }
}

/// A copy of the request of this number.
pub fn request_copy(alloc: Global, view: &View, req: ReqId) -> Result<Option<RequestView>, NoMemory>
    ensures { IfOk result (λ r. r ≡ request_in view.entry.now req) }
{
    match request_in(view, req) {
        Some(request) => Ok(Some(request.clone_in(alloc)?)),
        None => Ok(None),
    }
}

fn begun_copy(alloc: Global, view: &View, sess: SessId) -> Result<Option<RequestView>, NoMemory>
    ensures { IfOk result (λ r. r ≡ begun_by view.entry.now sess) }
{
    match begun_by(view, sess) {
        Some(request) => Ok(Some(request.clone_in(alloc)?)),
        None => Ok(None),
    }
}

/// Notes an answer to the request of this number.
pub fn answered_by(alloc: Global, view: &mut View, req: ReqId, code: u16) -> Result<(), NoMemory>
    ensures { OnOk result (view.new ≡ view_with_answer (request_in view.old req) code view.old) }
{
    let request = request_copy(alloc, view, req)?;
    answered_where(view, request, code)
}

/// Notes an answer to the received request that began a SipSession.
pub fn answered_begun(
    alloc: Global,
    view: &mut View,
    sess: SessId,
    code: u16,
) -> Result<(), NoMemory>
    ensures { OnOk result (view.new ≡ view_with_answer (begun_by view.old sess) code view.old) }
{
    let request = begun_copy(alloc, view, sess)?;
    answered_where(view, request, code)
}
