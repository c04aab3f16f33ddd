//! Responses pass back from one leg to the other.

ghost use Rattle.std.specs.Prelude.{◌≡◌, ◌+◌, ◌<◌, [], false, option_and_then, IfOk, OnOk, if◌then◌else◌};
ghost use Rattle.sc_model.specs.SessionStates.{is_final};
ghost use Rattle.sc_hosts.specs.Scripting.{Done, attribute, only, same_answer, small_number, then_make, where_some};
ghost use Rattle.sc_hosts.specs.Charters.{is_initial, sent_back, served_name};
ghost use Rattle.sc_hosts.specs.Looking.{partner};
ghost use Rattle.sc_hosts.specs.RefusalParts.{MOST_CALLS};
ghost use Rattle.sc_turn.specs.Working.{play_of};
ghost use Rattle.sc_apps.specs.Scripted.{IsPlayed};

use crate::calling::{b2b_respond, respond};
use crate::keeping::remove_attribute;
use crate::passing::served_name;
use crate::reading::{attribute, memory_of, shown, small_number};
use sc_looking::{partner, request_in};
use sc_methods::is_final;
use sc_terms::{Answer, Call, View};
use sc_turn::Turn;
use sc_value::{CloneIn, List, NoMemory, ReqId, Response, SessId};
use std::alloc::Global;

/// An answer like a response that came.
#[tactic(auto, unfolding(sc_hosts::specs::Scripting::same_answer))]
fn same_answer(alloc: Global, response: &Response) -> Result<Answer, NoMemory>
    ensures { IfOk result (λ answer. answer ≡ same_answer response.now) }
{
    Ok(Answer {
        code: response.code,
        reason: response.reason.as_text().clone_in(alloc)?,
        fields: response.head.others.to_list()?,
        contact: List::new(alloc),
        body: response.head.body.clone_in(alloc)?,
    })
}

/// Whether the request began its SipSession.
#[tactic(auto, unfolding(sc_hosts::specs::Charters::is_initial))]
fn is_initial(view: &View, req: ReqId) -> bool
    ensures { result ≡ is_initial view.entry.now req }
{
    match request_in(view, req) {
        Some(request) => request.initial,
        None => false,
    }
}

/// Gives a response that came back on the other leg.
#[tactic(auto, using(crate::proofs::Playing::begun_room))]
pub fn pass_back(
    t: &mut Turn,
    req: ReqId,
    sess: SessId,
    response: &Response,
) -> Result<(), NoMemory>
    requires calls { t.old.calls ≡ [] }
    requires memory { t.old.starved ≡ false }
    ensures same { t.new.shown ≡ t.old.shown }
    ensures played { OnOk result
        (IsPlayed
        (if is_initial t.old.shown req
        then where_some (partner t.old.shown sess)
        (λ other. only (Call.B2bRespond other (same_answer response.now)))
        else sent_back t.old.shown req response.now) t.old t.new) }
{
    if is_initial(shown(t), req) {
        let other = partner(shown(t), sess);
        return answer_leg(t, other, response);
    }
    send_back(t, req, response)
}

#[tactic(auto, unfolding(sc_hosts::specs::Scripting::where_some), using(crate::proofs::Playing::played_done))]
fn answer_leg(t: &mut Turn, other: Option<SessId>, response: &Response) -> Result<(), NoMemory>
    requires { (play_of t.old).listed < MOST_CALLS }
    ensures same { t.new.shown ≡ t.old.shown }
    ensures played { OnOk result
        (IsPlayed
        (where_some other (λ other. only (Call.B2bRespond other (same_answer response.now))))
        t.old t.new) }
{
    match other {
        Some(other) => answer_other(t, other, response),
        None => Ok(()),
    }
}

#[tactic(auto, using(crate::proofs::Playing::played_only))]
fn answer_other(t: &mut Turn, other: SessId, response: &Response) -> Result<(), NoMemory>
    requires { (play_of t.old).listed < MOST_CALLS }
    ensures same { t.new.shown ≡ t.old.shown }
    ensures played { OnOk result
        (IsPlayed (only (Call.B2bRespond other (same_answer response.now))) t.old t.new) }
{
    let answer = same_answer(memory_of(t), response)?;
    b2b_respond(t, other, answer)?;
    Ok(())
}

fn number_attribute(view: &View, name: &[u8]) -> Option<u32>
    ensures { result ≡ option_and_then small_number (attribute name.now view.entry.now) }
{
    match attribute(view, name) {
        Some(text) => small_number(text.as_bytes()),
        None => None,
    }
}

/// The request which a sent one serves.
fn served_by(alloc: Global, view: &View, req: ReqId) -> Result<Option<u32>, NoMemory>
    ensures { IfOk result
        (λ n. n ≡ option_and_then small_number (attribute (served_name req.0) view.entry.now)) }
{
    let name = served_name(alloc, u64::from(req.0))?;
    Ok(number_attribute(view, name.as_bytes()))
}

#[tactic(auto, unfolding(sc_hosts::specs::Charters::sent_back), using(crate::proofs::Playing::begun_room))]
fn send_back(t: &mut Turn, req: ReqId, response: &Response) -> Result<(), NoMemory>
    requires calls { t.old.calls ≡ [] }
    requires memory { t.old.starved ≡ false }
    ensures same { t.new.shown ≡ t.old.shown }
    ensures played { OnOk result (IsPlayed (sent_back t.old.shown req response.now) t.old t.new) }
{
    let served = served_by(memory_of(t), shown(t), req)?;
    answer_served(t, req, response, served)
}

#[tactic(auto, unfolding(sc_hosts::specs::Scripting::where_some), using(crate::proofs::Playing::played_done))]
fn answer_served(
    t: &mut Turn,
    req: ReqId,
    response: &Response,
    served: Option<u32>,
) -> Result<(), NoMemory>
    requires { (play_of t.old).listed + 1 < MOST_CALLS }
    ensures same { t.new.shown ≡ t.old.shown }
    ensures played { OnOk result
        (IsPlayed
        (where_some served
        (λ n.
        then_make (Call.Respond (record { 0 = n }) (same_answer response.now))
        (if is_final response.now.code then only (Call.RemoveAttribute (served_name req.0))
        else Done))) t.old t.new) }
{
    match served {
        Some(served) => answer_and_forget(t, req, response, ReqId(served)),
        None => Ok(()),
    }
}

#[tactic(auto, using(crate::proofs::Playing::played_then))]
fn answer_and_forget(
    t: &mut Turn,
    req: ReqId,
    response: &Response,
    served: ReqId,
) -> Result<(), NoMemory>
    requires { (play_of t.old).listed + 1 < MOST_CALLS }
    ensures same { t.new.shown ≡ t.old.shown }
    ensures played { OnOk result
        (IsPlayed
        (then_make (Call.Respond served (same_answer response.now))
        (if is_final response.now.code then only (Call.RemoveAttribute (served_name req.0))
        else Done)) t.old t.new) }
{
    let answer = same_answer(memory_of(t), response)?;
    respond(t, served, answer)?;
    forget_final(t, req, response.code)
}

#[tactic(auto, using(crate::proofs::Playing::played_done))]
fn forget_final(t: &mut Turn, req: ReqId, code: u16) -> Result<(), NoMemory>
    requires { (play_of t.old).listed < MOST_CALLS }
    ensures same { t.new.shown ≡ t.old.shown }
    ensures played { OnOk result
        (IsPlayed (if is_final code then only (Call.RemoveAttribute (served_name req.0)) else Done)
        t.old t.new) }
{
    if is_final(code) {
        return forget(t, req);
    }
    Ok(())
}

#[tactic(auto, using(crate::proofs::Playing::played_only))]
fn forget(t: &mut Turn, req: ReqId) -> Result<(), NoMemory>
    requires { (play_of t.old).listed < MOST_CALLS }
    ensures same { t.new.shown ≡ t.old.shown }
    ensures played { OnOk result
        (IsPlayed (only (Call.RemoveAttribute (served_name req.0))) t.old t.new) }
{
    let name = served_name(memory_of(t), u64::from(req.0))?;
    remove_attribute(t, name)?;
    Ok(())
}
