//! Drafts that were left, and a turn that its servlet ended by a fault.

ghost use Rattle.std.specs.Prelude.{◌≡◌, IfOk, OnOk, option_and_then};
ghost use Rattle.std.specs.List.{fold};
ghost use Rattle.sc_hosts.specs.Looking.{request_in};
ghost use Rattle.sc_hosts.specs.Messages.{bare_answer};
ghost use Rattle.sc_hosts.specs.Acting.{after_fault, drafts_ended, fault_at, without_left};
ghost use Rattle.sc_finish.specs.Passing.{answers_alone};
ghost use Rattle.sc_model.specs.BestResponses.{server_error};

use sc_effects::{answered, is_owed, removed, request_copy, tidy};
use sc_sending::answering;
use sc_state::{Draft, Working};
use sc_terms::{Answer, Config, End, RequestView, View};
use sc_value::{List, NoMemory, ReqId, Text};
use std::alloc::Global;

#[tactic(auto, unfolding(sc_hosts::specs::Acting::without_left))]
fn without_left(view: &mut View, draft: &Draft)
    ensures { view.new ≡ without_left view.old draft.now }
{
    if draft.initial {
        removed(view, draft.sess);
    }
}

fn without_all(view: &mut View, drafts: &[Draft])
    ensures { view.new ≡ fold without_left view.old drafts.now }
{
    for draft in drafts {
        without_left(view, draft);
    }
}

/// The drafts that were left end; an initial one takes its SipSession with it.
#[tactic(auto, unfolding(sc_hosts::specs::Acting::drafts_ended))]
pub fn drafts_ended(working: &mut Working) -> Result<(), NoMemory>
    ensures { OnOk result (working.new ≡ drafts_ended working.old) }
{
    without_all(&mut working.play.view, working.play.drafts.as_slice());
    tidy(&mut working.play.view)
}

/// An answer of this code and reason, and nothing else.
#[tactic(auto, unfolding(sc_hosts::specs::Messages::bare_answer))]
pub fn bare_answer(alloc: Global, code: u16, reason: &[u8]) -> Result<Answer, NoMemory>
    ensures { IfOk result (λ answer. answer ≡ bare_answer code reason.now) }
{
    let reason = Text::from_slice(alloc, reason)?;
    Ok(Answer {
        code,
        reason,
        fields: List::new(alloc),
        contact: List::new(alloc),
        body: Text::new(alloc),
    })
}

#[tactic(auto, unfolding(sc_model::specs::BestResponses::server_error))]
fn error_answer(alloc: Global) -> Result<Answer, NoMemory>
    ensures { IfOk result (λ answer. answer ≡ bare_answer 500 server_error) }
{
    bare_answer(alloc, 500, b"Server Internal Error")
}

/// The container answers a request that waits for its answer by itself.
#[tactic(auto, unfolding(sc_hosts::specs::Giving::answering, crate::specs::Passing::answers_alone))]
pub fn answers_alone(
    alloc: Global,
    config: &Config,
    request: &RequestView,
    answer: &Answer,
    working: &mut Working,
) -> Result<(), NoMemory>
    ensures { OnOk result
        (working.new ≡ answers_alone config.now request.now answer.now working.old) }
{
    answering(alloc, config, request, answer, working)?;
    answered(&mut working.play.view, request, answer.code)
}

#[tactic(auto, unfolding(sc_hosts::specs::Acting::fault_at, sc_hosts::specs::Messages::bare_answer, crate::specs::Passing::answers_alone))]
fn fault_at(
    alloc: Global,
    config: &Config,
    request: &Option<RequestView>,
    working: &mut Working,
) -> Result<(), NoMemory>
    ensures { OnOk result (working.new ≡ fault_at config.now request.now working.old) }
{
    match request {
        Some(request) => {
            if !is_owed(request) || request.proxied {
                return Ok(());
            }
            let answer = error_answer(alloc)?;
            answers_alone(alloc, config, request, &answer, working)
        }
        None => Ok(()),
    }
}

/// A copy of the request of this number, where there is one.
pub fn request_at(
    alloc: Global,
    view: &View,
    req: Option<ReqId>,
) -> Result<Option<RequestView>, NoMemory>
    ensures { IfOk result (λ request. request ≡ option_and_then (request_in view.entry.now) req) }
{
    match req {
        Some(req) => request_copy(alloc, view, req),
        None => Ok(None),
    }
}

/// After a fault the event's request is answered 500 where it was left without an answer.
#[tactic(auto, unfolding(sc_hosts::specs::Acting::after_fault))]
pub fn faulted(
    alloc: Global,
    config: &Config,
    req: Option<ReqId>,
    end: End,
    working: &mut Working,
) -> Result<(), NoMemory>
    ensures { OnOk result (working.new ≡ after_fault config.now req end working.old) }
{
    match end {
        End::Fault => {
            let request = request_at(alloc, &working.play.view, req)?;
            fault_at(alloc, config, &request, working)
        }
        End::Fine | End::Starved => Ok(()),
    }
}
