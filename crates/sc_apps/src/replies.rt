//! Answers with a code and a reason, and nothing else.

ghost use Rattle.std.specs.Prelude.{◌≡◌, ◌+◌, ◌<◌, IfOk, OnOk};
ghost use Rattle.sc_value.specs.declared.ids.ReqId.{ReqId};
ghost use Rattle.sc_hosts.specs.Scripting.{only, reply};
ghost use Rattle.sc_hosts.specs.Charters.{reply_ok};
ghost use Rattle.sc_hosts.specs.RefusalParts.{MOST_CALLS};
ghost use Rattle.sc_hosts.specs.Words.{ok, ringing, forbidden, too_many_hops};
ghost use Rattle.sc_turn.specs.Working.{play_of};
ghost use Rattle.sc_apps.specs.Scripted.{IsMade, IsPlayed};
ghost use Rattle.sc_model.specs.BestResponses.{server_error};

use crate::calling::respond;
use crate::reading::memory_of;
use sc_methods::is_ack;
use sc_terms::{Answer, Call, CallAnswer};
use sc_turn::Turn;
use sc_value::{List, NoMemory, ReqId, Request, Text};
use std::alloc::Global;

/// An answer with this code and reason, and nothing else.
#[tactic(auto, unfolding(sc_hosts::specs::Scripting::reply))]
fn plain_answer(alloc: Global, code: u16, reason: &[u8]) -> Result<Answer, NoMemory>
    ensures { IfOk result
        (λ answer. (req : ReqId) → Call.Respond req answer ≡ reply req code reason.now) }
{
    let reason = Text::from_slice(alloc, reason)?;
    Ok(Answer {
        code,
        reason,
        fields: List::new(alloc),
        contact: List::new(alloc),
        body: Text::new(alloc),
    })
}

/// Answers a request so.
pub fn reply(t: &mut Turn, req: ReqId, code: u16, reason: &[u8]) -> Result<CallAnswer, NoMemory>
    requires { (play_of t.old).listed < MOST_CALLS }
    ensures same { t.new.shown ≡ t.old.shown }
    ensures made { IfOk result (λ given. IsMade (reply req code reason.now) t.old given t.new) }
    ensures listed { OnOk result ((play_of t.new).listed ≡ (play_of t.old).listed + 1) }
{
    let answer = plain_answer(memory_of(t), code, reason)?;
    respond(t, req, answer)
}

/// Answers a request so, and makes no other call.
#[tactic(auto, using(crate::proofs::Playing::played_only))]
pub fn reply_only(t: &mut Turn, req: ReqId, code: u16, reason: &[u8]) -> Result<(), NoMemory>
    requires { (play_of t.old).listed < MOST_CALLS }
    ensures same { t.new.shown ≡ t.old.shown }
    ensures played { OnOk result (IsPlayed (only (reply req code reason.now)) t.old t.new) }
{
    reply(t, req, code, reason)?;
    Ok(())
}

/// Answers a request 200 `OK`.
#[tactic(auto, unfolding(sc_hosts::specs::Words::ok))]
pub fn reply_first_200(t: &mut Turn, req: ReqId) -> Result<CallAnswer, NoMemory>
    requires { (play_of t.old).listed < MOST_CALLS }
    ensures same { t.new.shown ≡ t.old.shown }
    ensures made { IfOk result (λ given. IsMade (reply req 200 ok) t.old given t.new) }
    ensures listed { OnOk result ((play_of t.new).listed ≡ (play_of t.old).listed + 1) }
{
    reply(t, req, 200, b"OK")
}

/// Answers a request 180 `Ringing`.
#[tactic(auto, unfolding(sc_hosts::specs::Words::ringing))]
pub fn reply_180(t: &mut Turn, req: ReqId) -> Result<CallAnswer, NoMemory>
    requires { (play_of t.old).listed < MOST_CALLS }
    ensures same { t.new.shown ≡ t.old.shown }
    ensures made { IfOk result (λ given. IsMade (reply req 180 ringing) t.old given t.new) }
    ensures listed { OnOk result ((play_of t.new).listed ≡ (play_of t.old).listed + 1) }
{
    reply(t, req, 180, b"Ringing")
}

/// Answers a request 200 `OK`, and makes no other call.
#[tactic(auto, unfolding(sc_hosts::specs::Words::ok))]
pub fn reply_200(t: &mut Turn, req: ReqId) -> Result<(), NoMemory>
    requires { (play_of t.old).listed < MOST_CALLS }
    ensures same { t.new.shown ≡ t.old.shown }
    ensures played { OnOk result (IsPlayed (only (reply req 200 ok)) t.old t.new) }
{
    reply_only(t, req, 200, b"OK")
}

/// Answers a request 403 `Forbidden`, and makes no other call.
#[tactic(auto, unfolding(sc_hosts::specs::Words::forbidden))]
pub fn reply_403(t: &mut Turn, req: ReqId) -> Result<(), NoMemory>
    requires { (play_of t.old).listed < MOST_CALLS }
    ensures same { t.new.shown ≡ t.old.shown }
    ensures played { OnOk result (IsPlayed (only (reply req 403 forbidden)) t.old t.new) }
{
    reply_only(t, req, 403, b"Forbidden")
}

/// Answers a request 483 `Too Many Hops`, and makes no other call.
#[tactic(auto, unfolding(sc_hosts::specs::Words::too_many_hops))]
pub fn reply_483(t: &mut Turn, req: ReqId) -> Result<(), NoMemory>
    requires { (play_of t.old).listed < MOST_CALLS }
    ensures same { t.new.shown ≡ t.old.shown }
    ensures played { OnOk result (IsPlayed (only (reply req 483 too_many_hops)) t.old t.new) }
{
    reply_only(t, req, 483, b"Too Many Hops")
}

/// Answers a request 500 `Server Internal Error`, and makes no other call.
#[tactic(auto, unfolding(sc_model::specs::BestResponses::server_error))]
pub fn reply_500(t: &mut Turn, req: ReqId) -> Result<(), NoMemory>
    requires { (play_of t.old).listed < MOST_CALLS }
    ensures same { t.new.shown ≡ t.old.shown }
    ensures played { OnOk result (IsPlayed (only (reply req 500 server_error)) t.old t.new) }
{
    reply_only(t, req, 500, b"Server Internal Error")
}

/// Answers a later request 200 `OK`, unless it is an ACK.
#[tactic(auto, unfolding(sc_hosts::specs::Charters::reply_ok), using(crate::proofs::Playing::played_done))]
pub fn reply_ok(t: &mut Turn, req: ReqId, request: &Request) -> Result<(), NoMemory>
    requires { (play_of t.old).listed < MOST_CALLS }
    ensures same { t.new.shown ≡ t.old.shown }
    ensures played { OnOk result (IsPlayed (reply_ok req request.now) t.old t.new) }
{
    if is_ack(request.method.as_bytes()) {
        return Ok(());
    }
    reply_200(t, req)
}
