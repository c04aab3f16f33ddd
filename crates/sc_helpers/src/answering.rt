//! Answers with fields.

ghost use Rattle.std.specs.Prelude.{◌≡◌, ◌+◌, ◌<◌, [], IfOk, OnOk};
ghost use Rattle.sc_value.specs.declared.ids.ReqId.{ReqId};
ghost use Rattle.sc_hosts.specs.HelperParts.{accepted_then, answer_with};
ghost use Rattle.sc_hosts.specs.RefusalParts.{MOST_CALLS};
ghost use Rattle.sc_hosts.specs.Scripting.{only, reply};
ghost use Rattle.sc_turn.specs.Working.{play_of};
ghost use Rattle.sc_apps.specs.Scripted.{IsMade, IsPlayed};
ghost use Rattle.sc_helpers.specs.Leading.{IsLed};
ghost use Rattle.sc_helpers.specs.Stopping.{Leads};

use crate::stepping::try_respond;
use crate::stopping::{Stopped, wanting};
use sc_apps::{is_refused, memory_of, respond};
use sc_terms::{Answer, Call, CallAnswer};
use sc_turn::Turn;
use sc_value::{Field, List, NoMemory, ReqId, Text};
use std::alloc::Global;

#[tactic(auto, unfolding(sc_hosts::specs::HelperParts::answer_with))]
fn answer_of(
    alloc: Global,
    code: u16,
    reason: &[u8],
    fields: List<Field>,
) -> Result<Answer, NoMemory>
    ensures { IfOk result
        (λ answer.
        (req : ReqId) → Call.Respond req answer ≡ answer_with req code reason.now fields) }
{
    let reason = Text::from_slice(alloc, reason)?;
    Ok(Answer {
        code,
        reason,
        fields,
        contact: List::new(alloc),
        body: Text::new(alloc),
    })
}

fn answer_with(
    t: &mut Turn,
    req: ReqId,
    code: u16,
    reason: &[u8],
    fields: List<Field>,
) -> Result<CallAnswer, NoMemory>
    requires { (play_of t.old).listed < MOST_CALLS }
    ensures same { t.new.shown ≡ t.old.shown }
    ensures made { IfOk result
        (λ given. IsMade (answer_with req code reason.now fields) t.old given t.new) }
    ensures listed { OnOk result ((play_of t.new).listed ≡ (play_of t.old).listed + 1) }
{
    let answer = answer_of(memory_of(t), code, reason, fields)?;
    respond(t, req, answer)
}

/// Answers a request with fields, and makes no other call.
#[tactic(auto, using(sc_apps::proofs::Playing::played_only))]
pub fn answer_only(
    t: &mut Turn,
    req: ReqId,
    code: u16,
    reason: &[u8],
    fields: List<Field>,
) -> Result<(), NoMemory>
    requires { (play_of t.old).listed < MOST_CALLS }
    ensures same { t.new.shown ≡ t.old.shown }
    ensures played { OnOk result
        (IsPlayed (only (answer_with req code reason.now fields)) t.old t.new) }
{
    answer_with(t, req, code, reason, fields)?;
    Ok(())
}

/// Answers a request with fields. Tells whether the script goes on.
#[tactic(auto, using(crate::proofs::LedLaws::led_made))]
pub fn answer_first(
    t: &mut Turn,
    req: ReqId,
    code: u16,
    reason: &[u8],
    fields: List<Field>,
) -> Result<bool, NoMemory>
    requires { (play_of t.old).listed < MOST_CALLS }
    ensures same { t.new.shown ≡ t.old.shown }
    ensures led { IfOk result
        (λ on. IsLed (accepted_then (answer_with req code reason.now fields)) on t.old t.new) }
    ensures listed { OnOk result ((play_of t.new).listed ≡ (play_of t.old).listed + 1) }
{
    let answer = answer_with(t, req, code, reason, fields)?;
    Ok(!is_refused(answer))
}

fn plain_answer(
    alloc: Global,
    code: u16,
    reason: &[u8],
    fields: List<Field>,
) -> Result<Answer, NoMemory>
    ensures { IfOk result
        (λ answer.
        answer
        ≡ record {
          code = code;
          reason = reason.now;
          fields = fields;
          contact = [];
          body = [];
        }) }
{
    let reason = Text::from_slice(alloc, reason)?;
    Ok(Answer {
        code,
        reason,
        fields,
        contact: List::new(alloc),
        body: Text::new(alloc),
    })
}

/// Answers a request with fields, behind so many accepted calls.
#[tactic(auto, unfolding(sc_hosts::specs::HelperParts::answer_with), using(crate::proofs::Steps::led_wanting))]
pub fn try_answer(
    turn: &mut Turn,
    made: u8,
    req: ReqId,
    code: u16,
    reason: &[u8],
    fields: List<Field>,
) -> Result<u8, Stopped>
    requires few { made < 100 }
    ensures same { turn.new.shown ≡ turn.old.shown }
    ensures led { Leads (accepted_then (answer_with req code reason.now fields)) made turn.old
        result turn.new }
    ensures count { IfOk result (λ after. after ≡ made + 1) }
{
    match plain_answer(memory_of(turn), code, reason, fields) {
        Ok(answer) => try_respond(turn, made, req, answer),
        Err(NoMemory) => Err(wanting(made)),
    }
}

/// Answers a request with this code and reason, and nothing else, behind so many accepted calls.
#[tactic(auto, unfolding(sc_hosts::specs::HelperParts::answer_with, sc_hosts::specs::Scripting::reply))]
pub fn try_reply(
    turn: &mut Turn,
    made: u8,
    req: ReqId,
    code: u16,
    reason: &[u8],
) -> Result<u8, Stopped>
    requires few { made < 100 }
    ensures same { turn.new.shown ≡ turn.old.shown }
    ensures led { Leads (accepted_then (reply req code reason.now)) made turn.old result turn.new }
    ensures count { IfOk result (λ after. after ≡ made + 1) }
{
    let none = List::new(memory_of(turn));
    try_answer(turn, made, req, code, reason, none)
}
