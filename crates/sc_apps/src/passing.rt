//! Later requests pass from one leg to the other.

ghost use Rattle.std.specs.Prelude.{◌≡◌, ◌+◌, ◌<◌, decimal, IfOk, OnOk};
ghost use Rattle.sc_hosts.specs.Scripting.{Make, only, where_some, with_number};
ghost use Rattle.sc_hosts.specs.Charters.{other_leg, sent_on, served_name};
ghost use Rattle.sc_hosts.specs.RefusalParts.{MOST_CALLS};
ghost use Rattle.sc_turn.specs.Working.{play_of};
ghost use Rattle.sc_apps.specs.Scripted.{IsPlayed};

use crate::calling::ack;
use crate::drafting::{create_in_dialog, draft_of, send};
use crate::keeping::set_attribute;
use crate::reading::{decimal_text, memory_of};
use sc_methods::is_ack;
use sc_terms::{Call, CallAnswer, Inside};
use sc_turn::Turn;
use sc_value::{CloneIn, NoMemory, ReqId, Request, SessId, Text, write_u64};
use std::alloc::Global;

/// Passes a later request on to the other leg, where there is one.
#[tactic(auto, unfolding(sc_hosts::specs::Scripting::where_some), using(crate::proofs::Playing::played_done))]
pub fn pass_on(
    t: &mut Turn,
    req: ReqId,
    request: &Request,
    other: Option<SessId>,
) -> Result<(), NoMemory>
    requires { (play_of t.old).listed + 2 < MOST_CALLS }
    ensures same { t.new.shown ≡ t.old.shown }
    ensures played { OnOk result
        (IsPlayed (where_some other (other_leg req request.now)) t.old t.new) }
{
    match other {
        Some(other) => other_leg(t, req, request, other),
        None => Ok(()),
    }
}

#[tactic(auto, unfolding(sc_hosts::specs::Charters::other_leg))]
fn other_leg(t: &mut Turn, req: ReqId, request: &Request, other: SessId) -> Result<(), NoMemory>
    requires { (play_of t.old).listed + 2 < MOST_CALLS }
    ensures same { t.new.shown ≡ t.old.shown }
    ensures played { OnOk result (IsPlayed (other_leg req request.now other) t.old t.new) }
{
    if is_ack(request.method.as_bytes()) {
        return pass_ack(t, other, &request.head.body);
    }
    send_on(t, req, request, other)
}

#[tactic(auto, using(crate::proofs::Playing::played_only))]
fn pass_ack(t: &mut Turn, other: SessId, body: &Text) -> Result<(), NoMemory>
    requires { (play_of t.old).listed < MOST_CALLS }
    ensures same { t.new.shown ≡ t.old.shown }
    ensures played { OnOk result (IsPlayed (only (Call.Ack other body.now)) t.old t.new) }
{
    let body = body.clone_in(memory_of(t))?;
    ack(t, other, body)?;
    Ok(())
}

/// A request as the other leg sends it.
fn inside_of(alloc: Global, request: &Request) -> Result<Inside, NoMemory>
    ensures { IfOk result
        (λ ask.
        ask
        ≡ record {
          method = request.now.method;
          fields = request.now.head.others;
          body = request.now.head.body;
        }) }
{
    Ok(Inside {
        method: request.method.as_text().clone_in(alloc)?,
        fields: request.head.others.to_list()?,
        body: request.head.body.clone_in(alloc)?,
    })
}

#[tactic(auto, unfolding(sc_hosts::specs::Charters::sent_on), using(crate::proofs::Playing::played_make))]
fn send_on(t: &mut Turn, req: ReqId, request: &Request, other: SessId) -> Result<(), NoMemory>
    requires { (play_of t.old).listed + 2 < MOST_CALLS }
    ensures same { t.new.shown ≡ t.old.shown }
    ensures played { OnOk result (IsPlayed (sent_on req request.now other) t.old t.new) }
{
    let ask = inside_of(memory_of(t), request)?;
    let answer = create_in_dialog(t, other, ask)?;
    send_made(t, req, answer)
}

#[tactic(auto, unfolding(sc_hosts::specs::Scripting::with_number), using(crate::proofs::Playing::played_done))]
fn send_made(t: &mut Turn, req: ReqId, answer: CallAnswer) -> Result<(), NoMemory>
    requires { (play_of t.old).listed + 1 < MOST_CALLS }
    ensures same { t.new.shown ≡ t.old.shown }
    ensures played { OnOk result
        (IsPlayed
        (with_number
        (λ draft.
        Make (Call.Send draft)
        (with_number (λ n. only (Call.SetAttribute (served_name n) (decimal req.0)))))
        answer) t.old t.new) }
{
    match answer {
        CallAnswer::Number(draft) => send_and_note(t, req, draft),
        CallAnswer::Fine | CallAnswer::Refused(_) => Ok(()),
    }
}

#[tactic(auto, using(crate::proofs::Playing::played_make))]
fn send_and_note(t: &mut Turn, req: ReqId, draft: u64) -> Result<(), NoMemory>
    requires { (play_of t.old).listed + 1 < MOST_CALLS }
    ensures same { t.new.shown ≡ t.old.shown }
    ensures played { OnOk result
        (IsPlayed
        (Make (Call.Send draft)
        (with_number (λ n. only (Call.SetAttribute (served_name n) (decimal req.0))))) t.old
        t.new) }
{
    let draft = draft_of(draft)?;
    let answer = send(t, draft)?;
    note_sent(t, req, answer)
}

#[tactic(auto, unfolding(sc_hosts::specs::Scripting::with_number), using(crate::proofs::Playing::played_done))]
fn note_sent(t: &mut Turn, req: ReqId, answer: CallAnswer) -> Result<(), NoMemory>
    requires { (play_of t.old).listed < MOST_CALLS }
    ensures same { t.new.shown ≡ t.old.shown }
    ensures played { OnOk result
        (IsPlayed
        (with_number (λ n. only (Call.SetAttribute (served_name n) (decimal req.0))) answer) t.old
        t.new) }
{
    match answer {
        CallAnswer::Number(number) => note(t, req, number),
        CallAnswer::Fine | CallAnswer::Refused(_) => Ok(()),
    }
}

/// The attribute that names the request which a sent one serves.
#[tactic(auto, unfolding(sc_hosts::specs::Charters::served_name))]
pub fn served_name(alloc: Global, number: u64) -> Result<Text, NoMemory>
    ensures { IfOk result (λ text. text ≡ served_name number) }
{
    let mut text = Text::from_slice(alloc, b"r")?;
    write_u64(number, &mut text)?;
    Ok(text)
}

#[tactic(auto, using(crate::proofs::Playing::played_only))]
fn note(t: &mut Turn, req: ReqId, number: u64) -> Result<(), NoMemory>
    requires { (play_of t.old).listed < MOST_CALLS }
    ensures same { t.new.shown ≡ t.old.shown }
    ensures played { OnOk result
        (IsPlayed (only (Call.SetAttribute (served_name number) (decimal req.0))) t.old t.new) }
{
    let name = served_name(memory_of(t), number)?;
    let value = decimal_text(memory_of(t), req.0)?;
    set_attribute(t, name, value)?;
    Ok(())
}
