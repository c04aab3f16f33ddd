//! The calls of a row: the name of the call, and then its numbers and words. For want of memory one
//! is refused as a call is.

use crate::asking::{answer, ask, directive, inside, options, origin, targets};
use crate::reading::{number, signed_number, small_number, text_of, word};
use crate::views::{expiry, is_flagged, is_own_flag_set, is_there, partner_of};
use sc_terms::{CallAnswer, Period, Refusal, Target};
use sc_turn::Turn;
use sc_value::{NoMemory, ReqId, SessId, Text, TimerId};
use std::alloc::Global;

// The calls of a turn, and what can be asked of its view.
#[derive(Clone, Copy)]
enum Name {
    Respond,
    CreateRequest,
    CreateInDialog,
    B2bCreate,
    SetDirective,
    Send,
    Discard,
    Ack,
    Cancel,
    ProxyTo,
    ProxyCancel,
    B2bRespond,
    Link,
    Unlink,
    StartTimer,
    CancelTimer,
    SetAttribute,
    RemoveAttribute,
    SetExpires,
    SetReadyFlag,
    InvalidateSession,
    InvalidateApplication,
    Partner,
    IsThere,
    IsFlagged,
    Expiry,
}

const NAMES: [(&str, Name); 26] = [
    ("respond", Name::Respond),
    ("create_request", Name::CreateRequest),
    ("create_in_dialog", Name::CreateInDialog),
    ("b2b_create", Name::B2bCreate),
    ("set_directive", Name::SetDirective),
    ("send", Name::Send),
    ("discard", Name::Discard),
    ("ack", Name::Ack),
    ("cancel", Name::Cancel),
    ("proxy_to", Name::ProxyTo),
    ("proxy_cancel", Name::ProxyCancel),
    ("b2b_respond", Name::B2bRespond),
    ("link", Name::Link),
    ("unlink", Name::Unlink),
    ("start_timer", Name::StartTimer),
    ("cancel_timer", Name::CancelTimer),
    ("set_attribute", Name::SetAttribute),
    ("remove_attribute", Name::RemoveAttribute),
    ("set_expires", Name::SetExpires),
    ("set_ready_flag", Name::SetReadyFlag),
    ("invalidate_session", Name::InvalidateSession),
    ("invalidate_application", Name::InvalidateApplication),
    ("partner", Name::Partner),
    ("is_there", Name::IsThere),
    ("is_flagged", Name::IsFlagged),
    ("expiry", Name::Expiry),
];

fn name_of(row: &str) -> Option<Name> {
    let first = word(row, 0);
    for (text, name) in NAMES {
        if text == first {
            return Some(name);
        }
    }
    None
}

// What a call answers that gives no number.
type Answered = Result<(), Refusal>;

fn fine(answered: Answered) -> CallAnswer {
    match answered {
        Ok(()) => CallAnswer::Fine,
        Err(refused) => CallAnswer::Refused(refused),
    }
}

fn numbered(answered: Result<u32, Refusal>) -> CallAnswer {
    match answered {
        Ok(number) => CallAnswer::Number(number as u64),
        Err(refused) => CallAnswer::Refused(refused),
    }
}

fn request(row: &str) -> ReqId {
    ReqId(number(row, 1))
}

fn session(row: &str) -> SessId {
    SessId(number(row, 1))
}

// A request, a code, a reason and a field.
fn respond(t: &mut Turn, alloc: Global, row: &str) -> Answered {
    match answer(alloc, row) {
        Ok(answer) => t.respond(request(row), answer),
        Err(NoMemory) => Err(Refusal::NoMemory),
    }
}

// A directive, an origin, a method and a field.
fn create_request(t: &mut Turn, alloc: Global, row: &str) -> Result<u32, Refusal> {
    match ask(alloc, row) {
        Ok(ask) => t.create_request(ask),
        Err(NoMemory) => Err(Refusal::NoMemory),
    }
}

// A SipSession, a method and a field.
fn create_in_dialog(t: &mut Turn, alloc: Global, row: &str) -> Result<u32, Refusal> {
    match inside(alloc, row) {
        Ok(ask) => t.create_in_dialog(session(row), ask),
        Err(NoMemory) => Err(Refusal::NoMemory),
    }
}

// A request. The second leg goes to its URI.
fn b2b_create(t: &mut Turn, row: &str) -> Result<u32, Refusal> {
    t.b2b_create(request(row), None)
}

// A draft, a directive and an origin.
fn set_directive(t: &mut Turn, row: &str) -> Answered {
    t.set_directive(number(row, 1), directive(row, 2), origin(row, 3))
}

fn send(t: &mut Turn, row: &str) -> Result<u32, Refusal> {
    match t.send(number(row, 1)) {
        Ok(req) => Ok(req.0),
        Err(refused) => Err(refused),
    }
}

fn discard(t: &mut Turn, row: &str) -> Answered {
    t.discard(number(row, 1))
}

fn ack(t: &mut Turn, alloc: Global, row: &str) -> Answered {
    t.ack(session(row), Text::new(alloc))
}

fn cancel(t: &mut Turn, row: &str) -> Answered {
    t.cancel(request(row))
}

// A request, a count of targets and a time in seconds.
fn proxy_to(t: &mut Turn, alloc: Global, row: &str) -> Answered {
    match targets(alloc, number(row, 2)) {
        Ok(targets) => t.proxy_to(request(row), targets, options(small_number(row, 3))),
        Err(NoMemory) => Err(Refusal::NoMemory),
    }
}

fn proxy_cancel(t: &mut Turn, row: &str) -> Answered {
    t.proxy_cancel(request(row))
}

// A SipSession, a code, a reason and a field.
fn b2b_respond(t: &mut Turn, alloc: Global, row: &str) -> Answered {
    match answer(alloc, row) {
        Ok(answer) => t.b2b_respond(session(row), answer),
        Err(NoMemory) => Err(Refusal::NoMemory),
    }
}

fn link(t: &mut Turn, row: &str) -> Answered {
    t.link(session(row), SessId(number(row, 2)))
}

fn unlink(t: &mut Turn, row: &str) -> Answered {
    t.unlink(session(row))
}

fn period(row: &str) -> Period {
    let kind = word(row, 1);
    if kind == "Rate" {
        Period::Rate(number(row, 2))
    } else if kind == "Delay" {
        Period::Delay(number(row, 2))
    } else {
        Period::Once
    }
}

// A period, if it isn't for once. The timer fires after a second.
fn start_timer(t: &mut Turn, alloc: Global, row: &str) -> Result<u32, Refusal> {
    match t.start_timer(1000, period(row), Text::new(alloc)) {
        Ok(id) => Ok(id.0),
        Err(refused) => Err(refused),
    }
}

fn cancel_timer(t: &mut Turn, row: &str) -> Answered {
    t.cancel_timer(TimerId(number(row, 1)))
}

fn value_of(alloc: Global, length: u32) -> Result<Text, NoMemory> {
    let mut value = Text::new(alloc);
    for _ in 0..length {
        value.append(b"v")?;
    }
    Ok(value)
}

// The name and a value of so many bytes.
fn attribute(alloc: Global, row: &str) -> Result<(Text, Text), NoMemory> {
    let value = value_of(alloc, number(row, 2))?;
    let name = text_of(alloc, word(row, 1))?;
    Ok((name, value))
}

// A name and the length of a value.
fn set_attribute(t: &mut Turn, alloc: Global, row: &str) -> Answered {
    match attribute(alloc, row) {
        Ok((name, value)) => t.set_attribute(name, value),
        Err(NoMemory) => Err(Refusal::NoMemory),
    }
}

fn remove_attribute(t: &mut Turn, alloc: Global, row: &str) -> Answered {
    match text_of(alloc, word(row, 1)) {
        Ok(name) => t.remove_attribute(name),
        Err(NoMemory) => Err(Refusal::NoMemory),
    }
}

fn set_expires(t: &mut Turn, row: &str) -> Answered {
    t.set_expires(signed_number(row, 1))
}

// The application session's is named by the word `own`.
fn target(row: &str) -> Target {
    if word(row, 1) == "own" {
        Target::Application
    } else {
        Target::Session(session(row))
    }
}

fn set_ready_flag(t: &mut Turn, row: &str) -> Answered {
    t.set_ready_flag(target(row), word(row, 2) == "on")
}

fn invalidate_session(t: &mut Turn, row: &str) -> Answered {
    t.invalidate_session(session(row))
}

fn invalidate_application(t: &mut Turn) -> Answered {
    t.invalidate_application()
}

fn yes_or_no(is_so: bool) -> CallAnswer {
    CallAnswer::Number(if is_so { 1 } else { 0 })
}

fn is_target_flagged(t: &Turn, row: &str) -> bool {
    match target(row) {
        Target::Application => is_own_flag_set(t),
        Target::Session(sess) => is_flagged(t, sess.0),
    }
}

/// Makes the call of a row, or looks at what it asks for: then the answer is a number. None where
/// it names no call.
pub fn make(t: &mut Turn, alloc: Global, row: &str) -> Option<CallAnswer> {
    let name = name_of(row)?;
    Some(match name {
        Name::Respond => fine(respond(t, alloc, row)),
        Name::CreateRequest => numbered(create_request(t, alloc, row)),
        Name::CreateInDialog => numbered(create_in_dialog(t, alloc, row)),
        Name::B2bCreate => numbered(b2b_create(t, row)),
        Name::SetDirective => fine(set_directive(t, row)),
        Name::Send => numbered(send(t, row)),
        Name::Discard => fine(discard(t, row)),
        Name::Ack => fine(ack(t, alloc, row)),
        Name::Cancel => fine(cancel(t, row)),
        Name::ProxyTo => fine(proxy_to(t, alloc, row)),
        Name::ProxyCancel => fine(proxy_cancel(t, row)),
        Name::B2bRespond => fine(b2b_respond(t, alloc, row)),
        Name::Link => fine(link(t, row)),
        Name::Unlink => fine(unlink(t, row)),
        Name::StartTimer => numbered(start_timer(t, alloc, row)),
        Name::CancelTimer => fine(cancel_timer(t, row)),
        Name::SetAttribute => fine(set_attribute(t, alloc, row)),
        Name::RemoveAttribute => fine(remove_attribute(t, alloc, row)),
        Name::SetExpires => fine(set_expires(t, row)),
        Name::SetReadyFlag => fine(set_ready_flag(t, row)),
        Name::InvalidateSession => fine(invalidate_session(t, row)),
        Name::InvalidateApplication => fine(invalidate_application(t)),
        Name::Partner => CallAnswer::Number(partner_of(t, number(row, 1)) as u64),
        Name::IsThere => yes_or_no(is_there(t, number(row, 1))),
        Name::IsFlagged => yes_or_no(is_target_flagged(t, row)),
        Name::Expiry => CallAnswer::Number(expiry(t)),
    })
}
