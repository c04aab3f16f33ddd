//! The calls of a plan. Each refusal is told as want of memory.

ghost use Rattle.std.specs.Prelude.{◌≡◌};

use crate::drafts::{first_target, own_invite, own_message, second_target, targets};
use crate::plans::{Deed, Proxying};
use sc_apps::memory_of;
use sc_terms::{Answer, Ask, Period, ProxyOptions, Target};
use sc_turn::Turn;
use sc_value::{CloneIn, List, NoMemory, ReqId, SessId, Text, TimerId, Uri};
use std::alloc::Global;

/// Makes the call.
pub fn play(t: &mut Turn, deed: Deed) -> Result<(), NoMemory>
    ensures same { t.new.shown ≡ t.old.shown }
{
    match deed {
        Deed::Answer(code) => answer(t, code),
        Deed::Note => note(t),
        Deed::Start(period) => start(t, period),
        Deed::EndTimer => end_timer(t),
        Deed::MoveExpiry => move_expiry(t),
        Deed::Proxy(how) => proxy(t, how),
        Deed::CancelProxy => cancel_proxy(t),
        Deed::Unready => clear_flag(t, Target::Application),
        Deed::UnreadySession => clear_flag(t, Target::Session(SessId(1))),
        _ => play_own(t, deed),
    }
}

// The calls on what the application made itself, and those that end sessions.
fn play_own(t: &mut Turn, deed: Deed) -> Result<(), NoMemory>
    ensures same { t.new.shown ≡ t.old.shown }
{
    match deed {
        Deed::DraftMessage => draft_message(t),
        Deed::DraftInvite => draft_invite(t),
        Deed::Discard => discard(t),
        Deed::Send => send(t),
        Deed::Cancel => cancel(t),
        Deed::Link => link(t),
        Deed::Unlink => unlink(t),
        Deed::EndSession => end_session(t),
        Deed::End => end(t),
        _ => Ok(()),
    }
}

fn reason(code: u16) -> &'static [u8] {
    match code {
        180 => b"Ringing",
        486 => b"Busy Here",
        _ => b"OK",
    }
}

fn answer(t: &mut Turn, code: u16) -> Result<(), NoMemory>
    ensures same { t.new.shown ≡ t.old.shown }
{
    let alloc = memory_of(t);
    let reason = Text::from_slice(alloc, reason(code))?;
    respond(
        t,
        Answer {
            code,
            reason,
            fields: List::new(alloc),
            contact: List::new(alloc),
            body: Text::new(alloc),
        },
    )
}

#[tactic(auto, unfolding(sc_turn::specs::Working::Answers), using(sc_apps::proofs::Playing::accepted_same, sc_apps::proofs::Playing::refused_same))]
fn respond(t: &mut Turn, answer: Answer) -> Result<(), NoMemory>
    ensures same { t.new.shown ≡ t.old.shown }
{
    match t.respond(ReqId(1), answer) {
        Ok(()) => Ok(()),
        Err(_) => Err(NoMemory),
    }
}

fn note(t: &mut Turn) -> Result<(), NoMemory>
    ensures same { t.new.shown ≡ t.old.shown }
{
    let alloc = memory_of(t);
    let name = Text::from_slice(alloc, b"param")?;
    let value = first_param(alloc, t)?;
    set_attribute(t, name, value)
}

// The first parameter, empty where there is none.
fn first_param(alloc: Global, t: &Turn) -> Result<Text, NoMemory> {
    match t.view().params.as_slice() {
        [first, ..] => first.clone_in(alloc),
        [] => Ok(Text::new(alloc)),
    }
}

#[tactic(auto, unfolding(sc_turn::specs::Working::Answers), using(sc_apps::proofs::Playing::accepted_same, sc_apps::proofs::Playing::refused_same))]
fn set_attribute(t: &mut Turn, name: Text, value: Text) -> Result<(), NoMemory>
    ensures same { t.new.shown ≡ t.old.shown }
{
    match t.set_attribute(name, value) {
        Ok(()) => Ok(()),
        Err(_) => Err(NoMemory),
    }
}

#[tactic(auto, unfolding(sc_turn::specs::Working::Answers), using(sc_apps::proofs::Playing::accepted_same, sc_apps::proofs::Playing::refused_same))]
fn start(t: &mut Turn, period: Period) -> Result<(), NoMemory>
    ensures same { t.new.shown ≡ t.old.shown }
{
    let info = Text::new(memory_of(t));
    match t.start_timer(1000, period, info) {
        Ok(_) => Ok(()),
        Err(_) => Err(NoMemory),
    }
}

#[tactic(auto, unfolding(sc_turn::specs::Working::Answers), using(sc_apps::proofs::Playing::accepted_same, sc_apps::proofs::Playing::refused_same))]
fn end_timer(t: &mut Turn) -> Result<(), NoMemory>
    ensures same { t.new.shown ≡ t.old.shown }
{
    match t.cancel_timer(TimerId(1)) {
        Ok(()) => Ok(()),
        Err(_) => Err(NoMemory),
    }
}

#[tactic(auto, unfolding(sc_turn::specs::Working::Answers), using(sc_apps::proofs::Playing::accepted_same, sc_apps::proofs::Playing::refused_same))]
fn move_expiry(t: &mut Turn) -> Result<(), NoMemory>
    ensures same { t.new.shown ≡ t.old.shown }
{
    match t.set_expires(10) {
        Ok(()) => Ok(()),
        Err(_) => Err(NoMemory),
    }
}

#[tactic(auto, unfolding(sc_turn::specs::Working::Answers), using(sc_apps::proofs::Playing::accepted_same, sc_apps::proofs::Playing::refused_same))]
fn clear_flag(t: &mut Turn, target: Target) -> Result<(), NoMemory>
    ensures same { t.new.shown ≡ t.old.shown }
{
    match t.set_ready_flag(target, false) {
        Ok(()) => Ok(()),
        Err(_) => Err(NoMemory),
    }
}

fn targets_of(alloc: Global, how: Proxying) -> Result<List<Uri>, NoMemory> {
    match how {
        Proxying::InTurn | Proxying::AtOnce => targets(alloc),
        Proxying::ToFirst => first_target(alloc),
        Proxying::ToSecond => second_target(alloc),
    }
}

fn options_of(how: Proxying) -> ProxyOptions {
    let (parallel, timeout) = match how {
        Proxying::AtOnce => (true, 2),
        _ => (false, 180),
    };
    ProxyOptions {
        parallel,
        recurse: false,
        supervised: true,
        record_route: false,
        timeout,
    }
}

fn proxy(t: &mut Turn, how: Proxying) -> Result<(), NoMemory>
    ensures same { t.new.shown ≡ t.old.shown }
{
    let targets = targets_of(memory_of(t), how)?;
    proxy_to(t, targets, options_of(how))
}

#[tactic(auto, unfolding(sc_turn::specs::Working::Answers), using(sc_apps::proofs::Playing::accepted_same, sc_apps::proofs::Playing::refused_same))]
fn proxy_to(t: &mut Turn, targets: List<Uri>, options: ProxyOptions) -> Result<(), NoMemory>
    ensures same { t.new.shown ≡ t.old.shown }
{
    match t.proxy_to(ReqId(1), targets, options) {
        Ok(()) => Ok(()),
        Err(_) => Err(NoMemory),
    }
}

#[tactic(auto, unfolding(sc_turn::specs::Working::Answers), using(sc_apps::proofs::Playing::accepted_same, sc_apps::proofs::Playing::refused_same))]
fn cancel_proxy(t: &mut Turn) -> Result<(), NoMemory>
    ensures same { t.new.shown ≡ t.old.shown }
{
    match t.proxy_cancel(ReqId(1)) {
        Ok(()) => Ok(()),
        Err(_) => Err(NoMemory),
    }
}

fn draft_message(t: &mut Turn) -> Result<(), NoMemory>
    ensures same { t.new.shown ≡ t.old.shown }
{
    let ask = own_message(memory_of(t))?;
    create(t, ask)
}

fn draft_invite(t: &mut Turn) -> Result<(), NoMemory>
    ensures same { t.new.shown ≡ t.old.shown }
{
    let ask = own_invite(memory_of(t))?;
    create(t, ask)
}

#[tactic(auto, unfolding(sc_turn::specs::Working::Answers), using(sc_apps::proofs::Playing::accepted_same, sc_apps::proofs::Playing::refused_same))]
fn create(t: &mut Turn, ask: Ask) -> Result<(), NoMemory>
    ensures same { t.new.shown ≡ t.old.shown }
{
    match t.create_request(ask) {
        Ok(_) => Ok(()),
        Err(_) => Err(NoMemory),
    }
}

#[tactic(auto, unfolding(sc_turn::specs::Working::Answers), using(sc_apps::proofs::Playing::accepted_same, sc_apps::proofs::Playing::refused_same))]
fn discard(t: &mut Turn) -> Result<(), NoMemory>
    ensures same { t.new.shown ≡ t.old.shown }
{
    match t.discard(1) {
        Ok(()) => Ok(()),
        Err(_) => Err(NoMemory),
    }
}

#[tactic(auto, unfolding(sc_turn::specs::Working::Answers), using(sc_apps::proofs::Playing::accepted_same, sc_apps::proofs::Playing::refused_same))]
fn send(t: &mut Turn) -> Result<(), NoMemory>
    ensures same { t.new.shown ≡ t.old.shown }
{
    match t.send(1) {
        Ok(_) => Ok(()),
        Err(_) => Err(NoMemory),
    }
}

#[tactic(auto, unfolding(sc_turn::specs::Working::Answers), using(sc_apps::proofs::Playing::accepted_same, sc_apps::proofs::Playing::refused_same))]
fn cancel(t: &mut Turn) -> Result<(), NoMemory>
    ensures same { t.new.shown ≡ t.old.shown }
{
    match t.cancel(ReqId(2)) {
        Ok(()) => Ok(()),
        Err(_) => Err(NoMemory),
    }
}

#[tactic(auto, unfolding(sc_turn::specs::Working::Answers), using(sc_apps::proofs::Playing::accepted_same, sc_apps::proofs::Playing::refused_same))]
fn link(t: &mut Turn) -> Result<(), NoMemory>
    ensures same { t.new.shown ≡ t.old.shown }
{
    match t.link(SessId(1), SessId(2)) {
        Ok(()) => Ok(()),
        Err(_) => Err(NoMemory),
    }
}

#[tactic(auto, unfolding(sc_turn::specs::Working::Answers), using(sc_apps::proofs::Playing::accepted_same, sc_apps::proofs::Playing::refused_same))]
fn unlink(t: &mut Turn) -> Result<(), NoMemory>
    ensures same { t.new.shown ≡ t.old.shown }
{
    match t.unlink(SessId(1)) {
        Ok(()) => Ok(()),
        Err(_) => Err(NoMemory),
    }
}

#[tactic(auto, unfolding(sc_turn::specs::Working::Answers), using(sc_apps::proofs::Playing::accepted_same, sc_apps::proofs::Playing::refused_same))]
fn end_session(t: &mut Turn) -> Result<(), NoMemory>
    ensures same { t.new.shown ≡ t.old.shown }
{
    match t.invalidate_session(SessId(1)) {
        Ok(()) => Ok(()),
        Err(_) => Err(NoMemory),
    }
}

#[tactic(auto, unfolding(sc_turn::specs::Working::Answers), using(sc_apps::proofs::Playing::accepted_same, sc_apps::proofs::Playing::refused_same))]
fn end(t: &mut Turn) -> Result<(), NoMemory>
    ensures same { t.new.shown ≡ t.old.shown }
{
    match t.invalidate_application() {
        Ok(()) => Ok(()),
        Err(_) => Err(NoMemory),
    }
}
