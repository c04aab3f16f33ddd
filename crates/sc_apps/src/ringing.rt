//! The application that rings, and answers later.

ghost use Rattle.std.specs.Prelude.{◌≡◌, ◌+◌, ◌<◌, [], decimal, false, slice_get, option_map, option_and_then, if◌then◌else◌, OnOk};
ghost use Rattle.std.specs.Option.{option_copied};
ghost use Rattle.sc_tokens.specs.Names.{same_bytes};
ghost use Rattle.sc_terms.specs.declared.charters.Charter.{Charter};
ghost use Rattle.sc_terms.specs.declared.views.Period.TheVariants.{Once};
ghost use Rattle.sc_hosts.specs.Charters.{drop_word, drops, ring, ringer_script, ringing_time};
ghost use Rattle.sc_hosts.specs.Scripting.{only, param_at, reply, small_number, where_some};
ghost use Rattle.sc_model.specs.SessionStates.{invite};
ghost use Rattle.sc_hosts.specs.RefusalParts.{MOST_CALLS};
ghost use Rattle.sc_hosts.specs.Words.{ok};
ghost use Rattle.sc_turn.specs.Working.{play_of};
ghost use Rattle.sc_apps.specs.Scripted.{IsPlayed};

use crate::ending::ended;
use crate::keeping::{cancel_timer, invalidate_application, start_timer};
use crate::reading::{decimal_text, memory_of, param_at, shown, small_number};
use crate::replies::{reply_180, reply_200, reply_ok};
use sc_methods::is_invite;
use sc_servlets::SipServlet;
use sc_terms::{Call, Charter, End, Event, Period, TimerView, View};
use sc_turn::Turn;
use sc_value::{NoMemory, ReqId, Request, Text, TimerId};

/// Answers the INVITE that began the application session 180 `Ringing`, and starts a timer (JSR 289
/// section 8) of as many milliseconds as its first parameter says, 1,000 where that is missing or
/// no number of 32 bits. When the timer fires it answers the INVITE 200 `OK`; but where its second
/// parameter is `drop` it ends the application session instead. When the INVITE is cancelled it
/// ends the timer. Another request that began the application session, and each later one but an
/// ACK, it answers 200 `OK`. At all other events it makes no call.
#[derive(Clone, Copy, Debug)]
pub struct Rings;

impl SipServlet for Rings {
    ghost stated = { λ _. Charter.Ringer };

    fn charter(&self) -> Charter {
        Charter::Ringer
    }

    #[tactic(auto, unfolding(sc_servlets::specs::Brought::Promises, sc_hosts::specs::Bringing::servlet_script), using(crate::proofs::Playing::keeps))]
    fn turn(&self, t: &mut Turn, e: &Event) -> End {
        ended(handle(t, e))
    }
}

#[tactic(auto, unfolding(sc_hosts::specs::Charters::ringer_script), using(crate::proofs::Playing::played_done, crate::proofs::Playing::begun_room))]
fn handle(t: &mut Turn, e: &Event) -> Result<(), NoMemory>
    requires calls { t.old.calls ≡ [] }
    requires memory { t.old.starved ≡ false }
    ensures same { t.new.shown ≡ t.old.shown }
    ensures played { OnOk result (IsPlayed (ringer_script t.old.shown e.now) t.old t.new) }
{
    match e {
        Event::Initial { req, request, .. } => ring_or_answer(t, *req, request.get()),
        Event::Request { req, request, .. } => reply_ok(t, *req, request.get()),
        Event::Response { .. } => Ok(()),
        Event::Branch { .. } => Ok(()),
        Event::Cancelled { .. } => cancel_first_timer(t),
        Event::Timer { info, .. } => answer_or_drop(t, info),
        Event::Expired => Ok(()),
        Event::Ready => Ok(()),
    }
}

#[tactic(auto, using(crate::proofs::Playing::begun_room))]
fn ring_or_answer(t: &mut Turn, req: ReqId, request: &Request) -> Result<(), NoMemory>
    requires calls { t.old.calls ≡ [] }
    requires memory { t.old.starved ≡ false }
    ensures same { t.new.shown ≡ t.old.shown }
    ensures played { OnOk result
        (IsPlayed
        (if same_bytes request.now.method invite then ring t.old.shown req
        else only (reply req 200 ok)) t.old t.new) }
{
    if is_invite(request.method.as_bytes()) {
        let time = ringing_time(shown(t));
        return ring(t, req, time);
    }
    reply_200(t, req)
}

#[tactic(auto, unfolding(sc_hosts::specs::Charters::ring), using(crate::proofs::Playing::played_then))]
fn ring(t: &mut Turn, req: ReqId, time: u32) -> Result<(), NoMemory>
    requires room { (play_of t.old).listed + 1 < MOST_CALLS }
    requires time { time ≡ ringing_time t.old.shown }
    ensures same { t.new.shown ≡ t.old.shown }
    ensures played { OnOk result (IsPlayed (ring t.old.shown req) t.old t.new) }
{
    reply_180(t, req)?;
    answer_after(t, req, time)
}

#[tactic(auto, using(crate::proofs::Playing::played_only))]
fn answer_after(t: &mut Turn, req: ReqId, time: u32) -> Result<(), NoMemory>
    requires { (play_of t.old).listed < MOST_CALLS }
    ensures same { t.new.shown ≡ t.old.shown }
    ensures played { OnOk result
        (IsPlayed (only (Call.StartTimer time Once (decimal req.0))) t.old t.new) }
{
    let info = decimal_text(memory_of(t), req.0)?;
    start_timer(t, time, Period::Once, info)?;
    Ok(())
}

fn number_param(view: &View, at: usize) -> Option<u32>
    ensures { result ≡ option_and_then small_number (param_at view.entry.now at) }
{
    match param_at(view, at) {
        Some(text) => small_number(text.as_bytes()),
        None => None,
    }
}

/// For how many milliseconds it rings.
#[tactic(auto, unfolding(sc_hosts::specs::Charters::ringing_time))]
fn ringing_time(view: &View) -> u32
    ensures { result ≡ ringing_time view.entry.now }
{
    number_param(view, 0).unwrap_or(1000)
}

#[tactic(auto, unfolding(sc_hosts::specs::Charters::drop_word))]
fn is_drop(word: &[u8]) -> bool
    ensures { result ≡ same_bytes drop_word word.now }
{
    b"drop".as_slice() == word
}

/// Whether it ends the application session in place of an answer.
#[tactic(auto, unfolding(sc_hosts::specs::Charters::drops))]
fn drops(view: &View) -> bool
    ensures { result ≡ drops view.entry.now }
{
    match param_at(view, 1) {
        Some(word) => is_drop(word.as_bytes()),
        None => false,
    }
}

#[tactic(auto, using(sc_value::proofs::ListFacts::slice_get_at, sc_value::proofs::ListFacts::slice_get_none))]
fn first_timer(timers: &[TimerView]) -> Option<&TimerView>
    ensures { option_copied result ≡ slice_get timers.now 0 }
{
    if 0 < timers.len() {
        Some(&timers[0])
    } else {
        None
    }
}

fn first_id(timers: &[TimerView]) -> Option<TimerId>
    ensures { result ≡ option_map (λ timer. timer.id) (slice_get timers.now 0) }
{
    match first_timer(timers) {
        Some(timer) => Some(timer.id),
        None => None,
    }
}

/// Ends the first timer, where there is one.
#[tactic(auto, using(crate::proofs::Playing::begun_room, crate::proofs::Playing::played_id))]
pub fn cancel_first_timer(t: &mut Turn) -> Result<(), NoMemory>
    requires calls { t.old.calls ≡ [] }
    requires memory { t.old.starved ≡ false }
    ensures same { t.new.shown ≡ t.old.shown }
    ensures played { OnOk result
        (IsPlayed
        (where_some (slice_get t.old.shown.timers 0) (λ timer. only (Call.CancelTimer timer.id)))
        t.old t.new) }
{
    let id = first_id(shown(t).timers.as_slice());
    stop_timer(t, id)
}

#[tactic(auto, unfolding(sc_hosts::specs::Scripting::where_some), using(crate::proofs::Playing::played_done, crate::proofs::Playing::played_only))]
fn stop_timer(t: &mut Turn, id: Option<TimerId>) -> Result<(), NoMemory>
    requires { (play_of t.old).listed < MOST_CALLS }
    ensures same { t.new.shown ≡ t.old.shown }
    ensures played { OnOk result
        (IsPlayed (where_some id (λ id. only (Call.CancelTimer id))) t.old t.new) }
{
    match id {
        Some(id) => {
            cancel_timer(t, id)?;
            Ok(())
        }
        None => Ok(()),
    }
}

#[tactic(auto, using(crate::proofs::Playing::begun_room))]
fn answer_or_drop(t: &mut Turn, info: &Text) -> Result<(), NoMemory>
    requires calls { t.old.calls ≡ [] }
    requires memory { t.old.starved ≡ false }
    ensures same { t.new.shown ≡ t.old.shown }
    ensures played { OnOk result
        (IsPlayed
        (if drops t.old.shown then only Call.InvalidateApplication
        else where_some (small_number info.now) (λ n. only (reply (record { 0 = n }) 200 ok)))
        t.old t.new) }
{
    if drops(shown(t)) {
        return end_session(t);
    }
    answer_number(t, small_number(info.as_bytes()))
}

#[tactic(auto, using(crate::proofs::Playing::played_only))]
fn end_session(t: &mut Turn) -> Result<(), NoMemory>
    requires { (play_of t.old).listed < MOST_CALLS }
    ensures same { t.new.shown ≡ t.old.shown }
    ensures played { OnOk result (IsPlayed (only Call.InvalidateApplication) t.old t.new) }
{
    invalidate_application(t)?;
    Ok(())
}

#[tactic(auto, unfolding(sc_hosts::specs::Scripting::where_some), using(crate::proofs::Playing::played_done))]
fn answer_number(t: &mut Turn, number: Option<u32>) -> Result<(), NoMemory>
    requires { (play_of t.old).listed < MOST_CALLS }
    ensures same { t.new.shown ≡ t.old.shown }
    ensures played { OnOk result
        (IsPlayed (where_some number (λ n. only (reply (record { 0 = n }) 200 ok))) t.old t.new) }
{
    match number {
        Some(number) => reply_200(t, ReqId(number)),
        None => Ok(()),
    }
}
