//! What each accepted call leaves, and what a call answers.

ghost use Rattle.std.specs.Prelude.{◌≡◌, ◌+◌, Some, None, IfOk, OnOk};
ghost use Rattle.std.specs.List.{fold};
ghost use Rattle.sc_model.specs.Settings.{moment_after};
ghost use Rattle.sc_hosts.specs.Refusals.{refusal};
ghost use Rattle.sc_hosts.specs.Effects.{after_call, after_calls, after_listed, answer_by, answer_of, answer_to_call, first_play, played_by};

use crate::answering::{answered_begun, answered_by};
use crate::ending::invalidated;
use crate::keeping::{
    flagged, moment_after, proxied, remove_attribute, remove_timer, with_attribute, with_timer,
};
use crate::looking::{linked, unlinked};
use crate::making::{created, created_later, created_leg};
use crate::sending::{acked, discarded, sent};
use sc_refusals::refusal;
use sc_state::Play;
use sc_terms::{Call, CallAnswer, CallRecord, View};
use sc_value::{List, NoMemory, sum_u32};
use std::alloc::Global;

fn expires_after(view: &mut View, minutes: i32) -> Result<(), NoMemory>
    ensures { OnOk result
        (view.new ≡ record view.old { expires = moment_after view.old.now minutes }) }
{
    let expires = moment_after(view.now, minutes)?;
    view.expires = expires;
    Ok(())
}

/// Puts what an accepted call leaves into the view and the drafts of its turn.
#[tactic(auto, unfolding(sc_hosts::specs::Effects::after_call))]
pub fn after_call(alloc: Global, play: &mut Play, call: &Call) -> Result<(), NoMemory>
    ensures { OnOk result (play.new ≡ after_call play.old call.now) }
{
    match call {
        Call::Respond { req, answer } => answered_by(alloc, &mut play.view, *req, answer.code),
        Call::CreateRequest { ask } => created(alloc, play, ask),
        Call::CreateInDialog { sess, ask } => created_later(alloc, play, *sess, ask),
        Call::B2bCreate { req, .. } => created_leg(alloc, play, *req),
        Call::Send { draft } => sent(alloc, play, *draft),
        Call::Discard { draft } => { discarded(play, *draft) }
        Call::Ack { sess, .. } => acked(&mut play.view, *sess),
        Call::ProxyTo { req, targets, .. } => proxied(&mut play.view, *req, targets.len()),
        Call::B2bRespond { sess, answer } => {
            answered_begun(alloc, &mut play.view, *sess, answer.code)
        }
        Call::Link { a, b } => {
            linked(&mut play.view, *a, *b);
            Ok(())
        }
        Call::Unlink { a } => {
            unlinked(&mut play.view, *a);
            Ok(())
        }
        Call::StartTimer {
            delay_ms,
            period,
            info,
        } => with_timer(alloc, &mut play.view, *delay_ms, *period, info),
        Call::CancelTimer { id } => {
            remove_timer(&mut play.view.timers, *id);
            Ok(())
        }
        Call::SetAttribute { name, value } => {
            with_attribute(alloc, &mut play.view.attributes, name, value)
        }
        Call::RemoveAttribute { name } => {
            remove_attribute(&mut play.view.attributes, name.as_bytes());
            Ok(())
        }
        Call::SetExpires { minutes } => expires_after(&mut play.view, *minutes),
        Call::SetReadyFlag { target, flag } => {
            flagged(&mut play.view, *target, *flag);
            Ok(())
        }
        Call::InvalidateSession { sess } => { invalidated(&mut play.view, *sess) }
        Call::InvalidateApplication => {
            play.ended = true;
            Ok(())
        }
        Call::SetDirective { .. } | Call::Cancel { .. } | Call::ProxyCancel { .. } => Ok(()),
    }
}

/// What an accepted call answers: the number of what it made.
#[tactic(auto, unfolding(sc_hosts::specs::Effects::answer_to_call))]
pub fn accepted(play: &Play, call: &Call) -> CallAnswer
    ensures { result ≡ answer_to_call play.now call.now }
{
    match call {
        Call::CreateRequest { .. } | Call::CreateInDialog { .. } | Call::B2bCreate { .. } => {
            CallAnswer::Number(u64::from(play.drafted) + 1)
        }
        Call::Send { .. } => CallAnswer::Number(u64::from(play.view.next_request)),
        Call::StartTimer { .. } => CallAnswer::Number(u64::from(play.view.next_timer)),
        Call::Respond { .. }
        | Call::SetDirective { .. }
        | Call::Discard { .. }
        | Call::Ack { .. }
        | Call::Cancel { .. }
        | Call::ProxyTo { .. }
        | Call::ProxyCancel { .. }
        | Call::B2bRespond { .. }
        | Call::Link { .. }
        | Call::Unlink { .. }
        | Call::CancelTimer { .. }
        | Call::SetAttribute { .. }
        | Call::RemoveAttribute { .. }
        | Call::SetExpires { .. }
        | Call::SetReadyFlag { .. }
        | Call::InvalidateSession { .. }
        | Call::InvalidateApplication => CallAnswer::Fine,
    }
}

/// What a call answers.
#[tactic(auto, unfolding(sc_hosts::specs::Effects::answer_of, sc_hosts::specs::Effects::answer_by))]
pub fn answer_of(play: &Play, call: &Call) -> CallAnswer
    ensures { result ≡ answer_of play.now call.now }
{
    match refusal(play, call) {
        Some(refused) => CallAnswer::Refused(refused),
        None => accepted(play, call),
    }
}

// What a call leaves, accepted or refused, and what it answers.
#[tactic(auto, unfolding(sc_hosts::specs::Effects::played_by, sc_hosts::specs::Effects::answer_of, sc_hosts::specs::Effects::answer_by))]
fn played_by(alloc: Global, play: &mut Play, call: &Call) -> Result<CallAnswer, NoMemory>
    ensures play { OnOk result
        (play.new ≡ played_by play.old call.now (refusal play.old call.now)) }
    ensures answer { IfOk result (λ answer. answer ≡ answer_of play.old call.now) }
{
    match refusal(play, call) {
        Some(refused) => Ok(CallAnswer::Refused(refused)),
        None => {
            let answer = accepted(play, call);
            after_call(alloc, play, call)?;
            Ok(answer)
        }
    }
}

fn list_one(play: &mut Play) -> Result<(), NoMemory>
    ensures { OnOk result (play.new ≡ record play.old { listed = play.old.listed + 1 }) }
{
    let listed = sum_u32(play.listed, 1)?;
    play.listed = listed;
    Ok(())
}

/// Lists a call, accepted or refused, and gives its answer.
#[tactic(auto, unfolding(sc_hosts::specs::Effects::after_listed))]
pub fn after_listed(alloc: Global, play: &mut Play, call: &Call) -> Result<CallAnswer, NoMemory>
    ensures play { OnOk result (play.new ≡ after_listed play.old call.now) }
    ensures answer { IfOk result (λ answer. answer ≡ answer_of play.old call.now) }
{
    let answer = played_by(alloc, play, call)?;
    list_one(play)?;
    Ok(answer)
}

/// What a turn's calls are judged by as it begins.
#[tactic(auto, unfolding(sc_hosts::specs::Effects::first_play))]
pub fn begun(alloc: Global, view: View) -> Play
    ensures { result ≡ first_play view }
{
    Play {
        view,
        drafts: List::new(alloc),
        drafted: 0,
        listed: 0,
        ended: false,
    }
}

fn list_all(alloc: Global, play: &mut Play, made: &[CallRecord]) -> Result<(), NoMemory>
    ensures { OnOk result
        (play.new ≡ fold (λ play made. after_listed play made.call) play.old made.now) }
{
    for call in made {
        let _answer = after_listed(alloc, play, &call.call)?;
    }
    Ok(())
}

/// What the calls of a turn leave, in their order.
#[tactic(auto, unfolding(sc_hosts::specs::Effects::after_calls))]
pub fn after_calls(alloc: Global, view: View, made: &[CallRecord]) -> Result<Play, NoMemory>
    ensures { IfOk result (λ play. play ≡ after_calls view made.now) }
{
    let mut play = begun(alloc, view);
    list_all(alloc, &mut play, made)?;
    Ok(play)
}
