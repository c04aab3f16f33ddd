//! Making a call.

ghost use Rattle.std.specs.Prelude.{◌≡◌, ◌∷◌, [], ◌++◌, ◌<◌, OnOk, OnErr, IfOk, vec_len, vec_capacity};
ghost use Rattle.sc_hosts.specs.Effects.{after_listed, answer_of};
ghost use Rattle.sc_turn.specs.Working.{record_of};

use sc_effects::after_listed;
use sc_state::Play;
use sc_terms::{Call, CallAnswer, CallRecord};
use sc_value::NoMemory;
use std::alloc::Global;

/// Lets go of a call.
pub fn let_go(call: Call) {
    drop(call);
}

// The first two calls take room for themselves alone, as few turns make more, and a call is large.
fn make_room(calls: &mut Vec<CallRecord>) -> Result<(), NoMemory>
    ensures items { calls.new.items ≡ calls.old.items }
    ensures ok { OnOk result (vec_len calls.new < vec_capacity calls.new) }
{
    if calls.len() < 2 {
        calls.reserve_exact(1)?;
        return Ok(());
    }
    calls.reserve(1)?;
    Ok(())
}

/// Puts a call with its answer at the end of the list, and takes its effect. For want of memory the
/// list is as it was.
pub fn list_call(
    alloc: Global,
    play: &mut Play,
    calls: &mut Vec<CallRecord>,
    call: Call,
) -> Result<CallAnswer, NoMemory>
    ensures play { OnOk result (play.new ≡ after_listed play.old call) }
    ensures calls { OnOk result
        (calls.new.items ≡ calls.old.items ++ record_of play.old call ∷ []) }
    ensures answer { IfOk result (λ answer. answer ≡ answer_of play.old call) }
    ensures same { OnErr result (calls.new.items ≡ calls.old.items) }
{
    match make_room(calls) {
        Ok(()) => put_call(alloc, play, calls, call),
        Err(NoMemory) => {
            let_go(call);
            Err(NoMemory)
        }
    }
}

#[tactic(auto, unfolding(crate::specs::Working::record_of))]
fn put_call(
    alloc: Global,
    play: &mut Play,
    calls: &mut Vec<CallRecord>,
    call: Call,
) -> Result<CallAnswer, NoMemory>
    requires { vec_len calls.old < vec_capacity calls.old }
    ensures play { OnOk result (play.new ≡ after_listed play.old call) }
    ensures calls { OnOk result
        (calls.new.items ≡ calls.old.items ++ record_of play.old call ∷ []) }
    ensures answer { IfOk result (λ answer. answer ≡ answer_of play.old call) }
    ensures same { OnErr result (calls.new.items ≡ calls.old.items) }
{
    match after_listed(alloc, play, &call) {
        Ok(answer) => {
            calls.push_reserved(CallRecord { call, answer });
            Ok(answer)
        }
        Err(NoMemory) => {
            let_go(call);
            Err(NoMemory)
        }
    }
}
