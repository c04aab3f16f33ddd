//! Calls on the application session, as a script makes them.

ghost use Rattle.std.specs.Prelude.{◌≡◌, ◌+◌, ◌<◌, IfOk, OnOk};
ghost use Rattle.sc_hosts.specs.RefusalParts.{MOST_CALLS};
ghost use Rattle.sc_turn.specs.Working.{play_of};
ghost use Rattle.sc_apps.specs.Scripted.{IsMade};

use crate::telling::told;
use sc_terms::{Call, CallAnswer, Period};
use sc_turn::Turn;
use sc_value::{NoMemory, Text, TimerId};

/// Starts a timer.
#[tactic(auto, unfolding(sc_turn::specs::Working::Answers), using(crate::proofs::Playing::accepted_made, crate::proofs::Playing::accepted_listed, crate::proofs::Playing::accepted_same, crate::proofs::Playing::refused_made, crate::proofs::Playing::refused_listed, crate::proofs::Playing::refused_same))]
pub fn start_timer(
    t: &mut Turn,
    delay_ms: u32,
    period: Period,
    info: Text,
) -> Result<CallAnswer, NoMemory>
    requires { (play_of t.old).listed < MOST_CALLS }
    ensures same { t.new.shown ≡ t.old.shown }
    ensures made { IfOk result
        (λ given. IsMade (Call.StartTimer delay_ms period info) t.old given t.new) }
    ensures listed { OnOk result ((play_of t.new).listed ≡ (play_of t.old).listed + 1) }
{
    match t.start_timer(delay_ms, period, info) {
        Ok(made) => Ok(CallAnswer::Number(u64::from(made.0))),
        Err(refused) => told(refused),
    }
}

/// Ends a timer.
#[tactic(auto, unfolding(sc_turn::specs::Working::Answers), using(crate::proofs::Playing::accepted_made, crate::proofs::Playing::accepted_listed, crate::proofs::Playing::accepted_same, crate::proofs::Playing::refused_made, crate::proofs::Playing::refused_listed, crate::proofs::Playing::refused_same))]
pub fn cancel_timer(t: &mut Turn, id: TimerId) -> Result<CallAnswer, NoMemory>
    requires { (play_of t.old).listed < MOST_CALLS }
    ensures same { t.new.shown ≡ t.old.shown }
    ensures made { IfOk result (λ given. IsMade (Call.CancelTimer id) t.old given t.new) }
    ensures listed { OnOk result ((play_of t.new).listed ≡ (play_of t.old).listed + 1) }
{
    match t.cancel_timer(id) {
        Ok(()) => Ok(CallAnswer::Fine),
        Err(refused) => told(refused),
    }
}

/// Sets an attribute.
#[tactic(auto, unfolding(sc_turn::specs::Working::Answers), using(crate::proofs::Playing::accepted_made, crate::proofs::Playing::accepted_listed, crate::proofs::Playing::accepted_same, crate::proofs::Playing::refused_made, crate::proofs::Playing::refused_listed, crate::proofs::Playing::refused_same))]
pub fn set_attribute(t: &mut Turn, name: Text, value: Text) -> Result<CallAnswer, NoMemory>
    requires { (play_of t.old).listed < MOST_CALLS }
    ensures same { t.new.shown ≡ t.old.shown }
    ensures made { IfOk result (λ given. IsMade (Call.SetAttribute name value) t.old given t.new) }
    ensures listed { OnOk result ((play_of t.new).listed ≡ (play_of t.old).listed + 1) }
{
    match t.set_attribute(name, value) {
        Ok(()) => Ok(CallAnswer::Fine),
        Err(refused) => told(refused),
    }
}

/// Removes an attribute.
#[tactic(auto, unfolding(sc_turn::specs::Working::Answers), using(crate::proofs::Playing::accepted_made, crate::proofs::Playing::accepted_listed, crate::proofs::Playing::accepted_same, crate::proofs::Playing::refused_made, crate::proofs::Playing::refused_listed, crate::proofs::Playing::refused_same))]
pub fn remove_attribute(t: &mut Turn, name: Text) -> Result<CallAnswer, NoMemory>
    requires { (play_of t.old).listed < MOST_CALLS }
    ensures same { t.new.shown ≡ t.old.shown }
    ensures made { IfOk result (λ given. IsMade (Call.RemoveAttribute name) t.old given t.new) }
    ensures listed { OnOk result ((play_of t.new).listed ≡ (play_of t.old).listed + 1) }
{
    match t.remove_attribute(name) {
        Ok(()) => Ok(CallAnswer::Fine),
        Err(refused) => told(refused),
    }
}

/// Lets the application session expire so many minutes after this turn.
#[tactic(auto, unfolding(sc_turn::specs::Working::Answers), using(crate::proofs::Playing::accepted_made, crate::proofs::Playing::accepted_listed, crate::proofs::Playing::accepted_same, crate::proofs::Playing::refused_made, crate::proofs::Playing::refused_listed, crate::proofs::Playing::refused_same))]
pub fn set_expires(t: &mut Turn, minutes: i32) -> Result<CallAnswer, NoMemory>
    requires { (play_of t.old).listed < MOST_CALLS }
    ensures same { t.new.shown ≡ t.old.shown }
    ensures made { IfOk result (λ given. IsMade (Call.SetExpires minutes) t.old given t.new) }
    ensures listed { OnOk result ((play_of t.new).listed ≡ (play_of t.old).listed + 1) }
{
    match t.set_expires(minutes) {
        Ok(()) => Ok(CallAnswer::Fine),
        Err(refused) => told(refused),
    }
}

/// Ends the application session.
#[tactic(auto, unfolding(sc_turn::specs::Working::Answers), using(crate::proofs::Playing::accepted_made, crate::proofs::Playing::accepted_listed, crate::proofs::Playing::accepted_same, crate::proofs::Playing::refused_made, crate::proofs::Playing::refused_listed, crate::proofs::Playing::refused_same))]
pub fn invalidate_application(t: &mut Turn) -> Result<CallAnswer, NoMemory>
    requires { (play_of t.old).listed < MOST_CALLS }
    ensures same { t.new.shown ≡ t.old.shown }
    ensures made { IfOk result (λ given. IsMade Call.InvalidateApplication t.old given t.new) }
    ensures listed { OnOk result ((play_of t.new).listed ≡ (play_of t.old).listed + 1) }
{
    match t.invalidate_application() {
        Ok(()) => Ok(CallAnswer::Fine),
        Err(refused) => told(refused),
    }
}
