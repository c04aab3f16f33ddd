//! The calls of a helper one after another: each tells how many were accepted with it, or where
//! they stopped.

ghost use Rattle.std.specs.Prelude.{◌≡◌, ◌≤◌, ◌+◌, ◌<◌, IfOk};
ghost use Rattle.sc_hosts.specs.HelperParts.{accepted_then};
ghost use Rattle.sc_helpers.specs.Leading.{cancel_some};
ghost use Rattle.sc_helpers.specs.Stopping.{Gives, Leads};

use crate::stopping::{Stopped, counted};
use sc_terms::{Answer, Call, Period};
use sc_turn::Turn;
use sc_value::{ReqId, Text, TimerId};

/// Answers a request, behind so many accepted calls.
#[tactic(auto, using(crate::proofs::Steps::led_called, crate::proofs::Steps::called_same, crate::proofs::Steps::counted_one))]
pub fn try_respond(turn: &mut Turn, made: u8, req: ReqId, answer: Answer) -> Result<u8, Stopped>
    requires few { made < 100 }
    ensures same { turn.new.shown ≡ turn.old.shown }
    ensures led { Leads (accepted_then (Call.Respond req answer)) made turn.old result turn.new }
    ensures count { IfOk result (λ after. after ≡ made + 1) }
{
    let told = turn.respond(req, answer);
    counted(made, told)
}

/// Sets an attribute, behind so many accepted calls.
#[tactic(auto, using(crate::proofs::Steps::led_called, crate::proofs::Steps::called_same, crate::proofs::Steps::counted_one))]
pub fn try_set_attribute(turn: &mut Turn, made: u8, name: Text, value: Text) -> Result<u8, Stopped>
    requires few { made < 100 }
    ensures same { turn.new.shown ≡ turn.old.shown }
    ensures led { Leads (accepted_then (Call.SetAttribute name value)) made turn.old result
        turn.new }
    ensures count { IfOk result (λ after. after ≡ made + 1) }
{
    let told = turn.set_attribute(name, value);
    counted(made, told)
}

#[tactic(auto, using(crate::proofs::Steps::led_called, crate::proofs::Steps::called_same, crate::proofs::Steps::counted_one))]
fn try_cancel_timer(turn: &mut Turn, made: u8, id: TimerId) -> Result<u8, Stopped>
    requires few { made < 100 }
    ensures same { turn.new.shown ≡ turn.old.shown }
    ensures led { Leads (accepted_then (Call.CancelTimer id)) made turn.old result turn.new }
    ensures count { IfOk result (λ after. after ≡ made + 1) }
{
    let told = turn.cancel_timer(id);
    counted(made, told)
}

/// Ends a timer where there is one, behind so many accepted calls.
#[tactic(auto, using(crate::proofs::Steps::led_uncancelled, crate::proofs::Steps::led_cancelled))]
pub fn try_cancel_some(turn: &mut Turn, made: u8, id: Option<TimerId>) -> Result<u8, Stopped>
    requires few { made < 100 }
    ensures same { turn.new.shown ≡ turn.old.shown }
    ensures led { Leads (cancel_some id) made turn.old result turn.new }
    ensures count { IfOk result (λ after. after ≤ made + 1) }
{
    match id {
        Some(id) => try_cancel_timer(turn, made, id),
        None => Ok(made),
    }
}

/// Starts a timer that fires once, behind so many accepted calls. Gives its number.
#[tactic(auto, unfolding(sc_turn::specs::Working::Answers), using(crate::proofs::Steps::given_number, crate::proofs::Steps::given_refused, crate::proofs::Steps::accepted_same, crate::proofs::Steps::refused_same))]
pub fn try_start_timer(turn: &mut Turn, made: u8, delay_ms: u32, info: Text) -> Result<u64, Stopped>
    ensures same { turn.new.shown ≡ turn.old.shown }
    ensures given { Gives (Call.StartTimer delay_ms Period.Once info) made turn.old result
        turn.new }
{
    match turn.start_timer(delay_ms, Period::Once, info) {
        Ok(id) => Ok(u64::from(id.0)),
        Err(refusal) => Err(Stopped { refusal, made }),
    }
}
