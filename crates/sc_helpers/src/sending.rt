//! Requests that a helper sends in a dialog, and attributes that it takes away, one call after
//! another.

ghost use Rattle.std.specs.Prelude.{◌≡◌, ◌≤◌, ◌+◌, ◌<◌, IfOk};
ghost use Rattle.sc_hosts.specs.HelperParts.{accepted_then, send_in};
ghost use Rattle.sc_helpers.specs.Leading.{remove_if};
ghost use Rattle.sc_helpers.specs.Stopping.{Gives, Leads};

use crate::making::inside_of;
use crate::stopping::{Stopped, counted, wanting};
use sc_apps::memory_of;
use sc_terms::{Call, Inside};
use sc_turn::Turn;
use sc_value::{Field, List, NoMemory, SessId, Text};

/// Removes an attribute, behind so many accepted calls.
#[tactic(auto, using(crate::proofs::Steps::led_called, crate::proofs::Steps::called_same, crate::proofs::Steps::counted_one))]
pub fn try_remove_attribute(turn: &mut Turn, made: u8, name: Text) -> Result<u8, Stopped>
    requires few { made < 100 }
    ensures same { turn.new.shown ≡ turn.old.shown }
    ensures led { Leads (accepted_then (Call.RemoveAttribute name)) made turn.old result turn.new }
    ensures count { IfOk result (λ after. after ≡ made + 1) }
{
    let told = turn.remove_attribute(name);
    counted(made, told)
}

#[tactic(auto, using(crate::proofs::Steps::led_wanting))]
fn try_remove(turn: &mut Turn, made: u8, name: &[u8]) -> Result<u8, Stopped>
    requires few { made < 100 }
    ensures same { turn.new.shown ≡ turn.old.shown }
    ensures led { Leads (accepted_then (Call.RemoveAttribute name.now)) made turn.old result
        turn.new }
    ensures count { IfOk result (λ after. after ≡ made + 1) }
{
    match Text::from_slice(memory_of(turn), name) {
        Ok(name) => try_remove_attribute(turn, made, name),
        Err(NoMemory) => Err(wanting(made)),
    }
}

/// Removes an attribute that is set, behind so many accepted calls.
#[tactic(auto, using(crate::proofs::Steps::led_unset, crate::proofs::Steps::led_removed))]
pub fn try_remove_if(turn: &mut Turn, made: u8, set: bool, name: &[u8]) -> Result<u8, Stopped>
    requires few { made < 100 }
    ensures same { turn.new.shown ≡ turn.old.shown }
    ensures led { Leads (remove_if set name.now) made turn.old result turn.new }
    ensures count { IfOk result (λ after. after ≤ made + 1) }
{
    if set {
        return try_remove(turn, made, name);
    }
    Ok(made)
}

#[tactic(auto, unfolding(sc_turn::specs::Working::Answers), using(crate::proofs::Steps::given_number, crate::proofs::Steps::given_refused, crate::proofs::Steps::accepted_same, crate::proofs::Steps::refused_same))]
fn try_create_asked(turn: &mut Turn, made: u8, sess: SessId, ask: Inside) -> Result<u32, Stopped>
    ensures same { turn.new.shown ≡ turn.old.shown }
    ensures given { Gives (Call.CreateInDialog sess ask) made turn.old result turn.new }
{
    match turn.create_in_dialog(sess, ask) {
        Ok(draft) => Ok(draft),
        Err(refusal) => Err(Stopped { refusal, made }),
    }
}

#[tactic(auto, using(crate::proofs::Steps::given_wanting))]
fn try_create(
    turn: &mut Turn,
    made: u8,
    sess: SessId,
    method: &[u8],
    fields: List<Field>,
    body: &[u8],
) -> Result<u32, Stopped>
    ensures same { turn.new.shown ≡ turn.old.shown }
    ensures given { Gives
        (Call.CreateInDialog sess
        (record { method = method.now; fields = fields; body = body.now })) made turn.old result
        turn.new }
{
    match inside_of(memory_of(turn), method, fields, body) {
        Ok(ask) => try_create_asked(turn, made, sess, ask),
        Err(NoMemory) => Err(wanting(made)),
    }
}

#[tactic(auto, unfolding(sc_turn::specs::Working::Answers), using(crate::proofs::Steps::led_number, crate::proofs::Steps::led_refused, crate::proofs::Steps::accepted_same, crate::proofs::Steps::refused_same))]
fn try_send(turn: &mut Turn, made: u8, draft: u32) -> Result<u8, Stopped>
    requires few { made < 100 }
    ensures same { turn.new.shown ≡ turn.old.shown }
    ensures led { Leads (accepted_then (Call.Send draft)) made turn.old result turn.new }
    ensures count { IfOk result (λ after. after ≡ made + 1) }
{
    match turn.send(draft) {
        Ok(_) => Ok(made + 1),
        Err(refusal) => Err(Stopped { refusal, made }),
    }
}

/// Makes a request in the dialog of a SipSession and sends it, behind so many accepted calls.
#[tactic(auto, using(crate::proofs::Steps::sent_both, crate::proofs::Steps::sent_none))]
pub fn try_send_in(
    turn: &mut Turn,
    made: u8,
    sess: SessId,
    method: &[u8],
    fields: List<Field>,
    body: &[u8],
) -> Result<u8, Stopped>
    requires few { made < 90 }
    ensures same { turn.new.shown ≡ turn.old.shown }
    ensures led { Leads (send_in sess method.now fields body.now) made turn.old result turn.new }
    ensures count { IfOk result (λ after. after ≡ made + 2) }
{
    match try_create(turn, made, sess, method, fields, body) {
        Ok(draft) => try_send(turn, made + 1, draft),
        Err(stop) => Err(stop),
    }
}
