//! Calls on requests, as a script makes them: what each answers is told, refused or not.

ghost use Rattle.std.specs.Prelude.{◌≡◌, ◌+◌, ◌<◌, IfOk, OnOk};
ghost use Rattle.sc_hosts.specs.RefusalParts.{MOST_CALLS};
ghost use Rattle.sc_turn.specs.Working.{play_of};
ghost use Rattle.sc_apps.specs.Scripted.{IsMade};

use crate::telling::told;
use sc_terms::{Answer, Call, CallAnswer, ProxyOptions};
use sc_turn::Turn;
use sc_value::{List, NoMemory, ReqId, SessId, Text, Uri};

/// Answers a received request.
#[tactic(auto, unfolding(sc_turn::specs::Working::Answers), using(crate::proofs::Playing::accepted_made, crate::proofs::Playing::accepted_listed, crate::proofs::Playing::accepted_same, crate::proofs::Playing::refused_made, crate::proofs::Playing::refused_listed, crate::proofs::Playing::refused_same))]
pub fn respond(t: &mut Turn, req: ReqId, answer: Answer) -> Result<CallAnswer, NoMemory>
    requires { (play_of t.old).listed < MOST_CALLS }
    ensures same { t.new.shown ≡ t.old.shown }
    ensures made { IfOk result (λ given. IsMade (Call.Respond req answer) t.old given t.new) }
    ensures listed { OnOk result ((play_of t.new).listed ≡ (play_of t.old).listed + 1) }
{
    match t.respond(req, answer) {
        Ok(()) => Ok(CallAnswer::Fine),
        Err(refused) => told(refused),
    }
}

/// Answers the received request that began this linked SipSession.
#[tactic(auto, unfolding(sc_turn::specs::Working::Answers), using(crate::proofs::Playing::accepted_made, crate::proofs::Playing::accepted_listed, crate::proofs::Playing::accepted_same, crate::proofs::Playing::refused_made, crate::proofs::Playing::refused_listed, crate::proofs::Playing::refused_same))]
pub fn b2b_respond(t: &mut Turn, sess: SessId, answer: Answer) -> Result<CallAnswer, NoMemory>
    requires { (play_of t.old).listed < MOST_CALLS }
    ensures same { t.new.shown ≡ t.old.shown }
    ensures made { IfOk result (λ given. IsMade (Call.B2bRespond sess answer) t.old given t.new) }
    ensures listed { OnOk result ((play_of t.new).listed ≡ (play_of t.old).listed + 1) }
{
    match t.b2b_respond(sess, answer) {
        Ok(()) => Ok(CallAnswer::Fine),
        Err(refused) => told(refused),
    }
}

/// Acknowledges the 2xx that came in this SipSession.
#[tactic(auto, unfolding(sc_turn::specs::Working::Answers), using(crate::proofs::Playing::accepted_made, crate::proofs::Playing::accepted_listed, crate::proofs::Playing::accepted_same, crate::proofs::Playing::refused_made, crate::proofs::Playing::refused_listed, crate::proofs::Playing::refused_same))]
pub fn ack(t: &mut Turn, sess: SessId, body: Text) -> Result<CallAnswer, NoMemory>
    requires { (play_of t.old).listed < MOST_CALLS }
    ensures same { t.new.shown ≡ t.old.shown }
    ensures made { IfOk result (λ given. IsMade (Call.Ack sess body) t.old given t.new) }
    ensures listed { OnOk result ((play_of t.new).listed ≡ (play_of t.old).listed + 1) }
{
    match t.ack(sess, body) {
        Ok(()) => Ok(CallAnswer::Fine),
        Err(refused) => told(refused),
    }
}

/// Cancels a sent INVITE.
#[tactic(auto, unfolding(sc_turn::specs::Working::Answers), using(crate::proofs::Playing::accepted_made, crate::proofs::Playing::accepted_listed, crate::proofs::Playing::accepted_same, crate::proofs::Playing::refused_made, crate::proofs::Playing::refused_listed, crate::proofs::Playing::refused_same))]
pub fn cancel(t: &mut Turn, req: ReqId) -> Result<CallAnswer, NoMemory>
    requires { (play_of t.old).listed < MOST_CALLS }
    ensures same { t.new.shown ≡ t.old.shown }
    ensures made { IfOk result (λ given. IsMade (Call.Cancel req) t.old given t.new) }
    ensures listed { OnOk result ((play_of t.new).listed ≡ (play_of t.old).listed + 1) }
{
    match t.cancel(req) {
        Ok(()) => Ok(CallAnswer::Fine),
        Err(refused) => told(refused),
    }
}

/// Proxies a received request to these targets.
#[tactic(auto, unfolding(sc_turn::specs::Working::Answers), using(crate::proofs::Playing::accepted_made, crate::proofs::Playing::accepted_listed, crate::proofs::Playing::accepted_same, crate::proofs::Playing::refused_made, crate::proofs::Playing::refused_listed, crate::proofs::Playing::refused_same))]
pub fn proxy_to(
    t: &mut Turn,
    req: ReqId,
    targets: List<Uri>,
    options: ProxyOptions,
) -> Result<CallAnswer, NoMemory>
    requires { (play_of t.old).listed < MOST_CALLS }
    ensures same { t.new.shown ≡ t.old.shown }
    ensures made { IfOk result
        (λ given. IsMade (Call.ProxyTo req targets options) t.old given t.new) }
    ensures listed { OnOk result ((play_of t.new).listed ≡ (play_of t.old).listed + 1) }
{
    match t.proxy_to(req, targets, options) {
        Ok(()) => Ok(CallAnswer::Fine),
        Err(refused) => told(refused),
    }
}
