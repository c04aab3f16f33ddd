//! Calls on drafts, as a script makes them.

ghost use Rattle.std.specs.Prelude.{◌≡◌, ◌+◌, ◌<◌, IfOk, OnOk};
ghost use Rattle.sc_hosts.specs.RefusalParts.{MOST_CALLS};
ghost use Rattle.sc_turn.specs.Working.{play_of};
ghost use Rattle.sc_apps.specs.Scripted.{IsMade};

use crate::telling::told;
use sc_terms::{Ask, Call, CallAnswer, Inside};
use sc_turn::Turn;
use sc_value::{Directive, NoMemory, ReqId, SessId, Uri};

/// Makes an initial request of one's own.
#[tactic(auto, unfolding(sc_turn::specs::Working::Answers), using(crate::proofs::Playing::accepted_made, crate::proofs::Playing::accepted_listed, crate::proofs::Playing::accepted_same, crate::proofs::Playing::refused_made, crate::proofs::Playing::refused_listed, crate::proofs::Playing::refused_same))]
pub fn create_request(t: &mut Turn, ask: Ask) -> Result<CallAnswer, NoMemory>
    requires { (play_of t.old).listed < MOST_CALLS }
    ensures same { t.new.shown ≡ t.old.shown }
    ensures made { IfOk result (λ given. IsMade (Call.CreateRequest ask) t.old given t.new) }
    ensures listed { OnOk result ((play_of t.new).listed ≡ (play_of t.old).listed + 1) }
{
    match t.create_request(ask) {
        Ok(draft) => Ok(CallAnswer::Number(u64::from(draft))),
        Err(refused) => told(refused),
    }
}

/// Makes a request in the dialog of a SipSession.
#[tactic(auto, unfolding(sc_turn::specs::Working::Answers), using(crate::proofs::Playing::accepted_made, crate::proofs::Playing::accepted_listed, crate::proofs::Playing::accepted_same, crate::proofs::Playing::refused_made, crate::proofs::Playing::refused_listed, crate::proofs::Playing::refused_same))]
pub fn create_in_dialog(t: &mut Turn, sess: SessId, ask: Inside) -> Result<CallAnswer, NoMemory>
    requires { (play_of t.old).listed < MOST_CALLS }
    ensures same { t.new.shown ≡ t.old.shown }
    ensures made { IfOk result (λ given. IsMade (Call.CreateInDialog sess ask) t.old given t.new) }
    ensures listed { OnOk result ((play_of t.new).listed ≡ (play_of t.old).listed + 1) }
{
    match t.create_in_dialog(sess, ask) {
        Ok(draft) => Ok(CallAnswer::Number(u64::from(draft))),
        Err(refused) => told(refused),
    }
}

/// Makes the request of a second leg.
#[tactic(auto, unfolding(sc_turn::specs::Working::Answers), using(crate::proofs::Playing::accepted_made, crate::proofs::Playing::accepted_listed, crate::proofs::Playing::accepted_same, crate::proofs::Playing::refused_made, crate::proofs::Playing::refused_listed, crate::proofs::Playing::refused_same))]
pub fn b2b_create(t: &mut Turn, req: ReqId, uri: Option<Uri>) -> Result<CallAnswer, NoMemory>
    requires { (play_of t.old).listed < MOST_CALLS }
    ensures same { t.new.shown ≡ t.old.shown }
    ensures made { IfOk result (λ given. IsMade (Call.B2bCreate req uri) t.old given t.new) }
    ensures listed { OnOk result ((play_of t.new).listed ≡ (play_of t.old).listed + 1) }
{
    match t.b2b_create(req, uri) {
        Ok(draft) => Ok(CallAnswer::Number(u64::from(draft))),
        Err(refused) => told(refused),
    }
}

/// Says how the router goes on for a draft.
#[tactic(auto, unfolding(sc_turn::specs::Working::Answers), using(crate::proofs::Playing::accepted_made, crate::proofs::Playing::accepted_listed, crate::proofs::Playing::accepted_same, crate::proofs::Playing::refused_made, crate::proofs::Playing::refused_listed, crate::proofs::Playing::refused_same))]
pub fn set_directive(
    t: &mut Turn,
    draft: u32,
    directive: Directive,
    origin: Option<ReqId>,
) -> Result<CallAnswer, NoMemory>
    requires { (play_of t.old).listed < MOST_CALLS }
    ensures same { t.new.shown ≡ t.old.shown }
    ensures made { IfOk result
        (λ given. IsMade (Call.SetDirective draft directive origin) t.old given t.new) }
    ensures listed { OnOk result ((play_of t.new).listed ≡ (play_of t.old).listed + 1) }
{
    match t.set_directive(draft, directive, origin) {
        Ok(()) => Ok(CallAnswer::Fine),
        Err(refused) => told(refused),
    }
}

/// Sends a draft.
#[tactic(auto, unfolding(sc_turn::specs::Working::Answers), using(crate::proofs::Playing::accepted_made, crate::proofs::Playing::accepted_listed, crate::proofs::Playing::accepted_same, crate::proofs::Playing::refused_made, crate::proofs::Playing::refused_listed, crate::proofs::Playing::refused_same))]
pub fn send(t: &mut Turn, draft: u32) -> Result<CallAnswer, NoMemory>
    requires { (play_of t.old).listed < MOST_CALLS }
    ensures same { t.new.shown ≡ t.old.shown }
    ensures made { IfOk result (λ given. IsMade (Call.Send draft) t.old given t.new) }
    ensures listed { OnOk result ((play_of t.new).listed ≡ (play_of t.old).listed + 1) }
{
    match t.send(draft) {
        Ok(made) => Ok(CallAnswer::Number(u64::from(made.0))),
        Err(refused) => told(refused),
    }
}

/// The number of a draft, which is one of 32 bits.
pub fn draft_of(number: u64) -> Result<u32, NoMemory>
    ensures { IfOk result (λ draft. draft ≡ number) }
{
    match u32::try_from(number) {
        Ok(draft) => Ok(draft),
        Err(_) => Err(NoMemory),
    }
}
