//! Reliable provisional responses to an INVITE (RFC 3262 section 3).

ghost use Rattle.std.specs.Prelude.{◌≡◌, ◌∷◌, ◌+◌, ◌<◌, [], false, codes, decimal, IfOk};
ghost use Rattle.sc_terms.specs.declared.views.Period.TheVariants.{Once};
ghost use Rattle.sc_hosts.specs.HelperParts.{accepted_then, field, require_word};
ghost use Rattle.sc_hosts.specs.Offers.{offer_text, rel_name, rel_option};
ghost use Rattle.sc_hosts.specs.Scripting.{Make, only, with_number};
ghost use Rattle.sc_turn.specs.Working.{play_of};
ghost use Rattle.sc_helpers.specs.Stopping.{Gives, Goes, Leads};
ghost use Rattle.sc_promised.specs.Reliable.{offer_answer, offers};
ghost use Rattle.sc_offers.specs.Offering.{IsCarriedOut, IsOffered, offer_rseq};

use crate::offer_texts::{offer_text, rel_name};
use crate::refused::{OfferRefused, turned};
use crate::rseqs::offer_rseq;
use sc_apps::memory_of;
use sc_helpers::{
    Stopped, field, number_field, try_respond, try_set_attribute, try_start_timer, two, wanting,
};
use sc_terms::{Answer, Call};
use sc_turn::Turn;
use sc_value::{Field, List, NoMemory, ReqId, Request, Text};
use std::alloc::Global;

#[tactic(auto, unfolding(sc_hosts::specs::HelperParts::require_word, sc_hosts::specs::Offers::rel_option))]
fn require_rel(alloc: Global) -> Result<Field, NoMemory>
    ensures { IfOk result (λ made. made ≡ field require_word rel_option) }
{
    field(alloc, b"Require", b"100rel")
}

fn before_rseq(alloc: Global, require: Field, rseq: u64) -> Result<List<Field>, NoMemory>
    ensures { IfOk result (λ fields. fields ≡ require ∷ field (codes "RSeq") (decimal rseq) ∷ []) }
{
    let rseq = number_field(alloc, b"RSeq", rseq)?;
    two(alloc, require, rseq)
}

fn offer_fields(alloc: Global, rseq: u64) -> Result<List<Field>, NoMemory>
    ensures { IfOk result
        (λ fields.
        fields ≡ field require_word rel_option ∷ field (codes "RSeq") (decimal rseq) ∷ []) }
{
    let require = require_rel(alloc)?;
    before_rseq(alloc, require, rseq)
}

#[tactic(auto, unfolding(sc_promised::specs::Reliable::offer_answer))]
fn offer_answer(
    alloc: Global,
    rseq: u64,
    code: u16,
    reason: Text,
    body: Text,
) -> Result<Answer, NoMemory>
    ensures { IfOk result (λ answer. answer ≡ offer_answer rseq code reason body) }
{
    match offer_fields(alloc, rseq) {
        Ok(fields) => Ok(Answer {
            code,
            reason,
            fields,
            contact: List::new(alloc),
            body,
        }),
        Err(NoMemory) => Err(NoMemory),
    }
}

#[tactic(auto, using(sc_helpers::proofs::Steps::led_wanting))]
fn respond_offer(
    turn: &mut Turn,
    req: ReqId,
    rseq: u64,
    code: u16,
    reason: Text,
    body: Text,
) -> Result<u8, Stopped>
    ensures same { turn.new.shown ≡ turn.old.shown }
    ensures led { Leads (accepted_then (Call.Respond req (offer_answer rseq code reason body))) 0
        turn.old result turn.new }
    ensures count { IfOk result (λ after. after ≡ 1) }
{
    match offer_answer(memory_of(turn), rseq, code, reason, body) {
        Ok(answer) => try_respond(turn, 0, req, answer),
        Err(NoMemory) => Err(wanting(0)),
    }
}

fn noted_offer(
    alloc: Global,
    number: u64,
    rseq: u64,
    cseq: u32,
    timer: u64,
) -> Result<(Text, Text), NoMemory>
    ensures { IfOk result
        (λ texts. (texts.0 ≡ rel_name number) × (texts.1 ≡ offer_text rseq cseq timer)) }
{
    let name = rel_name(alloc, number)?;
    let value = offer_text(alloc, rseq, u64::from(cseq), timer)?;
    Ok((name, value))
}

#[tactic(auto, using(sc_helpers::proofs::Steps::led_wanting))]
fn note_offer(
    turn: &mut Turn,
    made: u8,
    req: ReqId,
    rseq: u64,
    cseq: u32,
    timer: u64,
) -> Result<u8, Stopped>
    requires few { made < 100 }
    ensures same { turn.new.shown ≡ turn.old.shown }
    ensures led { Leads
        (accepted_then (Call.SetAttribute (rel_name req.0) (offer_text rseq cseq timer))) made
        turn.old result turn.new }
    ensures count { IfOk result (λ after. after ≡ made + 1) }
{
    match noted_offer(memory_of(turn), u64::from(req.0), rseq, cseq, timer) {
        Ok((name, value)) => try_set_attribute(turn, made, name, value),
        Err(NoMemory) => Err(wanting(made)),
    }
}

/// Makes the offer of this RSeq to an INVITE: the response, a note of it, and a timer of 32
/// seconds.
#[tactic(auto, unfolding(sc_promised::specs::Reliable::offers), using(sc_helpers::proofs::Steps::accepted_on, sc_helpers::proofs::Steps::accepted_off))]
pub fn give_offer(
    turn: &mut Turn,
    req: ReqId,
    rseq: u64,
    cseq: u32,
    code: u16,
    reason: Text,
    body: Text,
) -> Result<(), Stopped>
    ensures same { turn.new.shown ≡ turn.old.shown }
    ensures goes { Goes 0 (offers req rseq cseq code reason body) turn.old result turn.new }
{
    match respond_offer(turn, req, rseq, code, reason, body) {
        Ok(_) => note_and_time(turn, req, rseq, cseq),
        Err(stop) => Err(stop),
    }
}

#[tactic(auto, using(sc_helpers::proofs::Steps::accepted_on, sc_helpers::proofs::Steps::accepted_off))]
fn note_and_time(turn: &mut Turn, req: ReqId, rseq: u64, cseq: u32) -> Result<(), Stopped>
    ensures same { turn.new.shown ≡ turn.old.shown }
    ensures goes { Goes 1
        (accepted_then (Call.SetAttribute (rel_name req.0) (offer_text rseq cseq 0))
        (Make (Call.StartTimer 32000 Once (rel_name req.0))
        (with_number
        (λ t. only (Call.SetAttribute (rel_name req.0) (offer_text rseq cseq t)))))) turn.old
        result turn.new }
{
    match note_offer(turn, 1, req, rseq, cseq, 0) {
        Ok(_) => time_offer(turn, req, rseq, cseq),
        Err(stop) => Err(stop),
    }
}

#[tactic(auto, using(sc_helpers::proofs::Steps::given_wanting))]
fn start_offer(turn: &mut Turn, req: ReqId) -> Result<u64, Stopped>
    ensures same { turn.new.shown ≡ turn.old.shown }
    ensures given { Gives (Call.StartTimer 32000 Once (rel_name req.0)) 2 turn.old result turn.new }
{
    match rel_name(memory_of(turn), u64::from(req.0)) {
        Ok(name) => try_start_timer(turn, 2, 32_000, name),
        Err(NoMemory) => Err(wanting(2)),
    }
}

#[tactic(auto, using(sc_helpers::proofs::Steps::number_on, sc_helpers::proofs::Steps::number_off))]
fn time_offer(turn: &mut Turn, req: ReqId, rseq: u64, cseq: u32) -> Result<(), Stopped>
    ensures same { turn.new.shown ≡ turn.old.shown }
    ensures goes { Goes 2
        (Make (Call.StartTimer 32000 Once (rel_name req.0))
        (with_number (λ t. only (Call.SetAttribute (rel_name req.0) (offer_text rseq cseq t)))))
        turn.old result turn.new }
{
    match start_offer(turn, req) {
        Ok(timer) => note_last(turn, req, rseq, cseq, timer),
        Err(stop) => Err(stop),
    }
}

#[tactic(auto, using(sc_helpers::proofs::Steps::last_on, sc_helpers::proofs::Steps::last_off))]
fn note_last(turn: &mut Turn, req: ReqId, rseq: u64, cseq: u32, timer: u64) -> Result<(), Stopped>
    ensures same { turn.new.shown ≡ turn.old.shown }
    ensures goes { Goes 3 (only (Call.SetAttribute (rel_name req.0) (offer_text rseq cseq timer)))
        turn.old result turn.new }
{
    match note_offer(turn, 3, req, rseq, cseq, timer) {
        Ok(_) => Ok(()),
        Err(stop) => Err(stop),
    }
}

#[tactic(auto, using(crate::proofs::CallLaws::went_through, crate::proofs::CallLaws::came_to_stop))]
fn offer_as(
    turn: &mut Turn,
    req: ReqId,
    rseq: u64,
    cseq: u32,
    code: u16,
    reason: Text,
    body: Text,
) -> Result<u64, OfferRefused>
    ensures same { turn.new.shown ≡ turn.old.shown }
    ensures carried { IsCarriedOut (offers req rseq cseq code reason body) rseq turn.old result
        turn.new }
{
    match give_offer(turn, req, rseq, cseq, code, reason, body) {
        Ok(()) => Ok(rseq),
        Err(stop) => Err(turned(stop)),
    }
}

#[tactic(auto, unfolding(crate::specs::Offering::IsOffered), using(crate::proofs::CallLaws::offer_refused))]
fn offer_by(
    turn: &mut Turn,
    judged: Result<u64, OfferRefused>,
    req: ReqId,
    cseq: u32,
    code: u16,
    reason: Text,
    body: Text,
) -> Result<u64, OfferRefused>
    ensures same { turn.new.shown ≡ turn.old.shown }
    ensures offered { IsOffered judged req cseq code reason body turn.old result turn.new }
{
    match judged {
        Ok(rseq) => offer_as(turn, req, rseq, cseq, code, reason, body),
        Err(refused) => Err(refused),
    }
}

/// Offers a reliable provisional response to an INVITE (RFC 3262 section 3). Gives its RSeq: 1 for
/// the first one to this INVITE, else one more than the last.
///
/// `req` is the received INVITE's number, and `request` the INVITE itself; `code` is 101 to 199. It
/// makes these calls, each where the one before was accepted: `respond` with that code, reason and
/// body and the headers `Require: 100rel` and `RSeq`; `set_attribute` of `rel` with the INVITE's
/// number to `P RSEQ CSEQ 0`, where CSEQ is the number in the INVITE's CSeq; `start_timer` of
/// 32,000 milliseconds whose information is that attribute's name; and `set_attribute` of the same
/// with the timer's number in place of 0. It needs no turn of its own: other calls may stand before
/// and behind it. The response isn't sent again before its PRACK comes, as all transport is
/// reliable.
///
/// # Errors
///
/// The first of these that holds:
/// - `Unsupported`: no Supported or Require header of the INVITE has `100rel`.
/// - `Pending`: the last offer waits for its PRACK.
/// - `Exhausted`: the last offer has the RSeq 2,147,483,647.
/// - `Turn`: the turn refuses one of the calls, and the ones before it were accepted. None is made
///   behind it. What the accepted ones did stays: after the first the response is sent.
///
/// The first three make no call. For want of memory it is `Turn` with `NoMemory`; where a call of
/// this turn wanted memory before, the turn is over, and nothing is said.
#[tactic(auto, using(crate::proofs::CallLaws::offer_judged, crate::proofs::CallLaws::offer_wanting))]
pub fn offer(
    turn: &mut Turn,
    req: ReqId,
    request: &Request,
    code: u16,
    reason: Text,
    body: Text,
) -> Result<u64, OfferRefused>
    ensures same { turn.new.shown ≡ turn.old.shown }
    ensures offered { turn.old.starved ≡ false
        → IsOffered (offer_rseq (play_of turn.old).view req request.now) req
        request.now.head.cseq.number code reason body turn.old result turn.new }
{
    match offer_rseq(memory_of(turn), turn.view(), req, request) {
        Ok(judged) => offer_by(
            turn,
            judged,
            req,
            request.head.cseq.number,
            code,
            reason,
            body,
        ),
        Err(NoMemory) => Err(turned(wanting(0))),
    }
}
