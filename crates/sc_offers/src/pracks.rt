//! PRACKs, and the offers that they acknowledge (RFC 3262 sections 3 and 7.2).

ghost use Rattle.std.specs.Prelude.{◌≡◌, Some, codes, false, option_map, IfOk};
ghost use Rattle.std.specs.List.{find};
ghost use Rattle.sc_hosts.specs.HelperParts.{accepted_then, field_of};
ghost use Rattle.sc_hosts.specs.Offers.{ended_offer_text, is_invite_of, names_offer, rel_name};
ghost use Rattle.sc_hosts.specs.Scripting.{Done, only, reply};
ghost use Rattle.sc_hosts.specs.Words.{does_not_exist};
ghost use Rattle.sc_turn.specs.Working.{play_of};
ghost use Rattle.sc_helpers.specs.Leading.{cancel_some};
ghost use Rattle.sc_helpers.specs.Stopping.{Goes, IsCarried};
ghost use Rattle.sc_offers.specs.Offering.{IsCarriedOut, acknowledges, named_by, named_offer, prack_answer, prack_calls};

use crate::offer_texts::{Waiting, is_number};
use crate::pending::{note_ended, pending_offer};
use crate::refused::{OfferRefused, Prack, turned};
use crate::words::three_words;
use sc_apps::memory_of;
use sc_helpers::{Stopped, field_of, timer_named, try_cancel_some, try_reply, wanting};
use sc_methods::is_invite;
use sc_pages::{Probe, Scope};
use sc_terms::{Call, RequestView, View};
use sc_turn::Turn;
use sc_value::{NoMemory, ReqId, Request, SessId, TimerId};
use std::alloc::Global;

/// An offer that a PRACK names.
#[derive(Drop)]
pub struct Named {
    /// The offer.
    pub offer: Waiting,
    /// Its timer, where that runs.
    pub running: Option<TimerId>,
}

#[tactic(auto, unfolding(sc_hosts::specs::Offers::is_invite_of))]
fn is_invite_of(request: &RequestView, sess: SessId) -> bool
    ensures { result ≡ is_invite_of sess request.now }
{
    request.received
        && request.initial
        && is_invite(request.method.as_bytes())
        && request.sess.0 == sess.0
}

// Whether a request is the INVITE that began this SipSession.
#[derive(Clone, Copy)]
struct InviteOf {
    sess: SessId,
}

impl Probe<RequestView> for InviteOf {
    ghost passes = { λ p. is_invite_of p.sess };

    fn passes(&self, request: &RequestView) -> bool {
        is_invite_of(request, self.sess)
    }
}

/// The first received INVITE that began this SipSession; None exactly where none did. It takes no
/// memory.
#[tactic(auto, unfolding(sc_hosts::specs::Offers::is_invite_of), using(sc_terms::proofs::RestLaws::initial_busy))]
pub fn invite_of(view: &View, sess: SessId) -> Option<ReqId>
    ensures { result
        ≡ option_map (λ request. request.id) (find (is_invite_of sess) view.entry.now.requests) }
{
    match view.requests.find(Scope::Busy, &InviteOf { sess }) {
        Some(request) => Some(request.id),
        None => None,
    }
}

// Whether the value of a RAck is this RSeq, this CSeq number and INVITE.
#[tactic(auto, unfolding(sc_hosts::specs::Offers::names_offer), using(crate::proofs::RackLaws::rack_three, crate::proofs::RackLaws::rack_other))]
fn is_rack(offer: &Waiting, value: &[u8]) -> bool
    ensures { result ≡ names_offer offer.now (Some value.now) }
{
    match three_words(value) {
        Some((rseq, cseq, method)) => {
            is_number(rseq, offer.rseq) && is_number(cseq, offer.cseq) && is_invite(method)
        }
        None => false,
    }
}

/// Whether a PRACK's RAck names this offer.
#[tactic(auto, unfolding(sc_hosts::specs::Offers::names_offer))]
fn names_offer(offer: &Waiting, request: &Request) -> bool
    ensures { result ≡ names_offer offer.now (field_of (codes "RAck") request.now) }
{
    match field_of(request, b"RAck") {
        Some(value) => is_rack(offer, value.as_bytes()),
        None => false,
    }
}

#[tactic(auto, unfolding(crate::specs::Offering::named_by))]
fn named_by(view: &View, prack: &Request, offer: Option<Waiting>) -> Option<Named>
    ensures { result ≡ named_by view.entry.now prack.now offer }
{
    let offer = offer?;
    if !names_offer(&offer, prack) {
        return None;
    }
    let running = timer_named(view, offer.timer);
    Some(Named { offer, running })
}

#[tactic(auto, unfolding(crate::specs::Offering::named_offer))]
fn named_offer(
    alloc: Global,
    view: &View,
    invite: ReqId,
    prack: &Request,
) -> Result<Option<Named>, NoMemory>
    ensures { IfOk result (λ named. named ≡ named_offer view.entry.now invite prack.now) }
{
    let offer = pending_offer(alloc, view, u64::from(invite.0))?;
    Ok(named_by(view, prack, offer))
}

#[tactic(auto, unfolding(sc_hosts::specs::Words::does_not_exist), using(crate::proofs::CallLaws::only_through, crate::proofs::CallLaws::only_stopped))]
fn refuse(turn: &mut Turn, req: ReqId) -> Result<Prack, Stopped>
    ensures same { turn.new.shown ≡ turn.old.shown }
    ensures carried { IsCarried (only (reply req 481 does_not_exist)) Prack.NoMatch turn.old result
        turn.new }
{
    match try_reply(turn, 0, req, 481, b"Call/Transaction Does Not Exist") {
        Ok(_) => Ok(Prack::NoMatch),
        Err(stop) => Err(stop),
    }
}

#[tactic(auto, unfolding(crate::specs::Offering::acknowledges, sc_hosts::specs::Words::ok), using(sc_helpers::proofs::Steps::accepted_on, sc_helpers::proofs::Steps::accepted_off))]
fn acknowledge(turn: &mut Turn, invite: ReqId, req: ReqId, named: &Named) -> Result<(), Stopped>
    ensures same { turn.new.shown ≡ turn.old.shown }
    ensures goes { Goes 0 (acknowledges invite req named.now Done) turn.old result turn.new }
{
    match try_reply(turn, 0, req, 200, b"OK") {
        Ok(_) => note_acknowledged(turn, invite, named),
        Err(stop) => Err(stop),
    }
}

#[tactic(auto, using(sc_helpers::proofs::Steps::accepted_on, sc_helpers::proofs::Steps::accepted_off))]
fn note_acknowledged(turn: &mut Turn, invite: ReqId, named: &Named) -> Result<(), Stopped>
    ensures same { turn.new.shown ≡ turn.old.shown }
    ensures goes { Goes 1
        (accepted_then (Call.SetAttribute (rel_name invite.0) (ended_offer_text 65 named.now.offer))
        (cancel_some named.now.running Done)) turn.old result turn.new }
{
    match note_ended(turn, 1, u64::from(invite.0), b'A', &named.offer) {
        Ok(_) => stop_timer(turn, named.running),
        Err(stop) => Err(stop),
    }
}

#[tactic(auto, using(sc_helpers::proofs::Steps::cancelled_on, sc_helpers::proofs::Steps::cancelled_off, sc_helpers::proofs::Steps::goes_done))]
fn stop_timer(turn: &mut Turn, running: Option<TimerId>) -> Result<(), Stopped>
    ensures same { turn.new.shown ≡ turn.old.shown }
    ensures goes { Goes 2 (cancel_some running Done) turn.old result turn.new }
{
    match try_cancel_some(turn, 2, running) {
        Ok(_) => Ok(()),
        Err(stop) => Err(stop),
    }
}

#[tactic(auto, unfolding(crate::specs::Offering::prack_calls, crate::specs::Offering::prack_answer), using(sc_helpers::proofs::Steps::goes_carried, sc_helpers::proofs::Steps::goes_stopped))]
fn acknowledge_one(
    turn: &mut Turn,
    invite: ReqId,
    req: ReqId,
    named: &Named,
) -> Result<Prack, Stopped>
    ensures same { turn.new.shown ≡ turn.old.shown }
    ensures carried { IsCarried (prack_calls invite req (Some named.now))
        (prack_answer (Some named.now)) turn.old result turn.new }
{
    match acknowledge(turn, invite, req, named) {
        Ok(()) => Ok(Prack::Acknowledged(named.offer.rseq)),
        Err(stop) => Err(stop),
    }
}

#[tactic(auto, unfolding(crate::specs::Offering::prack_calls, crate::specs::Offering::prack_answer))]
fn answer_prack(
    turn: &mut Turn,
    invite: ReqId,
    req: ReqId,
    named: Option<Named>,
) -> Result<Prack, Stopped>
    ensures same { turn.new.shown ≡ turn.old.shown }
    ensures carried { IsCarried (prack_calls invite req named) (prack_answer named) turn.old result
        turn.new }
{
    match named {
        Some(named) => acknowledge_one(turn, invite, req, &named),
        None => refuse(turn, req),
    }
}

#[tactic(auto, using(crate::proofs::CallLaws::prack_carried, crate::proofs::CallLaws::wanting_carried))]
fn read_prack(turn: &mut Turn, invite: ReqId, req: ReqId, prack: &Request) -> Result<Prack, Stopped>
    ensures same { turn.new.shown ≡ turn.old.shown }
    ensures carried { turn.old.starved ≡ false
        → IsCarried (prack_calls invite req (named_offer (play_of turn.old).view invite prack.now))
        (prack_answer (named_offer (play_of turn.old).view invite prack.now)) turn.old result
        turn.new }
{
    match named_offer(memory_of(turn), turn.view(), invite, prack) {
        Ok(named) => answer_prack(turn, invite, req, named),
        Err(NoMemory) => Err(wanting(0)),
    }
}

/// Answers a PRACK, for the INVITE that [`invite_of`] gives for its SipSession (RFC 3262 section
/// 3). `req` is the PRACK's number, and `prack` the request itself.
///
/// Where the INVITE's last offer waits and the PRACK's RAck is its RSeq, the INVITE's CSeq number
/// and `INVITE`, it makes these calls, each where the one before was accepted, and gives
/// `Acknowledged` with the RSeq: `respond` 200 `OK` to the PRACK; `set_attribute` of `rel` with the
/// INVITE's number to `A RSEQ CSEQ`; and `cancel_timer` of the offer's timer, where that runs. For
/// any other PRACK it makes `respond` 481 `Call/Transaction Does Not Exist` alone, and gives
/// `NoMatch`. The INVITE's final response is left to the servlet.
///
/// # Errors
///
/// `Turn` alone: the turn refuses one of the calls, and the ones before it were accepted. None is
/// made behind it, and what the accepted ones did stays: after the first the PRACK is answered. For
/// want of memory it is `Turn` with `NoMemory`; where a call of this turn wanted memory before, the
/// turn is over, and nothing is said.
#[tactic(auto, using(crate::proofs::CallLaws::carried_out, crate::proofs::CallLaws::carried_stop))]
pub fn take_prack(
    turn: &mut Turn,
    invite: ReqId,
    req: ReqId,
    prack: &Request,
) -> Result<Prack, OfferRefused>
    ensures same { turn.new.shown ≡ turn.old.shown }
    ensures carried { turn.old.starved ≡ false
        → IsCarriedOut
        (prack_calls invite req (named_offer (play_of turn.old).view invite prack.now))
        (prack_answer (named_offer (play_of turn.old).view invite prack.now)) turn.old result
        turn.new }
{
    match read_prack(turn, invite, req, prack) {
        Ok(answer) => Ok(answer),
        Err(stop) => Err(turned(stop)),
    }
}
