//! Offers that no PRACK came for in time (RFC 3262 section 3).

ghost use Rattle.std.specs.Prelude.{◌≡◌, ◌==◌, Some, true, false, is_some, option_map, IfOk};
ghost use Rattle.std.specs.List.{find};
ghost use Rattle.std.specs.Option.{option_copied};
ghost use Rattle.sc_terms.specs.declared.views.RequestView.{RequestView};
ghost use Rattle.sc_terms.specs.Resting.{is_resting};
ghost use Rattle.sc_pages.specs.Scopes.{is_in};
ghost use Rattle.sc_hosts.specs.HelperParts.{accepted_then};
ghost use Rattle.sc_hosts.specs.Looking.{is_request, request_in};
ghost use Rattle.sc_hosts.specs.Offers.{ended_offer_text, late_offer, pending_offer, rel_name};
ghost use Rattle.sc_hosts.specs.Scripting.{only, reply};
ghost use Rattle.sc_model.specs.BestResponses.{server_error};
ghost use Rattle.sc_turn.specs.Working.{play_of};
ghost use Rattle.sc_helpers.specs.Stopping.{Goes, IsCarried};
ghost use Rattle.sc_promised.specs.Reliable.{is_late};
ghost use Rattle.sc_offers.specs.OfferScripts.{open_in};
ghost use Rattle.sc_offers.specs.Offering.{IsCarriedOut, gives_up, overdue_by};

use crate::offer_texts::Waiting;
use crate::pending::{note_ended, pending_offer};
use crate::refused::{OfferRefused, turned};
use sc_apps::memory_of;
use sc_helpers::{Stopped, try_reply, wanting};
use sc_pages::{Probe, Scope};
use sc_terms::{Call, RequestView, View};
use sc_turn::Turn;
use sc_value::{NoMemory, ReqId, TimerId};
use std::alloc::Global;

/// An offer whose time is over, and its INVITE, which waits for its final response.
#[derive(Drop)]
pub struct Overdue {
    /// The offer.
    pub offer: Waiting,
    /// The INVITE's number.
    pub req: ReqId,
}

// Whether a request has this number.
#[derive(Clone, Copy)]
struct NumberIs {
    number: u64,
}

impl Probe<RequestView> for NumberIs {
    ghost passes = { λ p. is_request (record { 0 = p.number }) };

    fn passes(&self, request: &RequestView) -> bool {
        u64::from(request.id.0) == self.number
    }
}

// No request has a number past the greatest that it can have.
fn scope_of(number: u64) -> Scope
    ensures { (request : RequestView) → (request.id.0 == number) ≡ true
        → is_in (λ (r : RequestView). r.id.0) is_resting result request ≡ true }
{
    if number <= u64::from(u32::MAX) {
        Scope::Number(number as u32)
    } else {
        Scope::All
    }
}

fn request_among(view: &View, number: u64) -> Option<&RequestView>
    ensures { option_copied result ≡ request_in view.entry.now (record { 0 = number }) }
{
    view.requests.find(scope_of(number), &NumberIs { number })
}

/// The request of this number, unless it has its final answer.
#[tactic(auto, unfolding(crate::specs::OfferScripts::open_in))]
fn open_request(view: &View, number: u64) -> Option<ReqId>
    ensures { result ≡ open_in (request_in view.entry.now (record { 0 = number })) }
{
    let request = request_among(view, number)?;
    if request.answered.is_some() {
        None
    } else {
        Some(request.id)
    }
}

#[tactic(auto, unfolding(crate::specs::Offering::overdue_by))]
fn overdue_by(request: Option<ReqId>, id: TimerId, offer: Option<Waiting>) -> Option<Overdue>
    ensures { result ≡ overdue_by request id offer }
{
    let offer = offer?;
    if offer.timer != u64::from(id.0) {
        return None;
    }
    match request {
        Some(req) => Some(Overdue { offer, req }),
        None => None,
    }
}

/// The offer of the INVITE of this number that this timer ends.
fn overdue_of(
    alloc: Global,
    view: &View,
    number: u64,
    id: TimerId,
) -> Result<Option<Overdue>, NoMemory>
    ensures { IfOk result
        (λ overdue.
        overdue
        ≡ overdue_by (open_in (request_in view.entry.now (record { 0 = number }))) id
        (pending_offer view.entry.now number)) }
{
    let offer = pending_offer(alloc, view, number)?;
    Ok(overdue_by(open_request(view, number), id, offer))
}

#[tactic(auto, unfolding(sc_model::specs::BestResponses::server_error), using(sc_helpers::proofs::Steps::accepted_on, sc_helpers::proofs::Steps::accepted_off))]
fn give_up(turn: &mut Turn, number: u64, overdue: &Overdue) -> Result<(), Stopped>
    ensures same { turn.new.shown ≡ turn.old.shown }
    ensures goes { Goes 0
        (accepted_then (reply overdue.now.req 500 server_error)
        (only (Call.SetAttribute (rel_name number) (ended_offer_text 70 overdue.now.offer))))
        turn.old result turn.new }
{
    match try_reply(turn, 0, overdue.req, 500, b"Server Internal Error") {
        Ok(_) => note_failed(turn, number, &overdue.offer),
        Err(stop) => Err(stop),
    }
}

#[tactic(auto, using(sc_helpers::proofs::Steps::last_on, sc_helpers::proofs::Steps::last_off))]
fn note_failed(turn: &mut Turn, number: u64, offer: &Waiting) -> Result<(), Stopped>
    ensures same { turn.new.shown ≡ turn.old.shown }
    ensures goes { Goes 1
        (only (Call.SetAttribute (rel_name number) (ended_offer_text 70 offer.now))) turn.old result
        turn.new }
{
    match note_ended(turn, 1, number, b'F', offer) {
        Ok(_) => Ok(()),
        Err(stop) => Err(stop),
    }
}

#[tactic(auto, unfolding(crate::specs::Offering::gives_up), using(sc_helpers::proofs::Steps::goes_carried, sc_helpers::proofs::Steps::goes_stopped, crate::proofs::CallLaws::nothing_carried))]
fn give_up_on(turn: &mut Turn, number: u64, overdue: Option<Overdue>) -> Result<bool, Stopped>
    ensures same { turn.new.shown ≡ turn.old.shown }
    ensures carried { IsCarried (gives_up number overdue) (is_some overdue) turn.old result
        turn.new }
{
    match overdue {
        Some(overdue) => give_up_one(turn, number, &overdue),
        None => Ok(false),
    }
}

#[tactic(auto, unfolding(crate::specs::Offering::gives_up), using(sc_helpers::proofs::Steps::goes_carried, sc_helpers::proofs::Steps::goes_stopped))]
fn give_up_one(turn: &mut Turn, number: u64, overdue: &Overdue) -> Result<bool, Stopped>
    ensures same { turn.new.shown ≡ turn.old.shown }
    ensures carried { IsCarried (gives_up number (Some overdue.now)) true turn.old result turn.new }
{
    match give_up(turn, number, overdue) {
        Ok(()) => Ok(true),
        Err(stop) => Err(stop),
    }
}

/// Ends the offer to the INVITE of this number where this is its timer.
#[tactic(auto, using(crate::proofs::LateLaws::late_carried, crate::proofs::CallLaws::wanting_carried))]
fn end_offer(turn: &mut Turn, number: u64, id: TimerId) -> Result<bool, Stopped>
    ensures same { turn.new.shown ≡ turn.old.shown }
    ensures carried { turn.old.starved ≡ false
        → IsCarried (late_offer (play_of turn.old).view number id)
        (is_late (pending_offer (play_of turn.old).view number) id
        (request_in (play_of turn.old).view (record { 0 = number }))) turn.old result turn.new }
{
    match overdue_of(memory_of(turn), turn.view(), number, id) {
        Ok(overdue) => give_up_on(turn, number, overdue),
        Err(NoMemory) => Err(wanting(0)),
    }
}

/// Ends the offer to this INVITE where its timer has come (RFC 3262 section 3): where the offer
/// waits for its PRACK, the timer is its own, and the INVITE has no final response, the INVITE is
/// answered 500 `Server Internal Error`, and then the attribute is set to `F RSEQ CSEQ`. Tells
/// whether that was so; where it wasn't, no call is made.
///
/// # Errors
///
/// `Turn` alone: the turn refuses one of the two calls. Where that is the second, the response is
/// sent. For want of memory it is `Turn` with `NoMemory`; where a call of this turn wanted memory
/// before, the turn is over, and nothing is said.
#[tactic(auto, using(crate::proofs::CallLaws::carried_out, crate::proofs::CallLaws::carried_stop))]
pub fn late(turn: &mut Turn, invite: ReqId, id: TimerId) -> Result<bool, OfferRefused>
    ensures same { turn.new.shown ≡ turn.old.shown }
    ensures carried { turn.old.starved ≡ false
        → IsCarriedOut (late_offer (play_of turn.old).view invite.0 id)
        (is_late (pending_offer (play_of turn.old).view invite.0) id
        (request_in (play_of turn.old).view invite)) turn.old result turn.new }
{
    match end_offer(turn, u64::from(invite.0), id) {
        Ok(ended) => Ok(ended),
        Err(stop) => Err(turned(stop)),
    }
}

/// The number of the request of this number, where the view shows it.
pub fn request_of(view: &View, number: u64) -> Option<ReqId>
    ensures { result
        ≡ option_map (λ request. request.id) (request_in view.entry.now (record { 0 = number })) }
{
    match request_among(view, number) {
        Some(request) => Some(request.id),
        None => None,
    }
}
