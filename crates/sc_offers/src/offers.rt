//! The application that answers INVITEs by reliable provisional responses first.

ghost use Rattle.std.specs.Prelude.{◌≡◌, ◌+◌, ◌<◌, [], Ok, codes, false, true, option_and_then, if◌then◌else◌, IfOk, OnOk};
ghost use Rattle.sc_tokens.specs.Names.{same_bytes};
ghost use Rattle.sc_terms.specs.declared.charters.Charter.{Charter};
ghost use Rattle.sc_model.specs.SessionStates.{invite};
ghost use Rattle.sc_hosts.specs.Charters.{reply_ok};
ghost use Rattle.sc_hosts.specs.HelperParts.{cancel_first_timer, lists_option, strict_number};
ghost use Rattle.sc_hosts.specs.Offers.{after_word, early_script, first_offer, late_offer, pending_offer, prack_by, rel_option, session_progress, take_prack};
ghost use Rattle.sc_hosts.specs.RefusalParts.{MOST_CALLS};
ghost use Rattle.sc_hosts.specs.Scripting.{only, reply, then_make, where_some};
ghost use Rattle.sc_hosts.specs.Words.{does_not_exist, ok, prack, ringing};
ghost use Rattle.sc_turn.specs.Working.{play_of};
ghost use Rattle.sc_apps.specs.Scripted.{IsPlayed};
ghost use Rattle.sc_promised.specs.Reliable.{offers};
ghost use Rattle.sc_offers.specs.OfferScripts.{prack_of};
ghost use Rattle.sc_offers.specs.Offering.{behind_prack, offer_rseq};

use crate::offering::{give_offer, offer};
use crate::overdue::{late, request_of};
use crate::pracks::{invite_of, take_prack};
use crate::refused::{OfferRefused, Prack, told};
use crate::rseqs::offer_rseq;
use sc_apps::{ended, memory_of, reply_180, reply_200, reply_ok, reply_only, shown};
use sc_helpers::{heard, lists_option, number_after};
use sc_methods::is_invite;
use sc_servlets::SipServlet;
use sc_terms::{Charter, End, Event};
use sc_turn::Turn;
use sc_value::{NoMemory, ReqId, Request, SessId, Text, TimerId};
use std::alloc::Global;

/// Answers the INVITE that began the application session 183 `Session Progress`, reliably (RFC 3262
/// section 3), where its Supported or Require has `100rel`. The PRACK whose RAck names that
/// response it answers 200 `OK`, and then the INVITE so; another PRACK 481 `Call/Transaction Does
/// Not Exist`. Where no PRACK has come after 32 seconds, it answers the INVITE 500 `Server Internal
/// Error`. An INVITE without `100rel` it answers 180 `Ringing` and 200 `OK`, and each other request
/// but an ACK 200 `OK`. When the INVITE is cancelled it ends the timer. At all other events it
/// makes no call. It has no parameters.
#[derive(Clone, Copy, Debug)]
pub struct Offers;

impl SipServlet for Offers {
    ghost stated = { λ _. Charter.Early };

    fn charter(&self) -> Charter {
        Charter::Early
    }

    #[tactic(auto, unfolding(sc_servlets::specs::Brought::Promises, sc_hosts::specs::Bringing::servlet_script), using(sc_apps::proofs::Playing::keeps))]
    fn turn(&self, t: &mut Turn, e: &Event) -> End {
        ended(handle(t, e))
    }
}

#[tactic(auto, unfolding(sc_hosts::specs::Offers::early_script), using(sc_apps::proofs::Playing::played_done))]
fn handle(t: &mut Turn, e: &Event) -> Result<(), NoMemory>
    requires calls { t.old.calls ≡ [] }
    requires memory { t.old.starved ≡ false }
    ensures same { t.new.shown ≡ t.old.shown }
    ensures played { OnOk result (IsPlayed (early_script t.old.shown e.now) t.old t.new) }
{
    match e {
        Event::Initial { req, request, .. } => begin(t, *req, request.get()),
        Event::Request { req, sess, request } => take_later(t, *req, *sess, request.get()),
        Event::Response { .. } => Ok(()),
        Event::Branch { .. } => Ok(()),
        Event::Cancelled { .. } => cancel_first(t),
        Event::Timer { id, info } => time_out(t, *id, info),
        Event::Expired => Ok(()),
        Event::Ready => Ok(()),
    }
}

#[tactic(auto, unfolding(sc_hosts::specs::Scripting::where_some), using(sc_apps::proofs::Playing::played_done))]
fn time_out(t: &mut Turn, id: TimerId, info: &Text) -> Result<(), NoMemory>
    requires calls { t.old.calls ≡ [] }
    requires memory { t.old.starved ≡ false }
    ensures same { t.new.shown ≡ t.old.shown }
    ensures played { OnOk result
        (IsPlayed
        (where_some (option_and_then strict_number (after_word (codes "rel") info.now))
        (λ n. late_offer t.old.shown n id)) t.old t.new) }
{
    match number_after(info.as_bytes(), b"rel") {
        Some(number) => time_out_offer(t, number, id),
        None => Ok(()),
    }
}

#[tactic(auto, using(crate::proofs::EarlyLaws::none_late, crate::proofs::EarlyLaws::some_late))]
fn time_out_offer(t: &mut Turn, number: u64, id: TimerId) -> Result<(), NoMemory>
    requires calls { t.old.calls ≡ [] }
    requires memory { t.old.starved ≡ false }
    ensures same { t.new.shown ≡ t.old.shown }
    ensures played { OnOk result (IsPlayed (late_offer t.old.shown number id) t.old t.new) }
{
    match request_of(shown(t), number) {
        Some(invite) => end_late(t, invite, id),
        None => Ok(()),
    }
}

#[tactic(auto, using(crate::proofs::EarlyLaws::late_through, crate::proofs::EarlyLaws::late_stopped))]
fn end_late(t: &mut Turn, invite: ReqId, id: TimerId) -> Result<(), NoMemory>
    requires calls { t.old.calls ≡ [] }
    requires memory { t.old.starved ≡ false }
    ensures same { t.new.shown ≡ t.old.shown }
    ensures played { OnOk result (IsPlayed (late_offer t.old.shown invite.0 id) t.old t.new) }
{
    match late(t, invite, id) {
        Ok(_) => Ok(()),
        Err(refused) => told(refused),
    }
}

#[tactic(auto, unfolding(sc_hosts::specs::HelperParts::cancel_first_timer))]
fn cancel_first(t: &mut Turn) -> Result<(), NoMemory>
    requires calls { t.old.calls ≡ [] }
    requires memory { t.old.starved ≡ false }
    ensures same { t.new.shown ≡ t.old.shown }
    ensures played { OnOk result (IsPlayed (cancel_first_timer t.old.shown) t.old t.new) }
{
    sc_apps::cancel_first_timer(t)
}

#[tactic(auto, unfolding(sc_hosts::specs::Words::prack))]
fn is_prack(method: &[u8]) -> bool
    ensures { result ≡ same_bytes method.now prack }
{
    method == b"PRACK".as_slice()
}

#[tactic(auto, using(sc_apps::proofs::Playing::begun_room))]
fn take_later(t: &mut Turn, req: ReqId, sess: SessId, request: &Request) -> Result<(), NoMemory>
    requires calls { t.old.calls ≡ [] }
    requires memory { t.old.starved ≡ false }
    ensures same { t.new.shown ≡ t.old.shown }
    ensures played { OnOk result
        (IsPlayed
        (if same_bytes request.now.method prack then take_prack t.old.shown req sess request.now
        else reply_ok req request.now) t.old t.new) }
{
    if is_prack(request.method.as_bytes()) {
        return answer_prack(t, req, sess, request);
    }
    reply_ok(t, req, request)
}

#[tactic(auto, using(crate::proofs::EarlyLaws::played_prack))]
fn answer_prack(t: &mut Turn, req: ReqId, sess: SessId, request: &Request) -> Result<(), NoMemory>
    requires calls { t.old.calls ≡ [] }
    requires memory { t.old.starved ≡ false }
    ensures same { t.new.shown ≡ t.old.shown }
    ensures played { OnOk result
        (IsPlayed (take_prack t.old.shown req sess request.now) t.old t.new) }
{
    let invite = invite_of(shown(t), sess);
    prack_of(t, req, request, invite)
}

#[tactic(auto, unfolding(crate::specs::OfferScripts::prack_of), using(sc_apps::proofs::Playing::begun_room))]
fn prack_of(
    t: &mut Turn,
    req: ReqId,
    request: &Request,
    invite: Option<ReqId>,
) -> Result<(), NoMemory>
    requires calls { t.old.calls ≡ [] }
    requires memory { t.old.starved ≡ false }
    ensures same { t.new.shown ≡ t.old.shown }
    ensures played { OnOk result
        (IsPlayed (prack_of t.old.shown req request.now invite) t.old t.new) }
{
    match invite {
        Some(invite) => prack_for(t, req, request, invite),
        None => reply_481(t, req),
    }
}

#[tactic(auto, unfolding(sc_hosts::specs::Words::does_not_exist))]
fn reply_481(t: &mut Turn, req: ReqId) -> Result<(), NoMemory>
    requires { (play_of t.old).listed < MOST_CALLS }
    ensures same { t.new.shown ≡ t.old.shown }
    ensures played { OnOk result (IsPlayed (only (reply req 481 does_not_exist)) t.old t.new) }
{
    reply_only(t, req, 481, b"Call/Transaction Does Not Exist")
}

#[tactic(auto, using(crate::proofs::EarlyLaws::taken_room, crate::proofs::EarlyLaws::taken_played, crate::proofs::EarlyLaws::prack_stopped))]
fn prack_for(t: &mut Turn, req: ReqId, request: &Request, invite: ReqId) -> Result<(), NoMemory>
    requires calls { t.old.calls ≡ [] }
    requires memory { t.old.starved ≡ false }
    ensures same { t.new.shown ≡ t.old.shown }
    ensures played { OnOk result
        (IsPlayed (prack_by t.old.shown invite req request.now (pending_offer t.old.shown invite.0))
        t.old t.new) }
{
    match take_prack(t, invite, req, request) {
        Ok(answer) => answer_invite(t, invite, answer),
        Err(refused) => told(refused),
    }
}

#[tactic(auto, unfolding(crate::specs::Offering::behind_prack), using(sc_apps::proofs::Playing::played_done))]
fn answer_invite(t: &mut Turn, invite: ReqId, answer: Prack) -> Result<(), NoMemory>
    requires { (play_of t.old).listed < MOST_CALLS }
    ensures same { t.new.shown ≡ t.old.shown }
    ensures played { OnOk result (IsPlayed (behind_prack invite answer) t.old t.new) }
{
    match answer {
        Prack::Acknowledged(_) => reply_200(t, invite),
        Prack::NoMatch => Ok(()),
    }
}

#[tactic(auto, using(sc_apps::proofs::Playing::begun_room))]
fn begin(t: &mut Turn, req: ReqId, request: &Request) -> Result<(), NoMemory>
    requires calls { t.old.calls ≡ [] }
    requires memory { t.old.starved ≡ false }
    ensures same { t.new.shown ≡ t.old.shown }
    ensures played { OnOk result
        (IsPlayed
        (if same_bytes request.now.method invite
        then (if lists_option rel_option request.now then first_offer req request.now
        else then_make (reply req 180 ringing) (only (reply req 200 ok)))
        else only (reply req 200 ok)) t.old t.new) }
{
    if is_invite(request.method.as_bytes()) {
        return begin_invite(t, req, request);
    }
    reply_200(t, req)
}

#[tactic(auto, unfolding(sc_hosts::specs::Offers::rel_option), using(sc_apps::proofs::Playing::begun_room))]
fn begin_invite(t: &mut Turn, req: ReqId, request: &Request) -> Result<(), NoMemory>
    requires calls { t.old.calls ≡ [] }
    requires memory { t.old.starved ≡ false }
    ensures same { t.new.shown ≡ t.old.shown }
    ensures played { OnOk result
        (IsPlayed
        (if lists_option rel_option request.now then first_offer req request.now
        else then_make (reply req 180 ringing) (only (reply req 200 ok))) t.old t.new) }
{
    if lists_option(request, b"100rel") {
        return first_offer(t, req, request);
    }
    ring_and_answer(t, req)
}

#[tactic(auto, unfolding(sc_hosts::specs::Offers::session_progress))]
fn session_progress(alloc: Global) -> Result<Text, NoMemory>
    ensures { IfOk result (λ text. text ≡ session_progress) }
{
    Text::from_slice(alloc, b"Session Progress")
}

fn no_body(alloc: Global) -> Text
    ensures { result ≡ [] }
{
    Text::new(alloc)
}

#[tactic(auto, using(crate::proofs::EarlyLaws::first_played))]
fn first_offer(t: &mut Turn, req: ReqId, request: &Request) -> Result<(), NoMemory>
    requires calls { t.old.calls ≡ [] }
    requires memory { t.old.starved ≡ false }
    ensures same { t.new.shown ≡ t.old.shown }
    ensures played { OnOk result (IsPlayed (first_offer req request.now) t.old t.new) }
{
    match session_progress(memory_of(t)) {
        Ok(reason) => give_first(t, req, request, reason),
        Err(NoMemory) => Err(NoMemory),
    }
}

fn give_first(t: &mut Turn, req: ReqId, request: &Request, reason: Text) -> Result<(), NoMemory>
    requires calls { t.old.calls ≡ [] }
    requires memory { t.old.starved ≡ false }
    ensures same { t.new.shown ≡ t.old.shown }
    ensures played { OnOk result
        (IsPlayed (offers req 1 request.now.head.cseq.number 183 reason []) t.old t.new) }
{
    let body = no_body(memory_of(t));
    let rseq = offer_rseq(memory_of(t), shown(t), req, request)?;
    give_by(t, is_first(rseq), req, request, reason, body)
}

fn is_first(rseq: Result<u64, OfferRefused>) -> bool
    ensures { result ≡ true → rseq ≡ Ok 1 }
{
    match rseq {
        Ok(rseq) => rseq == 1,
        Err(_) => false,
    }
}

// An INVITE that comes is new, so nothing is remembered of it. Where an attribute of that name
// stands all the same, the first offer is made anew.
#[tactic(auto, using(sc_apps::proofs::Playing::begun_room))]
fn give_by(
    t: &mut Turn,
    first: bool,
    req: ReqId,
    request: &Request,
    reason: Text,
    body: Text,
) -> Result<(), NoMemory>
    requires calls { t.old.calls ≡ [] }
    requires memory { t.old.starved ≡ false }
    requires first { first ≡ true → offer_rseq t.old.shown req request.now ≡ Ok 1 }
    ensures same { t.new.shown ≡ t.old.shown }
    ensures played { OnOk result
        (IsPlayed (offers req 1 request.now.head.cseq.number 183 reason body) t.old t.new) }
{
    if first {
        return offer_first(t, req, request, reason, body);
    }
    offer_anew(t, req, request.head.cseq.number, reason, body)
}

#[tactic(auto, using(crate::proofs::EarlyLaws::first_through, crate::proofs::EarlyLaws::first_stopped))]
fn offer_first(
    t: &mut Turn,
    req: ReqId,
    request: &Request,
    reason: Text,
    body: Text,
) -> Result<(), NoMemory>
    requires calls { t.old.calls ≡ [] }
    requires memory { t.old.starved ≡ false }
    requires first { offer_rseq t.old.shown req request.now ≡ Ok 1 }
    ensures same { t.new.shown ≡ t.old.shown }
    ensures played { OnOk result
        (IsPlayed (offers req 1 request.now.head.cseq.number 183 reason body) t.old t.new) }
{
    match offer(t, req, request, 183, reason, body) {
        Ok(_) => Ok(()),
        Err(refused) => told(refused),
    }
}

#[tactic(auto, using(crate::proofs::EarlyLaws::offer_through, crate::proofs::EarlyLaws::offer_stopped))]
fn offer_anew(t: &mut Turn, req: ReqId, cseq: u32, reason: Text, body: Text) -> Result<(), NoMemory>
    requires { (play_of t.old).listed + 3 < MOST_CALLS }
    ensures same { t.new.shown ≡ t.old.shown }
    ensures played { OnOk result (IsPlayed (offers req 1 cseq 183 reason body) t.old t.new) }
{
    match give_offer(t, req, 1, cseq, 183, reason, body) {
        Ok(()) => Ok(()),
        Err(stop) => heard(stop),
    }
}

#[tactic(auto, using(sc_apps::proofs::Playing::played_then))]
fn ring_and_answer(t: &mut Turn, req: ReqId) -> Result<(), NoMemory>
    requires { (play_of t.old).listed + 1 < MOST_CALLS }
    ensures same { t.new.shown ≡ t.old.shown }
    ensures played { OnOk result
        (IsPlayed (then_make (reply req 180 ringing) (only (reply req 200 ok))) t.old t.new) }
{
    reply_180(t, req)?;
    reply_200(t, req)
}
