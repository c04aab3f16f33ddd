//! Requests that are sent, and ACKs.

ghost use Rattle.std.specs.Prelude.{◌≡◌, Some, None, IfOk, IfNone, OnOk};
ghost use Rattle.std.specs.List.{find};
ghost use Rattle.std.specs.Option.{option_copied};
ghost use Rattle.sc_value.specs.Lists.{change_first};
ghost use Rattle.sc_value.specs.declared.message.Message.{Message};
ghost use Rattle.sc_model.specs.DialogRequests.{next_request, ack_request};
ghost use Rattle.sc_model.specs.Dialogs.{Passed};
ghost use Rattle.sc_hosts.specs.Legs.{change_leg, in_dialog, is_leg_of};
ghost use Rattle.sc_hosts.specs.Messages.{from_here, on_branch};
ghost use Rattle.sc_hosts.specs.Preparing.{kept_of};
ghost use Rattle.sc_hosts.specs.Refusals.{awaits_ack};
ghost use Rattle.sc_hosts.specs.RefusalParts.{draft_in};
ghost use Rattle.sc_hosts.specs.Giving.{is_written, forgets};
ghost use Rattle.sc_hosts.specs.Working.{ack_with, acknowledges, dialog_in, keeps_sent, next_branch, router_state, sends, sends_in, sends_initial, sends_later, sends_written};
ghost use Rattle.sc_sending.specs.Pieces.{begins, with_first};

use crate::drafting::written_at;
use sc_dialog::{Dialog, ack_request, next_request};
use sc_effects::kept_of;
use sc_legs::{leg_of, leg_place, take_sent};
use sc_looking::{awaiting, draft_in};
use sc_messages::{from_here, on_branch};
use sc_state::{Asked, Kept, Known, Leg, Order, Way, Working, Written};
use sc_terms::{Config, Inside, View};
use sc_value::{Directive, Discard, NoMemory, ReqId, Request, SessId, Shared, Text, sum, sum_u32};
use std::alloc::Global;

#[tactic(auto, unfolding(sc_hosts::specs::Working::router_state))]
fn router_state(directive: Directive, known: &Known) -> Result<Option<u32>, NoMemory>
    ensures { IfOk result (λ state. state ≡ router_state directive known.now) }
{
    match directive {
        Directive::Continue => {
            let state = sum_u32(known.order, 1)?;
            Ok(Some(state))
        }
        Directive::New | Directive::Reverse => Ok(None),
    }
}

/// The branch that the next request draws.
pub fn next_branch(working: &Working) -> Result<u64, NoMemory>
    ensures { IfOk result (λ branch. branch ≡ next_branch working.now) }
{
    sum(working.play.view.counter, 1)
}

fn put_on(
    alloc: Global,
    config: &Config,
    view: &View,
    branch: u64,
    request: &Shared<Request>,
) -> Result<Shared<Request>, NoMemory>
    ensures { IfOk result (λ r. r ≡ on_branch config.now view.entry.now branch request.now) }
{
    let request = on_branch(alloc, config, view, branch, request.get())?;
    Shared::new(alloc, request)
}

fn made_here(
    alloc: Global,
    config: &Config,
    view: &View,
    request: &Shared<Request>,
) -> Result<Shared<Request>, NoMemory>
    ensures { IfOk result (λ r. r ≡ from_here config.now view.entry.now request.now) }
{
    let request = from_here(alloc, config, view, request.get())?;
    Shared::new(alloc, request)
}

#[tactic(auto, unfolding(sc_hosts::specs::Working::keeps_sent))]
fn keeps_sent(sess: SessId, request: Shared<Request>, working: &mut Working) -> Result<(), NoMemory>
    ensures { OnOk result (working.new ≡ keeps_sent sess request working.old) }
{
    let branch = next_branch(working)?;
    let id = ReqId(working.play.view.next_request);
    working.known.kept.push(Kept {
        id,
        sess,
        way: Way::Sent { branch },
        request,
    })?;
    Ok(())
}

#[tactic(auto, unfolding(crate::specs::Pieces::with_first))]
fn with_first(leg: &mut Leg, req: ReqId)
    ensures { leg.new ≡ with_first req leg.old }
{
    leg.first = Some(req);
}

#[tactic(auto, using(sc_value::proofs::ListFacts::change_first_position, sc_value::proofs::ListFacts::change_first_none))]
fn first_among(legs: &mut [Leg], sess: SessId, req: ReqId)
    ensures { legs.new ≡ change_first (is_leg_of sess) (with_first req) legs.old }
{
    match leg_place(legs, sess) {
        Some(at) => with_first(&mut legs[at], req),
        None => {}
    }
}

#[tactic(auto, unfolding(sc_hosts::specs::Legs::change_leg))]
fn first_in(known: &mut Known, sess: SessId, req: ReqId)
    ensures { known.new ≡ change_leg sess (with_first req) known.old }
{
    first_among(&mut known.legs.items, sess, req);
}

// Sends an initial request, by the directive of its draft.
#[tactic(auto, unfolding(crate::specs::Pieces::begins))]
fn begins(
    alloc: Global,
    config: &Config,
    directive: Directive,
    sess: SessId,
    request: Shared<Request>,
    working: &mut Working,
) -> Result<(), NoMemory>
    ensures { OnOk result (working.new ≡ begins config.now directive sess request working.old) }
{
    let branch = next_branch(working)?;
    let state = router_state(directive, &working.known)?;
    let sent = put_on(alloc, config, &working.play.view, branch, &request)?;
    let region = working.known.region;
    let req = ReqId(working.play.view.next_request);
    first_in(&mut working.known, sess, req);
    keeps_sent(sess, request, working)?;
    working.orders.push(Order::Begin {
        branch,
        directive,
        region,
        state,
        request: sent,
    })?;
    Ok(())
}

fn note_sent(known: &mut Known, sess: SessId, request: &Shared<Request>)
    ensures { known.new
        ≡ change_leg sess (in_dialog (Passed.By_self (Message.Request request.now))) known.old }
{
    take_sent(known, sess, request.get());
}

// Sends a request in a dialog.
#[tactic(auto, unfolding(sc_hosts::specs::Working::sends_later))]
fn sends_later(
    alloc: Global,
    config: &Config,
    sess: SessId,
    request: Shared<Request>,
    working: &mut Working,
) -> Result<(), NoMemory>
    ensures { OnOk result (working.new ≡ sends_later config.now sess request working.old) }
{
    let branch = next_branch(working)?;
    let sent = put_on(alloc, config, &working.play.view, branch, &request)?;
    note_sent(&mut working.known, sess, &request);
    keeps_sent(sess, request, working)?;
    working.orders.push(Order::Send {
        branch,
        request: sent,
    })?;
    Ok(())
}

/// The dialog of a SipSession, where there is one.
#[tactic(auto, unfolding(sc_hosts::specs::Working::dialog_in))]
pub fn dialog_in(known: &Known, sess: SessId) -> Option<&Dialog>
    ensures { option_copied result ≡ dialog_in known.entry.now sess }
{
    match leg_of(known, sess) {
        Some(leg) => leg.dialog.as_ref(),
        None => None,
    }
}

fn from_dialog(
    alloc: Global,
    config: &Config,
    view: &View,
    request: Request,
) -> Result<Shared<Request>, NoMemory>
    ensures { IfOk result (λ r. r ≡ from_here config.now view.entry.now request) }
{
    let made = from_here(alloc, config, view, &request);
    request.discard();
    let made = made?;
    Shared::new(alloc, made)
}

fn next_here(
    alloc: Global,
    config: &Config,
    view: &View,
    dialog: &Dialog,
    ask: &Inside,
) -> Result<Shared<Request>, NoMemory>
    ensures { IfOk result
        (λ r. r ≡ from_here config.now view.entry.now (next_request dialog.now ask.now)) }
{
    if 2_147_483_647 <= dialog.last_sent() {
        return Err(NoMemory);
    }
    let request = next_request(alloc, dialog, ask)?;
    from_dialog(alloc, config, view, request)
}

#[tactic(auto, unfolding(sc_hosts::specs::Working::sends_in))]
fn sends_in(
    alloc: Global,
    config: &Config,
    sess: SessId,
    ask: &Inside,
    working: &mut Working,
) -> Result<(), NoMemory>
    ensures { OnOk result
        (working.new
        ≡ sends_in config.now sess ask.now (dialog_in working.old.known sess) working.old) }
{
    match dialog_in(&working.known, sess) {
        Some(dialog) => {
            let request = next_here(alloc, config, &working.play.view, dialog, ask)?;
            sends_later(alloc, config, sess, request, working)
        }
        None => Ok(()),
    }
}

#[tactic(auto, unfolding(sc_hosts::specs::Working::sends_initial, crate::specs::Pieces::begins, crate::specs::Pieces::with_first))]
fn sends_initial(
    alloc: Global,
    config: &Config,
    draft: &Written,
    sess: SessId,
    request: Shared<Request>,
    working: &mut Working,
) -> Result<(), NoMemory>
    ensures { OnOk result
        (working.new ≡ sends_initial config.now draft.now sess request working.old) }
{
    begins(alloc, config, draft.directive, sess, request, working)
}

// An initial request, as it leaves from here.
fn sends_asked(
    alloc: Global,
    config: &Config,
    draft: &Written,
    sess: SessId,
    request: &Shared<Request>,
    working: &mut Working,
) -> Result<(), NoMemory>
    ensures { OnOk result
        (working.new
        ≡ sends_initial config.now draft.now sess
        (from_here config.now working.old.play.view request.now) working.old) }
{
    let made = made_here(alloc, config, &working.play.view, request)?;
    sends_initial(alloc, config, draft, sess, made, working)
}

#[tactic(auto, unfolding(sc_hosts::specs::Working::sends_written))]
fn sends_written(
    alloc: Global,
    config: &Config,
    draft: &Written,
    sess: SessId,
    working: &mut Working,
) -> Result<(), NoMemory>
    ensures { OnOk result
        (working.new ≡ sends_written config.now draft.now sess draft.now.asked working.old) }
{
    match &draft.asked {
        Asked::Initial(request) => sends_asked(alloc, config, draft, sess, request, working),
        Asked::Later(ask) => sends_in(alloc, config, sess, ask, working),
    }
}

// Takes what a draft was written with; it is forgotten.
#[tactic(auto, unfolding(sc_hosts::specs::Giving::forgets), using(sc_value::proofs::ListFacts::find_position, sc_value::proofs::ListFacts::find_none, sc_value::proofs::ListFacts::remove_first_position, sc_value::proofs::ListFacts::remove_first_none))]
fn take_written(working: &mut Working, number: u32) -> Option<Written>
    ensures written { result ≡ find (is_written number) working.old.written }
    ensures working { working.new ≡ forgets number working.old }
    ensures none { IfNone result (working.new ≡ working.old) }
{
    match written_at(working, number) {
        Some(at) => Some(working.written.items.remove(at)),
        None => None,
    }
}

/// Sends a draft.
#[tactic(auto, unfolding(sc_hosts::specs::Working::sends), using(crate::proofs::Forgetting::forgets_sent))]
pub fn sends(
    alloc: Global,
    config: &Config,
    number: u32,
    working: &mut Working,
) -> Result<(), NoMemory>
    ensures { OnOk result
        (working.new
        ≡ sends config.now number (find (is_written number) working.old.written)
        (draft_in working.old.play number) working.old) }
{
    let Some(draft) = draft_in(&working.play, number) else {
        return Ok(());
    };
    let sess = draft.sess;
    match take_written(working, number) {
        Some(written) => sends_written(alloc, config, &written, sess, working),
        None => Ok(()),
    }
}

fn ack_on(
    alloc: Global,
    config: &Config,
    view: &View,
    branch: u64,
    request: Request,
) -> Result<Shared<Request>, NoMemory>
    ensures { IfOk result (λ r. r ≡ on_branch config.now view.entry.now branch request) }
{
    let sent = on_branch(alloc, config, view, branch, &request);
    request.discard();
    let sent = sent?;
    Shared::new(alloc, sent)
}

fn acknowledgement(
    alloc: Global,
    config: &Config,
    working: &Working,
    dialog: &Dialog,
    kept: &Kept,
    body: &Text,
) -> Result<Shared<Request>, NoMemory>
    ensures { IfOk result
        (λ r.
        r
        ≡ on_branch config.now working.now.play.view (next_branch working.now)
        (ack_request dialog.now kept.now.request.head.cseq.number body.now)) }
{
    let branch = next_branch(working)?;
    let cseq = &kept.request.get().head.cseq;
    cseq.known();
    let request = ack_request(alloc, dialog, cseq.number, body)?;
    ack_on(alloc, config, &working.play.view, branch, request)
}

#[tactic(auto, unfolding(sc_hosts::specs::Working::ack_with))]
fn ack_with(
    alloc: Global,
    config: &Config,
    body: &Text,
    sess: SessId,
    req: ReqId,
    working: &mut Working,
) -> Result<(), NoMemory>
    ensures { OnOk result
        (working.new
        ≡ ack_with config.now body.now (dialog_in working.old.known sess)
        (kept_of working.old.known req) working.old) }
{
    let Some(dialog) = dialog_in(&working.known, sess) else {
        return Ok(());
    };
    let Some(kept) = kept_of(&working.known, req) else {
        return Ok(());
    };
    let request = acknowledgement(alloc, config, working, dialog, kept, body)?;
    working.orders.push(Order::Acknowledge { request })?;
    Ok(())
}

/// Acknowledges the 2xx in a SipSession of the INVITE of lowest number that waits for its ACK.
#[tactic(auto, unfolding(sc_hosts::specs::Working::acknowledges))]
pub fn acknowledges(
    alloc: Global,
    config: &Config,
    sess: SessId,
    body: &Text,
    working: &mut Working,
) -> Result<(), NoMemory>
    ensures { OnOk result
        (working.new
        ≡ acknowledges config.now sess body.now
        (find (awaits_ack sess) working.old.play.view.requests) working.old) }
{
    match awaiting(&working.play.view, sess) {
        Some(request) => {
            let req = request.id;
            ack_with(alloc, config, body, sess, req, working)
        }
        None => Ok(()),
    }
}
