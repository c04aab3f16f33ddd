//! The dialog of a SipSession after a message.

ghost use Rattle.std.specs.Prelude.{◌≡◌, Some, IfOk, OnOk};
ghost use Rattle.sc_value.specs.Lists.{change_first};
ghost use Rattle.sc_value.specs.declared.message.Message.{Message};
ghost use Rattle.sc_model.specs.Dialogs.{Passed};
ghost use Rattle.sc_hosts.specs.Legs.{answered_leg, as_answer, change_leg, in_dialog, is_leg_of, makes_dialog_of, with_answer, with_request, with_target};

use crate::legs::leg_place;
use crate::tags::{from_tag, with_got};
use sc_dialog::Dialog;
use sc_messages::makes_dialog;
use sc_methods::{is_invite, is_subscribe, is_success};
use sc_state::{Known, Leg};
use sc_value::{CloneIn, Discard, NoMemory, Request, Response, SessId, tag};
use std::alloc::Global;

#[tactic(auto, unfolding(sc_hosts::specs::Legs::with_target))]
fn hear_request(alloc: Global, dialog: &mut Dialog, request: &Request) -> Result<(), NoMemory>
    ensures { OnOk result
        (dialog.new ≡ with_target dialog.old (Passed.By_peer (Message.Request request.now))) }
{
    dialog.hear_request(alloc, request)
}

#[tactic(auto, unfolding(sc_hosts::specs::Legs::with_target))]
fn hear_response(alloc: Global, dialog: &mut Dialog, response: &Response) -> Result<(), NoMemory>
    ensures { OnOk result
        (dialog.new ≡ with_target dialog.old (Passed.By_peer (Message.Response response.now))) }
{
    dialog.hear_response(alloc, response)
}

#[tactic(auto, unfolding(sc_hosts::specs::Legs::with_target))]
fn count_sent(dialog: &mut Dialog, request: &Request)
    ensures { dialog.new ≡ with_target dialog.old (Passed.By_self (Message.Request request.now)) }
{
    dialog.count_sent(request.head.cseq.number);
}

#[tactic(auto, unfolding(sc_hosts::specs::Legs::in_dialog))]
fn in_dialog_request(alloc: Global, leg: &mut Leg, request: &Request) -> Result<(), NoMemory>
    ensures { OnOk result
        (leg.new ≡ in_dialog (Passed.By_peer (Message.Request request.now)) leg.old) }
{
    match &mut leg.dialog {
        Some(dialog) => hear_request(alloc, dialog, request),
        None => Ok(()),
    }
}

#[tactic(auto, unfolding(sc_hosts::specs::Legs::in_dialog))]
fn in_dialog_response(alloc: Global, leg: &mut Leg, response: &Response) -> Result<(), NoMemory>
    ensures { OnOk result
        (leg.new ≡ in_dialog (Passed.By_peer (Message.Response response.now)) leg.old) }
{
    match &mut leg.dialog {
        Some(dialog) => hear_response(alloc, dialog, response),
        None => Ok(()),
    }
}

#[tactic(auto, unfolding(sc_hosts::specs::Legs::in_dialog))]
fn in_dialog_sent(leg: &mut Leg, request: &Request)
    ensures { leg.new ≡ in_dialog (Passed.By_self (Message.Request request.now)) leg.old }
{
    match &mut leg.dialog {
        Some(dialog) => count_sent(dialog, request),
        None => {}
    }
}

#[tactic(auto, unfolding(sc_hosts::specs::Legs::with_request))]
fn with_request(alloc: Global, leg: &mut Leg, request: &Request) -> Result<(), NoMemory>
    ensures { OnOk result (leg.new ≡ with_request request.now leg.old) }
{
    with_got(
        alloc,
        &mut leg.got,
        from_tag(request),
        request.head.cseq.number,
    )?;
    in_dialog_request(alloc, leg, request)
}

// Whether the response makes the dialog of the request: a 101 to 299 to INVITE, a 2xx to SUBSCRIBE.
#[tactic(auto, unfolding(sc_hosts::specs::Legs::makes_dialog_of))]
fn makes_dialog_of(request: &Request, response: &Response) -> bool
    ensures { result ≡ makes_dialog_of request.now response.now }
{
    if is_invite(request.method.as_bytes()) {
        return is_success(response.code)
            || (makes_dialog(response.code) && tag(&response.head.to).is_some());
    }
    is_subscribe(request.method.as_bytes()) && is_success(response.code)
}

fn set_dialog(leg: &mut Leg, dialog: Dialog)
    ensures { leg.new ≡ record leg.old { dialog = Some dialog } }
{
    leg.dialog = Some(dialog);
}

// The dialog is that of the response that made it.
#[tactic(auto, unfolding(sc_hosts::specs::Legs::answered_leg))]
fn answered_leg(
    alloc: Global,
    leg: &mut Leg,
    request: &Request,
    response: &Response,
) -> Result<(), NoMemory>
    ensures { OnOk result (leg.new ≡ answered_leg request.now response.now leg.old) }
{
    if leg.dialog.is_some() {
        return in_dialog_response(alloc, leg, response);
    }
    if makes_dialog_of(request, response) {
        let dialog = Dialog::from_uac(alloc, request, response)?;
        set_dialog(leg, dialog);
    }
    Ok(())
}

// The response with the number of the request on whose branch it came.
#[tactic(auto, unfolding(sc_hosts::specs::Legs::as_answer))]
fn as_answer(alloc: Global, request: &Request, response: &Response) -> Result<Response, NoMemory>
    ensures { IfOk result (λ r. r ≡ as_answer request.now response.now) }
{
    request.head.cseq.known();
    let mut answer = response.clone_in(alloc)?;
    answer.head.cseq.number = request.head.cseq.number;
    Ok(answer)
}

// A response is one to the request on whose branch it came, whatever number its CSeq has.
#[tactic(auto, unfolding(sc_hosts::specs::Legs::with_answer), using(crate::proofs::Numbering::same_answer))]
fn with_answer(
    alloc: Global,
    leg: &mut Leg,
    request: &Request,
    response: &Response,
) -> Result<(), NoMemory>
    ensures { OnOk result (leg.new ≡ with_answer request.now response.now leg.old) }
{
    if response.head.cseq.number == request.head.cseq.number {
        return answered_leg(alloc, leg, request, response);
    }
    let answer = as_answer(alloc, request, response)?;
    let told = answered_leg(alloc, leg, request, &answer);
    answer.discard();
    told
}

#[tactic(auto, using(sc_value::proofs::ListFacts::change_first_position, sc_value::proofs::ListFacts::change_first_none))]
fn request_in(
    alloc: Global,
    legs: &mut [Leg],
    sess: SessId,
    request: &Request,
) -> Result<(), NoMemory>
    ensures { OnOk result
        (legs.new ≡ change_first (is_leg_of sess) (with_request request.now) legs.old) }
{
    match leg_place(legs, sess) {
        Some(at) => with_request(alloc, &mut legs[at], request),
        None => Ok(()),
    }
}

#[tactic(auto, using(sc_value::proofs::ListFacts::change_first_position, sc_value::proofs::ListFacts::change_first_none))]
fn answer_in(
    alloc: Global,
    legs: &mut [Leg],
    sess: SessId,
    request: &Request,
    response: &Response,
) -> Result<(), NoMemory>
    ensures { OnOk result
        (legs.new
        ≡ change_first (is_leg_of sess) (with_answer request.now response.now) legs.old) }
{
    match leg_place(legs, sess) {
        Some(at) => with_answer(alloc, &mut legs[at], request, response),
        None => Ok(()),
    }
}

#[tactic(auto, using(sc_value::proofs::ListFacts::change_first_position, sc_value::proofs::ListFacts::change_first_none))]
fn sent_in(legs: &mut [Leg], sess: SessId, request: &Request)
    ensures { legs.new
        ≡ change_first (is_leg_of sess) (in_dialog (Passed.By_self (Message.Request request.now)))
        legs.old }
{
    match leg_place(legs, sess) {
        Some(at) => in_dialog_sent(&mut legs[at], request),
        None => {}
    }
}

/// Takes a request of the peer into what a SipSession knows of its dialog.
#[tactic(auto, unfolding(sc_hosts::specs::Legs::change_leg))]
pub fn take_request(
    alloc: Global,
    known: &mut Known,
    sess: SessId,
    request: &Request,
) -> Result<(), NoMemory>
    ensures { OnOk result (known.new ≡ change_leg sess (with_request request.now) known.old) }
{
    request_in(alloc, &mut known.legs.items, sess, request)
}

/// Takes a response to a request of one's own into what a SipSession knows of its dialog.
#[tactic(auto, unfolding(sc_hosts::specs::Legs::change_leg))]
pub fn take_answer(
    alloc: Global,
    known: &mut Known,
    sess: SessId,
    request: &Request,
    response: &Response,
) -> Result<(), NoMemory>
    ensures { OnOk result
        (known.new ≡ change_leg sess (with_answer request.now response.now) known.old) }
{
    answer_in(alloc, &mut known.legs.items, sess, request, response)
}

/// Notes an own request in the dialog of a SipSession.
#[tactic(auto, unfolding(sc_hosts::specs::Legs::change_leg))]
pub fn take_sent(known: &mut Known, sess: SessId, request: &Request)
    ensures { known.new
        ≡ change_leg sess (in_dialog (Passed.By_self (Message.Request request.now))) known.old }
{
    sent_in(&mut known.legs.items, sess, request);
}
