//! SipSessions and drafts that calls make.

ghost use Rattle.std.specs.Prelude.{◌≡◌, ◌-◌, Some, IfOk, OnOk};
ghost use Rattle.sc_hosts.specs.Looking.{request_in};
ghost use Rattle.sc_hosts.specs.ViewChanges.{new_call_id, new_session, new_tag, own_session, with_own_session};
ghost use Rattle.sc_hosts.specs.Effects.{created_later, created_leg, play_with_initial, with_draft};

use crate::answering::request_copy;
use crate::looking::linked;
use crate::states::ends_subscription;
use sc_state::{Draft, Play};
use sc_terms::{Ask, Inside, RequestView, Role, SessionView, State, View};
use sc_value::{CloneIn, HeaderValue, NoMemory, ReqId, SessId, Text, number_after, sum, sum_u32};
use std::alloc::Global;

/// The Call-ID that the next request of one's own draws.
#[tactic(auto, unfolding(sc_hosts::specs::ViewChanges::new_call_id), using(sc_model::proofs::NameFacts::call_id_is_value))]
pub fn new_call_id(alloc: Global, view: &View) -> Result<HeaderValue, NoMemory>
    ensures { IfOk result (λ t. t ≡ new_call_id view.entry.now) }
{
    let number = sum(view.counter, 1)?;
    let mut text = Text::new(alloc);
    sc_names::call_id(
        alloc,
        view.salt.as_text(),
        view.epoch,
        view.ip,
        view.app,
        number,
        &mut text,
    )?;
    view.salt.known();
    Ok(HeaderValue::from_text(text))
}

/// The From tag that the next request of one's own draws.
#[tactic(auto, unfolding(sc_hosts::specs::ViewChanges::new_tag))]
pub fn new_tag(alloc: Global, view: &View) -> Result<Text, NoMemory>
    ensures { IfOk result (λ t. t ≡ new_tag view.entry.now) }
{
    let number = sum(view.counter, 2)?;
    let mut text = Text::new(alloc);
    sc_names::tag(
        alloc,
        view.salt.as_text(),
        view.epoch,
        view.app,
        number,
        &mut text,
    )?;
    Ok(text)
}

/// The number of the SipSession that is made next.
pub fn new_session(view: &View) -> Result<SessId, NoMemory>
    ensures { IfOk result (λ s. s ≡ new_session view.entry.now) }
{
    let number = number_after(view.sessions.len())?;
    Ok(SessId(number))
}

#[tactic(auto, unfolding(sc_hosts::specs::ViewChanges::own_session))]
fn own_session(alloc: Global, view: &View) -> Result<SessionView, NoMemory>
    ensures { IfOk result (λ s. s ≡ own_session view.entry.now) }
{
    let id = new_session(view)?;
    let call_id = new_call_id(alloc, view)?;
    let own_tag = new_tag(alloc, view)?;
    Ok(SessionView {
        id,
        state: State::Initial,
        role: Role::Uac,
        call_id,
        own_tag,
        peer_tag: None,
        linked: None,
        ready_flag: true,
        gone: false,
    })
}

#[tactic(auto, unfolding(sc_hosts::specs::ViewChanges::with_own_session))]
fn with_own_session(alloc: Global, view: &mut View) -> Result<(), NoMemory>
    ensures { OnOk result (view.new ≡ with_own_session view.old) }
{
    let session = own_session(alloc, view)?;
    let counter = sum(view.counter, 2)?;
    view.sessions.push(session)?;
    view.counter = counter;
    Ok(())
}

#[tactic(auto, unfolding(sc_hosts::specs::Effects::with_draft))]
fn with_draft(
    play: &mut Play,
    method: Text,
    hops: u8,
    initial: bool,
    ends: bool,
    sess: SessId,
) -> Result<(), NoMemory>
    ensures { OnOk result (play.new ≡ with_draft method hops initial ends sess play.old) }
{
    let number = sum_u32(play.drafted, 1)?;
    play.drafts.push(Draft {
        number,
        sess,
        initial,
        method,
        hops,
        ends,
    })?;
    play.drafted = number;
    Ok(())
}

/// Makes the draft of an initial request, with its SipSession.
#[tactic(auto, unfolding(sc_hosts::specs::Effects::play_with_initial))]
pub fn created(alloc: Global, play: &mut Play, ask: &Ask) -> Result<(), NoMemory>
    ensures { OnOk result (play.new ≡ play_with_initial ask.now play.old) }
{
    let sess = new_session(&play.view)?;
    let method = ask.method.clone_in(alloc)?;
    let ends = ends_subscription(ask.method.as_bytes(), ask.fields.as_slice());
    with_own_session(alloc, &mut play.view)?;
    with_draft(play, method, 70, true, ends, sess)
}

/// Makes the draft of a request in a dialog.
#[tactic(auto, unfolding(sc_hosts::specs::Effects::created_later))]
pub fn created_later(
    alloc: Global,
    play: &mut Play,
    sess: SessId,
    ask: &Inside,
) -> Result<(), NoMemory>
    ensures { OnOk result (play.new ≡ created_later sess ask.now play.old) }
{
    let method = ask.method.clone_in(alloc)?;
    let ends = ends_subscription(ask.method.as_bytes(), ask.fields.as_slice());
    with_draft(play, method, 70, false, ends, sess)
}

// The second leg of a request that the view shows.
#[tactic(auto, unfolding(sc_hosts::specs::Effects::created_leg))]
fn leg_of_request(alloc: Global, play: &mut Play, request: RequestView) -> Result<(), NoMemory>
    ensures { OnOk result (play.new ≡ created_leg (Some request) play.old) }
{
    let sess = new_session(&play.view)?;
    with_own_session(alloc, &mut play.view)?;
    linked(&mut play.view, request.sess, sess);
    let hops = request.hops.saturating_sub(1);
    let ends = request.ends;
    with_draft(play, request.method, hops, true, ends, sess)
}

/// Makes the draft of a received request's second leg, with its SipSession, linked to that of the
/// request.
#[tactic(auto, unfolding(sc_hosts::specs::Effects::created_leg))]
pub fn created_leg(alloc: Global, play: &mut Play, req: ReqId) -> Result<(), NoMemory>
    ensures { OnOk result (play.new ≡ created_leg (request_in play.old.view req) play.old) }
{
    match request_copy(alloc, &play.view, req)? {
        Some(request) => leg_of_request(alloc, play, request),
        None => Ok(()),
    }
}
