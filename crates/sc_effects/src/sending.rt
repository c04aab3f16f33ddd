//! Drafts that are sent or dropped, and ACKs.

ghost use Rattle.std.specs.Prelude.{◌≡◌, ◌+◌, ◌++◌, ◌∷◌, [], ◌==◌, if◌then◌else◌, position, OnOk};
ghost use Rattle.sc_value.specs.Lists.{change_first, remove_first};
ghost use Rattle.sc_hosts.specs.Looking.{same_session, without_sip_session};
ghost use Rattle.sc_hosts.specs.RefusalParts.{draft_in};
ghost use Rattle.sc_hosts.specs.Refusals.{awaits_ack};
ghost use Rattle.sc_hosts.specs.ViewChanges.{tidy};
ghost use Rattle.sc_hosts.specs.Effects.{play_with_request, play_without_draft, sent_view, view_with_ack, without_session};

use crate::looking::removed;
use crate::tidying::tidy;
use sc_looking::{AwaitingAck, draft_place};
use sc_pages::{Change, Pages, Scope};
use sc_state::{Draft, Play};
use sc_terms::{RequestView, View};
use sc_value::{List, NoMemory, ReqId, SessId, sum, sum_u32};
use std::alloc::Global;

#[tactic(auto, unfolding(sc_hosts::specs::Effects::sent_view))]
fn sent_view(alloc: Global, view: &View, draft: Draft) -> RequestView
    ensures { result ≡ sent_view view.entry.now draft }
{
    RequestView {
        id: ReqId(view.next_request),
        sess: draft.sess,
        method: draft.method,
        received: false,
        initial: draft.initial,
        hops: draft.hops,
        answered: None,
        proxied: false,
        branches: 0,
        unacked: List::new(alloc),
        ends: draft.ends,
    }
}

fn send_draft(alloc: Global, view: &mut View, draft: Draft) -> Result<(), NoMemory>
    ensures { OnOk result
        (view.new
        ≡ record view.old {
          requests = view.old.requests ++ sent_view view.old draft ∷ [];
          next_request = view.old.next_request + 1;
          counter = view.old.counter + 1;
        }) }
{
    let next_request = sum_u32(view.next_request, 1)?;
    let counter = sum(view.counter, 1)?;
    let request = sent_view(alloc, view, draft);
    view.requests.push(request)?;
    view.next_request = next_request;
    view.counter = counter;
    Ok(())
}

fn draft_at(play: &Play, number: u32) -> Option<usize>
    ensures { result ≡ position (λ draft. draft.number == number) play.now.drafts }
{
    draft_place(play.drafts.as_slice(), number)
}

/// Sends a draft: it gets its number and draws its branch.
#[tactic(auto, unfolding(sc_hosts::specs::Effects::play_with_request), using(sc_value::proofs::ListFacts::find_position, sc_value::proofs::ListFacts::find_none, sc_value::proofs::ListFacts::remove_first_position))]
pub fn sent(alloc: Global, play: &mut Play, number: u32) -> Result<(), NoMemory>
    ensures { OnOk result
        (play.new ≡ play_with_request number (draft_in play.old number) play.old) }
{
    match draft_at(play, number) {
        Some(at) => {
            let draft = play.drafts.items.remove(at);
            send_draft(alloc, &mut play.view, draft)
        }
        None => Ok(()),
    }
}

fn drop_session(view: &mut View, draft: Draft) -> Result<(), NoMemory>
    ensures { OnOk result
        (view.new
        ≡ (if draft.initial then tidy (without_sip_session draft.sess view.old) else view.old)) }
{
    if draft.initial {
        removed(view, draft.sess);
        return tidy(view);
    }
    Ok(())
}

/// Drops a draft. An initial one takes its SipSession with it.
#[tactic(auto, unfolding(sc_hosts::specs::Effects::play_without_draft), using(sc_value::proofs::ListFacts::find_position, sc_value::proofs::ListFacts::find_none, sc_value::proofs::ListFacts::remove_first_position))]
pub fn discarded(play: &mut Play, number: u32) -> Result<(), NoMemory>
    ensures { OnOk result
        (play.new ≡ play_without_draft number (draft_in play.old number) play.old) }
{
    match draft_at(play, number) {
        Some(at) => {
            let draft = play.drafts.items.remove(at);
            drop_session(&mut play.view, draft)
        }
        None => Ok(()),
    }
}

fn place_of(sessions: &[SessId], sess: SessId) -> Option<usize>
    ensures { result ≡ position (same_session sess) sessions.now }
{
    sessions.iter().position(|other| sess.0 == other.0)
}

#[tactic(auto, using(sc_value::proofs::ListFacts::remove_first_position, sc_value::proofs::ListFacts::remove_first_none))]
fn remove_session(sessions: &mut List<SessId>, sess: SessId)
    ensures { sessions.new ≡ remove_first (same_session sess) sessions.old }
{
    match place_of(sessions.as_slice(), sess) {
        Some(at) => {
            let _removed = sessions.items.remove(at);
        }
        None => {}
    }
}

#[tactic(auto, unfolding(sc_hosts::specs::Effects::without_session))]
fn without_session(request: &mut RequestView, sess: SessId)
    ensures { request.new ≡ without_session sess request.old }
{
    remove_session(&mut request.unacked, sess);
}

// A SipSession whose 2xx has its ACK.
#[derive(Clone, Copy)]
struct AckNoted {
    sess: SessId,
}

impl Change<RequestView> for AckNoted {
    ghost changed = { λ p. without_session p.sess };

    fn change(&self, request: &mut RequestView) -> Result<(), NoMemory> {
        without_session(request, self.sess);
        Ok(())
    }
}

#[tactic(auto, using(sc_terms::proofs::RestLaws::awaiting_busy))]
fn ack_in(requests: &mut Pages<RequestView>, sess: SessId) -> Result<(), NoMemory>
    ensures { OnOk result
        (requests.new ≡ change_first (awaits_ack sess) (without_session sess) requests.old) }
{
    requests.change_first(Scope::Busy, &AwaitingAck { sess }, &AckNoted { sess })
}

/// Acknowledges the 2xx in a SipSession of the INVITE of lowest number: the ACK draws its branch.
#[tactic(auto, unfolding(sc_hosts::specs::Effects::view_with_ack))]
pub fn acked(view: &mut View, sess: SessId) -> Result<(), NoMemory>
    ensures { OnOk result (view.new ≡ view_with_ack sess view.old) }
{
    let counter = sum(view.counter, 1)?;
    ack_in(&mut view.requests, sess)?;
    view.counter = counter;
    tidy(view)
}
