//! Which requests a view shows.

ghost use Rattle.std.specs.Prelude.{◌≡◌, ◌==◌, not, length, filter, OnOk};
ghost use Rattle.sc_hosts.specs.ViewChanges.{tidy};
ghost use Rattle.sc_effects.specs.Tidied.{is_there, stands_in, visible_requests, with_there_in};

use sc_looking::session_place;
use sc_pages::{Change, Pages, Probe, Scope};
use sc_terms::{RequestView, SessionView, View};
use sc_value::{List, NoMemory, SessId};

#[tactic(auto, unfolding(crate::specs::Tidied::is_there, sc_hosts::specs::Looking::is_gone), using(sc_value::proofs::ListFacts::find_position, sc_value::proofs::ListFacts::find_none))]
fn is_there(sessions: &[SessionView], sess: SessId) -> bool
    ensures { result ≡ is_there sessions.now sess }
{
    match session_place(sessions, sess) {
        Some(at) => !sessions[at].gone,
        None => false,
    }
}

fn keep_there(sessions: &[SessionView], list: &mut List<SessId>)
    ensures { list.new ≡ filter (is_there sessions.now) list.old }
{
    list.items.retain(|sess| is_there(sessions, *sess));
}

#[tactic(auto, unfolding(crate::specs::Tidied::with_there_in))]
fn with_there(sessions: &[SessionView], request: &mut RequestView)
    ensures { request.new ≡ with_there_in sessions.now request.old }
{
    keep_there(sessions, &mut request.unacked);
}

// What the SipSessions that are there leave of those that wait for an ACK.
#[derive(Clone, Copy)]
struct There<'a> {
    sessions: &'a [SessionView],
}

impl Probe<RequestView> for There<'_> {
    ghost passes = { λ _ request. not (length request.unacked == 0) };

    fn passes(&self, request: &RequestView) -> bool {
        !request.unacked.is_empty()
    }
}

impl Change<RequestView> for There<'_> {
    ghost changed = { λ p. with_there_in p.sessions.now };

    fn change(&self, request: &mut RequestView) -> Result<(), NoMemory> {
        with_there(self.sessions, request);
        Ok(())
    }
}

#[tactic(auto, unfolding(crate::specs::Tidied::stands_in))]
fn stands(sessions: &[SessionView], request: &RequestView) -> bool
    ensures { result ≡ stands_in sessions.now request.now }
{
    if request.initial {
        is_there(sessions, request.sess) || !request.unacked.is_empty()
    } else {
        request.answered.is_none() || !request.unacked.is_empty()
    }
}

// Whether a request stands.
#[derive(Clone, Copy)]
struct Standing<'a> {
    sessions: &'a [SessionView],
}

impl Probe<RequestView> for Standing<'_> {
    ghost passes = { λ p. stands_in p.sessions.now };

    fn passes(&self, request: &RequestView) -> bool {
        stands(self.sessions, request)
    }
}

#[tactic(auto, unfolding(crate::specs::Tidied::visible_requests), using(crate::proofs::Views::waiting_busy, crate::proofs::Views::none_waiting, crate::proofs::Views::going_busy))]
fn tidied(sessions: &[SessionView], requests: &mut Pages<RequestView>) -> Result<(), NoMemory>
    ensures { OnOk result (requests.new ≡ visible_requests sessions.now requests.old) }
{
    let there = There { sessions };
    requests.change_all(Scope::Busy, &there, &there)?;
    requests.keep(Scope::Busy, &Standing { sessions })
}

/// Leaves the requests that a view shows: an initial one as long as its SipSession is there, or one
/// that waits for an ACK; every other until its final response, and a sent INVITE until each 2xx
/// has its ACK.
#[tactic(auto, using(crate::proofs::Views::tidied_is))]
pub fn tidy(view: &mut View) -> Result<(), NoMemory>
    ensures { OnOk result (view.new ≡ tidy view.old) }
{
    tidied(view.sessions.as_slice(), &mut view.requests)
}
