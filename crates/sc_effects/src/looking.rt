//! States and roles, and changes of one SipSession or its links.

ghost use Rattle.std.specs.Prelude.{◌≡◌, Some, None};
ghost use Rattle.sc_value.specs.Lists.{change_first};
ghost use Rattle.sc_hosts.specs.Looking.{in_state, is_confirmed, is_early, is_session, is_uac, linked_to, unlinked_from, without_link, without_sip_session};
ghost use Rattle.sc_hosts.specs.ViewChanges.{with_link};
ghost use Rattle.sc_effects.specs.Elements.{as_gone};

use sc_looking::{partner, session_place};
use sc_terms::{Role, SessionView, State, View};
use sc_value::SessId;

/// Whether the state is EARLY.
#[tactic(auto, unfolding(sc_hosts::specs::Looking::is_early))]
pub fn is_early(state: State) -> bool
    ensures { result ≡ is_early state }
{
    state == State::Early
}

/// Whether the state is CONFIRMED.
#[tactic(auto, unfolding(sc_hosts::specs::Looking::is_confirmed))]
pub fn is_confirmed(state: State) -> bool
    ensures { result ≡ is_confirmed state }
{
    state == State::Confirmed
}

/// Whether the application sent the request that began the SipSession.
#[tactic(auto, unfolding(sc_hosts::specs::Looking::is_uac))]
pub fn is_uac(role: Role) -> bool
    ensures { result ≡ is_uac role }
{
    role == Role::Uac
}

/// Puts a state into a SipSession.
#[tactic(auto, unfolding(sc_hosts::specs::Looking::in_state))]
pub fn in_state(session: &mut SessionView, state: State)
    ensures { session.new ≡ in_state state session.old }
{
    session.state = state;
}

#[tactic(auto, unfolding(sc_hosts::specs::Looking::linked_to))]
fn linked_to(session: &mut SessionView, other: Option<SessId>)
    ensures { session.new ≡ linked_to other session.old }
{
    session.linked = other;
}

#[tactic(auto, using(sc_value::proofs::ListFacts::change_first_position, sc_value::proofs::ListFacts::change_first_none))]
fn link_in(sessions: &mut [SessionView], sess: SessId, other: Option<SessId>)
    ensures { sessions.new ≡ change_first (is_session sess) (linked_to other) sessions.old }
{
    match session_place(sessions, sess) {
        Some(at) => linked_to(&mut sessions[at], other),
        None => {}
    }
}

fn link_one(view: &mut View, sess: SessId, other: Option<SessId>)
    ensures { view.new
        ≡ record view.old {
          sessions = change_first (is_session sess) (linked_to other) view.old.sessions;
        } }
{
    link_in(&mut view.sessions.items, sess, other);
}

/// Links two SipSessions.
#[tactic(auto, unfolding(sc_hosts::specs::ViewChanges::with_link))]
pub fn linked(view: &mut View, a: SessId, b: SessId)
    ensures { view.new ≡ with_link a b view.old }
{
    link_one(view, b, Some(a));
    link_one(view, a, Some(b));
}

#[tactic(auto, unfolding(sc_hosts::specs::Looking::unlinked_from))]
fn unlinked_from(view: &mut View, other: Option<SessId>)
    ensures { view.new ≡ unlinked_from other view.old }
{
    match other {
        Some(other) => link_one(view, other, None),
        None => {}
    }
}

/// Takes the link of a SipSession away, on both sides.
#[tactic(auto, unfolding(sc_hosts::specs::Looking::without_link))]
pub fn unlinked(view: &mut View, sess: SessId)
    ensures { view.new ≡ without_link sess view.old }
{
    let other = partner(view, sess);
    unlinked_from(view, other);
    link_one(view, sess, None);
}

#[tactic(auto, unfolding(crate::specs::Elements::as_gone))]
fn as_gone(session: &mut SessionView)
    ensures { session.new ≡ as_gone session.old }
{
    session.gone = true;
}

#[tactic(auto, using(sc_value::proofs::ListFacts::change_first_position, sc_value::proofs::ListFacts::change_first_none))]
fn end_in(sessions: &mut [SessionView], sess: SessId)
    ensures { sessions.new ≡ change_first (is_session sess) as_gone sessions.old }
{
    match session_place(sessions, sess) {
        Some(at) => as_gone(&mut sessions[at]),
        None => {}
    }
}

/// Lets a SipSession be gone, with its link.
#[tactic(auto, unfolding(sc_hosts::specs::Looking::without_sip_session, crate::specs::Elements::as_gone))]
pub fn removed(view: &mut View, sess: SessId)
    ensures { view.new ≡ without_sip_session sess view.old }
{
    unlinked(view, sess);
    end_in(&mut view.sessions.items, sess);
}
