//! The SipSession of a later request (RFC 3261 section 12.2.2).

ghost use Rattle.std.specs.Prelude.{◌≡◌, position, option_map};
ghost use Rattle.std.specs.List.{find};
ghost use Rattle.std.specs.Option.{option_copied};
ghost use Rattle.sc_hosts.specs.Legs.{between_peers, in_dialog_by, session_for, takes_request};

use crate::legs::caller_of;
use crate::tags::{from_tag, same_tag, to_tag};
use sc_looking::{is_open_state, is_proxy};
use sc_state::{Known, Session};
use sc_terms::SessionView;
use sc_value::{Request, SessId, Text};

// A proxied dialog has two peers, whose requests come in both directions.
#[tactic(auto, unfolding(sc_hosts::specs::Legs::between_peers))]
fn between_peers(caller: Option<&Text>, callee: Option<&Text>, request: &Request) -> bool
    ensures { result
        ≡ between_peers (option_copied caller.entry) (option_copied callee.entry) request.now }
{
    let from = from_tag(request);
    let to = to_tag(request);
    (same_tag(caller, from) && same_tag(callee, to))
        || (same_tag(callee, from) && same_tag(caller, to))
}

#[tactic(auto, unfolding(sc_hosts::specs::Legs::in_dialog_by))]
fn in_dialog_by(session: &SessionView, caller: Option<&Text>, request: &Request) -> bool
    ensures { result ≡ in_dialog_by session.now (option_copied caller.entry) request.now }
{
    if is_proxy(session.role) {
        return between_peers(caller, session.peer_tag.as_ref(), request);
    }
    same_tag(Some(&session.own_tag), to_tag(request))
        && same_tag(session.peer_tag.as_ref(), from_tag(request))
}

// Whether it is an open dialog of this Call-ID and these tags.
#[tactic(auto, unfolding(sc_hosts::specs::Legs::takes_request))]
fn takes_request(known: &Known, request: &Request, session: &SessionView) -> bool
    ensures { result ≡ takes_request known.now request.now session.now }
{
    is_open_state(session.state)
        && !session.gone
        && session.call_id.as_bytes() == request.head.call_id.as_bytes()
        && in_dialog_by(session, caller_of(known, session.id), request)
}

fn taking_place(known: &Known, request: &Request, sessions: &[SessionView]) -> Option<usize>
    ensures { result ≡ position (takes_request known.now request.now) sessions.now }
{
    sessions
        .iter()
        .position(|session| takes_request(known, request, session))
}

#[tactic(auto, using(sc_value::proofs::ListFacts::find_position, sc_value::proofs::ListFacts::find_none))]
fn taking_among(known: &Known, request: &Request, sessions: &[SessionView]) -> Option<SessId>
    ensures { result
        ≡ option_map (λ s. s.id) (find (takes_request known.now request.now) sessions.now) }
{
    match taking_place(known, request, sessions) {
        Some(at) => Some(sessions[at].id),
        None => None,
    }
}

/// The SipSession whose dialog a request with a To tag is of.
#[tactic(auto, unfolding(sc_hosts::specs::Legs::session_for))]
pub fn session_for(session: &Session, request: &Request) -> Option<SessId>
    ensures { result ≡ session_for session.now request.now }
{
    taking_among(&session.known, request, session.view.sessions.as_slice())
}
