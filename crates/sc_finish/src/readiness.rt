//! Whether a SipSession, or the application session, is ready to go away (JSR 289 sections 6.1.2.2
//! and 6.2.4).

ghost use Rattle.std.specs.Prelude.{◌≡◌, not, false};
ghost use Rattle.std.specs.List.{list_all};
ghost use Rattle.std.specs.Option.{option_map_or};
ghost use Rattle.sc_hosts.specs.Branches.{records_route};
ghost use Rattle.sc_hosts.specs.Finishing.{has_left, is_idle, is_open_in, is_ready, is_session_done, is_session_ready, lacks_final};
ghost use Rattle.sc_hosts.specs.Preparing.{proxy_of};

use sc_branches::records_route;
use sc_effects::{is_confirmed, is_uac, proxy_of};
use sc_legs::leg_of;
use sc_looking::{is_initial_state, is_proxy, is_terminated};
use sc_methods::is_ack;
use sc_pages::{Probe, Scope};
use sc_state::{Known, Session};
use sc_terms::{RequestView, SessionView, View};
use sc_value::{ReqId, SessId};

/// Whether the request lacks its final response; an ACK has none.
#[tactic(auto, unfolding(sc_hosts::specs::Finishing::lacks_final))]
pub fn lacks_final(request: &RequestView) -> bool
    ensures { result ≡ lacks_final request.now }
{
    request.answered.is_none() && !is_ack(request.method.as_bytes())
}

#[tactic(auto, unfolding(sc_hosts::specs::Finishing::is_open_in))]
fn is_open_in(sess: SessId, request: &RequestView) -> bool
    ensures { result ≡ is_open_in sess request.now }
{
    request.sess.0 == sess.0 && lacks_final(request)
}

// Whether a request is open in a SipSession.
#[derive(Clone, Copy)]
struct OpenIn {
    sess: SessId,
}

impl Probe<RequestView> for OpenIn {
    ghost passes = { λ p. is_open_in p.sess };

    fn passes(&self, request: &RequestView) -> bool {
        is_open_in(self.sess, request)
    }
}

fn leaves(known: &Known, req: ReqId) -> bool
    ensures { result
        ≡ option_map_or (λ proxy. not (records_route proxy)) (proxy_of known.now req) false }
{
    match proxy_of(known, req) {
        Some(proxy) => !records_route(proxy),
        None => false,
    }
}

fn first_leaves(known: &Known, first: Option<ReqId>) -> bool
    ensures { result
        ≡ option_map_or
        (λ req. option_map_or (λ proxy. not (records_route proxy)) (proxy_of known.now req) false)
        first false }
{
    match first {
        Some(req) => leaves(known, req),
        None => false,
    }
}

// Whether the application left the path of later requests.
#[tactic(auto, unfolding(sc_hosts::specs::Finishing::has_left))]
fn has_left(known: &Known, sess: SessId) -> bool
    ensures { result ≡ has_left known.now sess }
{
    match leg_of(known, sess) {
        Some(leg) => first_leaves(known, leg.first),
        None => false,
    }
}

// Whether the SipSession ended, or its application proxies and left the path of the dialog, or it
// is that of a UAC whose request failed.
#[tactic(auto, unfolding(sc_hosts::specs::Finishing::is_idle))]
fn is_idle(known: &Known, session: &SessionView) -> bool
    ensures { result ≡ is_idle known.now session.now }
{
    is_terminated(session.state)
        || (is_proxy(session.role) && is_confirmed(session.state) && has_left(known, session.id))
        || (is_uac(session.role) && is_initial_state(session.state))
}

/// Whether a SipSession is ready to go away.
#[tactic(auto, unfolding(sc_hosts::specs::Finishing::is_session_ready))]
pub fn is_session_ready(known: &Known, view: &View, session: &SessionView) -> bool
    ensures { result ≡ is_session_ready known.now view.entry.now session.now }
{
    is_idle(known, session) && !view.requests.any(Scope::All, &OpenIn { sess: session.id })
}

#[tactic(auto, unfolding(sc_hosts::specs::Finishing::is_session_done))]
fn is_session_done(known: &Known, view: &View, session: &SessionView) -> bool
    ensures { result ≡ is_session_done known.now view.entry.now session.now }
{
    session.gone || is_session_ready(known, view, session)
}

fn all_done(known: &Known, view: &View, sessions: &[SessionView]) -> bool
    ensures { result ≡ list_all (is_session_done known.now view.entry.now) sessions.now }
{
    sessions
        .iter()
        .all(|session| is_session_done(known, view, session))
}

/// Whether the application session is ready to go away.
#[tactic(auto, unfolding(sc_hosts::specs::Finishing::is_ready))]
pub fn is_ready(session: &Session) -> bool
    ensures { result ≡ is_ready session.now }
{
    all_done(
        &session.known,
        &session.view,
        session.view.sessions.as_slice(),
    ) && session.view.timers.is_empty()
}
