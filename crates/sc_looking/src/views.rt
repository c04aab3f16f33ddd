//! Looking up in a view, and what the states and roles of SipSessions tell.

ghost use Rattle.std.specs.Prelude.{◌≡◌, ◌==◌, position, filter};
ghost use Rattle.std.specs.List.{find, list_any};
ghost use Rattle.std.specs.Option.{option_copied};
ghost use Rattle.sc_hosts.specs.Looking.{is_confirmed, is_early, is_gone, is_gone_in, is_initial_state, is_open_state, is_proxy, is_request, is_session, is_terminated, is_timer, partner, request_in, same_session, session_count, session_in, timer_in};
ghost use Rattle.sc_hosts.specs.Refusals.{is_ended_session, is_begun};

use sc_pages::{Probe, Scope};
use sc_terms::{RequestView, Role, SessionView, State, TimerView, View};
use sc_value::{ReqId, SessId, TimerId};

/// Whether a request has this number.
#[derive(Clone, Copy)]
pub struct Numbered {
    pub req: ReqId,
}

impl Probe<RequestView> for Numbered {
    ghost passes = { λ p. is_request p.req };

    fn passes(&self, request: &RequestView) -> bool {
        request.id.0 == self.req.0
    }
}

/// The request of this number, None where the view shows none.
pub fn request_in(view: &View, req: ReqId) -> Option<&RequestView>
    ensures { option_copied result ≡ request_in view.entry.now req }
{
    view.requests.find(Scope::Number(req.0), &Numbered { req })
}

/// The place of the SipSession of this number.
pub fn session_place(sessions: &[SessionView], sess: SessId) -> Option<usize>
    ensures { result ≡ position (is_session sess) sessions.now }
{
    sessions.iter().position(|session| session.id.0 == sess.0)
}

#[tactic(auto, using(sc_value::proofs::ListFacts::find_position, sc_value::proofs::ListFacts::find_none))]
fn session_among(sessions: &[SessionView], sess: SessId) -> Option<&SessionView>
    ensures { option_copied result ≡ find (is_session sess) sessions.now }
{
    match session_place(sessions, sess) {
        Some(at) => Some(&sessions[at]),
        None => None,
    }
}

/// The SipSession of this number, None where there was never one.
pub fn session_in(view: &View, sess: SessId) -> Option<&SessionView>
    ensures { option_copied result ≡ session_in view.entry.now sess }
{
    session_among(view.sessions.as_slice(), sess)
}

/// The place of the active timer of this number.
pub fn timer_place(timers: &[TimerView], id: TimerId) -> Option<usize>
    ensures { result ≡ position (is_timer id) timers.now }
{
    timers.iter().position(|timer| timer.id.0 == id.0)
}

#[tactic(auto, using(sc_value::proofs::ListFacts::find_position, sc_value::proofs::ListFacts::find_none))]
fn timer_among(timers: &[TimerView], id: TimerId) -> Option<&TimerView>
    ensures { option_copied result ≡ find (is_timer id) timers.now }
{
    match timer_place(timers, id) {
        Some(at) => Some(&timers[at]),
        None => None,
    }
}

/// The active timer of this number.
pub fn timer_in(view: &View, id: TimerId) -> Option<&TimerView>
    ensures { option_copied result ≡ timer_in view.entry.now id }
{
    timer_among(view.timers.as_slice(), id)
}

/// Whether the state is INITIAL.
#[tactic(auto, unfolding(sc_hosts::specs::Looking::is_initial_state))]
pub fn is_initial_state(state: State) -> bool
    ensures { result ≡ is_initial_state state }
{
    state == State::Initial
}

/// Whether the state is that of a dialog.
#[tactic(auto, unfolding(sc_hosts::specs::Looking::is_early, sc_hosts::specs::Looking::is_confirmed))]
pub fn is_open_state(state: State) -> bool
    ensures { result ≡ is_open_state state }
{
    match state {
        State::Early | State::Confirmed => true,
        State::Initial | State::Terminated => false,
    }
}

/// Whether the state is TERMINATED.
#[tactic(auto, unfolding(sc_hosts::specs::Looking::is_terminated))]
pub fn is_terminated(state: State) -> bool
    ensures { result ≡ is_terminated state }
{
    state == State::Terminated
}

/// Whether the application proxies.
#[tactic(auto, unfolding(sc_hosts::specs::Looking::is_proxy))]
pub fn is_proxy(role: Role) -> bool
    ensures { result ≡ is_proxy role }
{
    role == Role::Proxy
}

/// Whether the SipSession of this number isn't there.
#[tactic(auto, unfolding(sc_hosts::specs::Looking::is_gone))]
pub fn is_gone_in(view: &View, sess: SessId) -> bool
    ensures { result ≡ is_gone_in view.entry.now sess }
{
    match session_in(view, sess) {
        Some(session) => session.gone,
        None => true,
    }
}

/// Whether the SipSession of this number is TERMINATED.
#[tactic(auto, unfolding(sc_hosts::specs::Refusals::is_ended_session))]
pub fn is_ended(view: &View, sess: SessId) -> bool
    ensures { result ≡ is_ended_session (session_in view.entry.now sess) }
{
    match session_in(view, sess) {
        Some(session) => is_terminated(session.state),
        None => false,
    }
}

/// Whether the SipSession of this number has left the state INITIAL.
#[tactic(auto, unfolding(sc_hosts::specs::Refusals::is_begun))]
pub fn is_begun(view: &View, sess: SessId) -> bool
    ensures { result ≡ is_begun (session_in view.entry.now sess) }
{
    match session_in(view, sess) {
        Some(session) => !is_initial_state(session.state),
        None => false,
    }
}

/// How many SipSessions there are.
#[tactic(auto, unfolding(sc_hosts::specs::Looking::session_count))]
pub fn session_count(view: &View) -> usize
    ensures { result ≡ session_count view.entry.now }
{
    view.sessions
        .as_slice()
        .iter()
        .filter(|session| !session.gone)
        .count()
}

/// The SipSession to which this one is linked.
#[tactic(auto, unfolding(sc_hosts::specs::Looking::partner))]
pub fn partner(view: &View, sess: SessId) -> Option<SessId>
    ensures { result ≡ partner view.entry.now sess }
{
    match session_in(view, sess) {
        Some(session) => session.linked,
        None => None,
    }
}

/// Whether a SipSession stands in a list.
pub fn has_session(sessions: &[SessId], sess: SessId) -> bool
    ensures { result ≡ list_any (same_session sess) sessions.now }
{
    sessions.iter().any(|other| sess.0 == other.0)
}
