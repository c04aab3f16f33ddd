//! The SipSession of a response to an initial INVITE or SUBSCRIBE: derived SipSessions (JSR 289
//! section 6.2.3).

ghost use Rattle.std.specs.Prelude.{◌≡◌, ◌&&◌, None, nat_lt, not, option_and_then, option_map, position, IfOk};
ghost use Rattle.std.specs.List.{find};
ghost use Rattle.std.specs.Option.{option_copied};
ghost use Rattle.sc_value.specs.Lists.{change_first};
ghost use Rattle.sc_hosts.specs.Looking.{is_session, session_count};
ghost use Rattle.sc_hosts.specs.DerivedSessions.{claims, derived_got, derived_leg, derived_session, handled_in, handling, handling_by, handling_of, is_of, is_subscribed, sessions_of, takes_tag};
ghost use Rattle.sc_hosts.specs.DerivedSessions.{Handling};
ghost use Rattle.sc_hosts.specs.PreparingResponses.{is_invalid};
ghost use Rattle.sc_derived.specs.Claims.{claims_of, with_peer_tag};

use sc_effects::{is_uac, new_session};
use sc_legs::{first_got, is_invalid, is_overtaken_leg, leg_of, same_tag};
use sc_looking::{is_first, session_count, session_place};
use sc_messages::makes_dialog;
use sc_methods::{is_invite, is_subscribe, is_success};
use sc_state::{Got, Known, Leg, Session};
use sc_terms::{SessionView, State, View};
use sc_value::{CloneIn, List, NoMemory, ReqId, Request, Response, SessId, Text, tag};
use std::alloc::Global;

// How many SipSessions there are at most.
const MOST_SESSIONS: usize = 64;

/// Whether a SipSession is one of the request.
#[tactic(auto, unfolding(sc_hosts::specs::DerivedSessions::is_of))]
pub fn is_of(known: &Known, req: ReqId, session: &SessionView) -> bool
    ensures { result ≡ is_of known.now req session.now }
{
    match leg_of(known, session.id) {
        Some(leg) => is_first(leg.first, req),
        None => false,
    }
}

// Whether it has this tag; one that was overtaken has lost it.
#[tactic(auto, unfolding(sc_hosts::specs::DerivedSessions::claims))]
fn claims(known: &Known, tag: &Text, session: &SessionView) -> bool
    ensures { result ≡ claims known.now tag.now session.now }
{
    same_tag(session.peer_tag.as_ref(), Some(tag)) && !is_overtaken_leg(known, session.id)
}

#[tactic(auto, unfolding(crate::specs::Claims::claims_of))]
fn claims_of(known: &Known, req: ReqId, tag: &Text, session: &SessionView) -> bool
    ensures { result ≡ claims_of known.now req tag.now session.now }
{
    is_of(known, req, session) && claims(known, tag, session)
}

fn claimer_place(known: &Known, req: ReqId, tag: &Text, sessions: &[SessionView]) -> Option<usize>
    ensures { result ≡ position (claims_of known.now req tag.now) sessions.now }
{
    sessions
        .iter()
        .position(|session| claims_of(known, req, tag, session))
}

#[tactic(auto, using(sc_value::proofs::ListFacts::find_position, sc_value::proofs::ListFacts::find_none))]
fn claimer_among(known: &Known, req: ReqId, tag: &Text, sessions: &[SessionView]) -> Option<SessId>
    ensures { result
        ≡ option_map (λ s. s.id) (find (claims_of known.now req tag.now) sessions.now) }
{
    match claimer_place(known, req, tag, sessions) {
        Some(at) => Some(sessions[at].id),
        None => None,
    }
}

// The SipSession of the request that has this tag.
#[tactic(auto, unfolding(sc_hosts::specs::DerivedSessions::sessions_of), using(crate::proofs::Claiming::claimer_found))]
fn claimer(session: &Session, req: ReqId, tag: &Text) -> Option<SessId>
    ensures { result
        ≡ option_map (λ s. s.id)
        (find (claims session.now.known tag.now) (sessions_of session.now req)) }
{
    claimer_among(&session.known, req, tag, session.view.sessions.as_slice())
}

#[tactic(auto, unfolding(crate::specs::Claims::with_peer_tag))]
fn set_peer_tag(session: &mut SessionView, tag: Text)
    ensures { session.new ≡ with_peer_tag tag session.old }
{
    session.peer_tag = Some(tag);
}

#[tactic(auto, using(sc_value::proofs::ListFacts::change_first_position, sc_value::proofs::ListFacts::change_first_none))]
fn tag_in(sessions: &mut [SessionView], sess: SessId, tag: Text)
    ensures { sessions.new ≡ change_first (is_session sess) (with_peer_tag tag) sessions.old }
{
    match session_place(sessions, sess) {
        Some(at) => set_peer_tag(&mut sessions[at], tag),
        None => {}
    }
}

// The original takes the tag.
#[tactic(auto, unfolding(sc_hosts::specs::DerivedSessions::handled_in, crate::specs::Claims::with_peer_tag))]
fn take_tag(
    alloc: Global,
    session: &mut Session,
    req: ReqId,
    original: &SessionView,
    came: Option<&Request>,
    tag: &Text,
) -> Result<SessId, NoMemory>
    ensures { IfOk result
        (λ sess.
        handled_in session.old req original.now (option_copied came.entry)
        (Handling.Takes tag.now) ≡ (sess, session.new)) }
{
    let tag = tag.clone_in(alloc)?;
    tag_in(&mut session.view.sessions.items, original.id, tag);
    Ok(original.id)
}

#[tactic(auto, unfolding(sc_hosts::specs::DerivedSessions::derived_session))]
fn derived_session(
    alloc: Global,
    view: &View,
    original: &SessionView,
    tag: &Text,
) -> Result<SessionView, NoMemory>
    ensures { IfOk result (λ s. s ≡ derived_session view.entry.now original.now tag.now) }
{
    let id = new_session(view)?;
    let peer_tag = tag.clone_in(alloc)?;
    let call_id = original.call_id.clone_in(alloc)?;
    let own_tag = original.own_tag.clone_in(alloc)?;
    Ok(SessionView {
        id,
        state: State::Initial,
        role: original.role,
        call_id,
        own_tag,
        peer_tag: Some(peer_tag),
        linked: None,
        ready_flag: true,
        gone: false,
    })
}

// The number of the request, where it came.
#[tactic(auto, unfolding(sc_hosts::specs::DerivedSessions::derived_got))]
fn derived_got(alloc: Global, came: Option<&Request>) -> Result<List<Got>, NoMemory>
    ensures { IfOk result (λ l. l ≡ derived_got (option_copied came.entry)) }
{
    match came {
        Some(request) => first_got(alloc, request),
        None => Ok(List::new(alloc)),
    }
}

fn caller_of_leg(alloc: Global, leg: Option<&Leg>) -> Result<Option<Text>, NoMemory>
    ensures { IfOk result (λ t. t ≡ option_and_then (λ leg. leg.caller) (option_copied leg.entry)) }
{
    match leg {
        Some(leg) => leg.caller.clone_in(alloc),
        None => Ok(None),
    }
}

// A derived SipSession has had the request that it is of, and no other of its original's.
#[tactic(auto, unfolding(sc_hosts::specs::DerivedSessions::derived_leg, sc_hosts::specs::Legs::new_leg), using(crate::proofs::Deriving::derived_from))]
fn derived_leg(
    alloc: Global,
    sess: SessId,
    original: Option<&Leg>,
    req: ReqId,
    came: Option<&Request>,
) -> Result<Leg, NoMemory>
    ensures { IfOk result
        (λ l. l ≡ derived_leg sess (option_copied original.entry) req (option_copied came.entry)) }
{
    let caller = caller_of_leg(alloc, original)?;
    let got = derived_got(alloc, came)?;
    Ok(Leg {
        id: sess,
        first: Some(req),
        caller,
        dialog: None,
        got,
        invalidated: false,
        overtaken: false,
    })
}

// The response gets a SipSession of its own.
#[tactic(auto, unfolding(sc_hosts::specs::DerivedSessions::handled_in))]
fn derive(
    alloc: Global,
    session: &mut Session,
    req: ReqId,
    original: &SessionView,
    came: Option<&Request>,
    tag: &Text,
) -> Result<SessId, NoMemory>
    ensures { IfOk result
        (λ sess.
        handled_in session.old req original.now (option_copied came.entry)
        (Handling.Derives tag.now) ≡ (sess, session.new)) }
{
    let id = new_session(&session.view)?;
    let derived = derived_session(alloc, &session.view, original, tag)?;
    let leg = derived_leg(alloc, id, leg_of(&session.known, original.id), req, came)?;
    session.view.sessions.push(derived)?;
    session.known.legs.push(leg)?;
    Ok(id)
}

// Whether a further SipSession can be derived from this one.
#[tactic(auto, unfolding(sc_hosts::specs::Looking::session_count))]
fn can_derive(session: &Session, sess: SessId) -> bool
    ensures { result
        ≡ (nat_lt (session_count session.now.view) 64 && not (is_invalid session.now.known sess)) }
{
    session_count(&session.view) < MOST_SESSIONS && !is_invalid(&session.known, sess)
}

// No SipSession has the tag.
#[tactic(auto, unfolding(sc_hosts::specs::DerivedSessions::handling_of, sc_hosts::specs::DerivedSessions::handled_in, sc_hosts::specs::PreparingResponses::is_invalid))]
fn handled_unclaimed(
    alloc: Global,
    session: &mut Session,
    req: ReqId,
    original: &SessionView,
    came: Option<&Request>,
    tag: &Text,
) -> Result<SessId, NoMemory>
    ensures { IfOk result
        (λ sess.
        handled_in session.old req original.now (option_copied came.entry)
        (handling_of session.old original.now tag.now None) ≡ (sess, session.new)) }
{
    if original.peer_tag.is_none() {
        return take_tag(alloc, session, req, original, came, tag);
    }
    if can_derive(session, original.id) {
        return derive(alloc, session, req, original, came, tag);
    }
    Ok(original.id)
}

// The tag is that of a SipSession of the request, or of none.
#[tactic(auto, using(crate::proofs::Claiming::handled_claimed, crate::proofs::Claiming::handling_unclaimed))]
fn handled_of(
    alloc: Global,
    session: &mut Session,
    req: ReqId,
    original: &SessionView,
    came: Option<&Request>,
    tag: &Text,
) -> Result<SessId, NoMemory>
    ensures { IfOk result
        (λ sess.
        handled_in session.old req original.now (option_copied came.entry)
        (handling_of session.old original.now tag.now
        (find (claims session.old.known tag.now) (sessions_of session.old req)))
        ≡ (sess, session.new)) }
{
    match claimer(session, req, tag) {
        Some(sess) => Ok(sess),
        None => handled_unclaimed(alloc, session, req, original, came, tag),
    }
}

// A 101 to 299 to the initial INVITE.
#[tactic(auto, unfolding(sc_hosts::specs::DerivedSessions::handling_by, sc_hosts::specs::DerivedSessions::handled_in))]
fn handled_by(
    alloc: Global,
    session: &mut Session,
    req: ReqId,
    original: &SessionView,
    came: Option<&Request>,
    tag: Option<&Text>,
) -> Result<SessId, NoMemory>
    ensures { IfOk result
        (λ sess.
        handled_in session.old req original.now (option_copied came.entry)
        (handling_by session.old req original.now (option_copied tag.entry))
        ≡ (sess, session.new)) }
{
    match tag {
        Some(tag) => handled_of(alloc, session, req, original, came, tag),
        None => Ok(original.id),
    }
}

// A 2xx to a SUBSCRIBE gives its SipSession the tag.
#[tactic(auto, unfolding(sc_hosts::specs::DerivedSessions::takes_tag, sc_hosts::specs::DerivedSessions::handled_in))]
fn handled_subscribed(
    alloc: Global,
    session: &mut Session,
    req: ReqId,
    original: &SessionView,
    came: Option<&Request>,
    tag: Option<&Text>,
) -> Result<SessId, NoMemory>
    ensures { IfOk result
        (λ sess.
        handled_in session.old req original.now (option_copied came.entry)
        (takes_tag original.now (option_copied tag.entry)) ≡ (sess, session.new)) }
{
    match tag {
        Some(tag) if original.peer_tag.is_none() => {
            take_tag(alloc, session, req, original, came, tag)
        }
        Some(_) | None => Ok(original.id),
    }
}

// Whether it is a 2xx to SUBSCRIBE that its UAC gets.
#[tactic(auto, unfolding(sc_hosts::specs::DerivedSessions::is_subscribed))]
fn is_subscribed(original: &SessionView, request: &Request, response: &Response) -> bool
    ensures { result ≡ is_subscribed original.now request.now response.now }
{
    is_subscribe(request.method.as_bytes()) && is_success(response.code) && is_uac(original.role)
}

/// The SipSession in which a response to an initial request is handled, given the one of the
/// request, which may take the tag, and the request itself where it came and wasn't sent; where it
/// is a new SipSession, it is there afterwards.
#[tactic(auto, unfolding(sc_hosts::specs::DerivedSessions::handling, sc_hosts::specs::DerivedSessions::handled_in))]
pub fn handled(
    alloc: Global,
    session: &mut Session,
    req: ReqId,
    original: &SessionView,
    came: Option<&Request>,
    request: &Request,
    response: &Response,
) -> Result<SessId, NoMemory>
    ensures { IfOk result
        (λ sess.
        handled_in session.old req original.now (option_copied came.entry)
        (handling session.old req original.now request.now response.now)
        ≡ (sess, session.new)) }
{
    let tag = tag(&response.head.to);
    if is_invite(request.method.as_bytes()) && makes_dialog(response.code) {
        return handled_by(alloc, session, req, original, came, tag);
    }
    if is_subscribed(original, request, response) {
        return handled_subscribed(alloc, session, req, original, came, tag);
    }
    Ok(original.id)
}
