//! The SipSessions of an INVITE that its first 2xx, or its failure, ends. That the first 2xx ends
//! the other early ones is this project's profile.

ghost use Rattle.std.specs.Prelude.{◌≡◌, map, IfOk, OnOk};
ghost use Rattle.sc_hosts.specs.DerivedSessions.{failed_session, is_overtaken, loses_tag, overtaken, overtaken_session, without_derived};
ghost use Rattle.sc_derived.specs.Marks.{legs_by_marks, marked_leg};

use crate::derived::is_of;
use sc_effects::{in_state, is_early};
use sc_looking::session_in;
use sc_state::{Known, Leg, Session};
use sc_terms::{SessionView, State, View};
use sc_value::{List, NoMemory, ReqId, SessId};
use std::alloc::Global;

// Whether the 2xx handled in another SipSession ends this one.
#[tactic(auto, unfolding(sc_hosts::specs::DerivedSessions::is_overtaken))]
fn is_overtaken(known: &Known, req: ReqId, sess: SessId, session: &SessionView) -> bool
    ensures { result ≡ is_overtaken known.now req sess session.now }
{
    is_of(known, req, session) && is_early(session.state) && !session.gone && session.id.0 != sess.0
}

// Whether the SipSession of this leg is such a one.
#[tactic(auto, unfolding(sc_hosts::specs::DerivedSessions::loses_tag))]
fn loses_tag(session: &Session, req: ReqId, sess: SessId, leg: &Leg) -> bool
    ensures { result ≡ loses_tag session.now req sess leg.now }
{
    match session_in(&session.view, leg.id) {
        Some(other) => is_overtaken(&session.known, req, sess, other),
        None => false,
    }
}

fn overtaken_marks(
    alloc: Global,
    session: &Session,
    req: ReqId,
    sess: SessId,
    legs: &[Leg],
) -> Result<List<bool>, NoMemory>
    ensures { IfOk result (λ l. l ≡ map (loses_tag session.now req sess) legs.now) }
{
    let mut marks = List::new(alloc);
    for leg in legs {
        marks.push(loses_tag(session, req, sess, leg))?;
    }
    Ok(marks)
}

#[tactic(auto, unfolding(sc_hosts::specs::DerivedSessions::overtaken_session))]
fn overtaken_session(known: &Known, req: ReqId, sess: SessId, session: &mut SessionView)
    ensures { session.new ≡ overtaken_session known.now req sess session.old }
{
    if is_overtaken(known, req, sess, session) {
        in_state(session, State::Terminated);
    }
}

fn overtaken_sessions(known: &Known, req: ReqId, sess: SessId, sessions: &mut [SessionView])
    ensures { sessions.new ≡ map (overtaken_session known.now req sess) sessions.old }
{
    for i in 0..sessions.len() {
        overtaken_session(known, req, sess, &mut sessions[i]);
    }
}

#[tactic(auto, unfolding(crate::specs::Marks::marked_leg))]
fn mark_leg(leg: &mut Leg, mark: bool)
    ensures { leg.new ≡ marked_leg mark leg.old }
{
    if mark {
        leg.overtaken = true;
    }
}

#[tactic(auto, unfolding(crate::specs::Marks::legs_by_marks), using(crate::proofs::Marking::marked_step, crate::proofs::Marking::marked_past))]
fn mark_legs(legs: &mut [Leg], marks: &[bool])
    ensures { legs.new ≡ legs_by_marks marks.now legs.old }
{
    for i in 0..marks.len() {
        if i < legs.len() {
            mark_leg(&mut legs[i], marks[i]);
        }
    }
}

fn end_overtaken(known: &Known, req: ReqId, sess: SessId, view: &mut View)
    ensures { view.new
        ≡ record view.old {
          sessions = map (overtaken_session known.now req sess) view.old.sessions;
        } }
{
    overtaken_sessions(known, req, sess, &mut view.sessions.items);
}

fn mark_known(known: &mut Known, marks: &[bool])
    ensures { known.new ≡ record known.old { legs = legs_by_marks marks.now known.old.legs } }
{
    mark_legs(&mut known.legs.items, marks);
}

/// The first 2xx to an INVITE, handled in a SipSession, ends the other early ones of the INVITE.
#[tactic(auto, unfolding(sc_hosts::specs::DerivedSessions::overtaken), using(crate::proofs::Marking::marked_is))]
pub fn overtaken(
    alloc: Global,
    session: &mut Session,
    req: ReqId,
    sess: SessId,
) -> Result<(), NoMemory>
    ensures { OnOk result (session.new ≡ overtaken req sess session.old) }
{
    let legs = session.known.legs.as_slice();
    let marks = overtaken_marks(alloc, session, req, sess, legs)?;
    end_overtaken(&session.known, req, sess, &mut session.view);
    mark_known(&mut session.known, marks.as_slice());
    Ok(())
}

#[tactic(auto, unfolding(sc_hosts::specs::DerivedSessions::failed_session))]
fn failed_session(known: &Known, req: ReqId, original: SessId, session: &mut SessionView)
    ensures { session.new ≡ failed_session known.now req original session.old }
{
    if is_of(known, req, session) && session.id.0 != original.0 {
        in_state(session, State::Terminated);
    }
}

fn failed_sessions(known: &Known, req: ReqId, original: SessId, sessions: &mut [SessionView])
    ensures { sessions.new ≡ map (failed_session known.now req original) sessions.old }
{
    for i in 0..sessions.len() {
        failed_session(known, req, original, &mut sessions[i]);
    }
}

/// A failure of an INVITE of one's own ends its derived SipSessions.
#[tactic(auto, unfolding(sc_hosts::specs::DerivedSessions::without_derived))]
pub fn without_derived(session: &mut Session, req: ReqId, original: SessId)
    ensures { session.new ≡ without_derived req original session.old }
{
    failed_sessions(
        &session.known,
        req,
        original,
        &mut session.view.sessions.items,
    );
}
