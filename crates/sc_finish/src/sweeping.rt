//! What goes away at the end of a turn.

ghost use Rattle.std.specs.Prelude.{◌≡◌, ◌++◌, false, OnOk, IfOk, map, filter};
ghost use Rattle.std.specs.List.{fold};
ghost use Rattle.std.specs.Option.{option_copied, option_map_or};
ghost use Rattle.sc_hosts.specs.Finishing.{can_derive, can_succeed, is_needed, lacks_final, swept, without_acks, without_unneeded};
ghost use Rattle.sc_hosts.specs.Looking.{request_in};
ghost use Rattle.sc_finish.specs.Sweeps.{can_be_needed, goes, id_of, stays, without};

use crate::readiness::{is_session_ready, lacks_final};
use sc_effects::{removed, tidy};
use sc_legs::leg_among;
use sc_looking::{is_first, is_gone_in, request_in};
use sc_methods::{is_ack, is_invite};
use sc_pages::{Pages, Probe, Scope};
use sc_state::{Kept, Known, Leg, Session, Way};
use sc_terms::{RequestView, SessionView, View};
use sc_value::{List, NoMemory, ReqId, SessId};
use std::alloc::Global;

#[tactic(auto, unfolding(crate::specs::Sweeps::goes))]
fn goes(known: &Known, view: &View, session: &SessionView) -> bool
    ensures { result ≡ goes known.now view.entry.now session.now }
{
    session.ready_flag && !session.gone && is_session_ready(known, view, session)
}

fn add_going(
    known: &Known,
    view: &View,
    sessions: &[SessionView],
    going: &mut List<SessId>,
) -> Result<(), NoMemory>
    ensures { OnOk result
        (going.new ≡ going.old ++ map id_of (filter (goes known.now view.entry.now) sessions.now)) }
{
    for session in sessions {
        if goes(known, view, session) {
            going.push(session.id)?;
        }
    }
    Ok(())
}

fn going_of(alloc: Global, known: &Known, view: &View) -> Result<List<SessId>, NoMemory>
    ensures { IfOk result
        (λ going.
        going ≡ map id_of (filter (goes known.now view.entry.now) view.entry.now.sessions)) }
{
    let mut going = List::new(alloc);
    add_going(known, view, view.sessions.as_slice(), &mut going)?;
    Ok(going)
}

fn all_removed(view: &mut View, going: &[SessId])
    ensures { view.new ≡ fold without view.old going.now }
{
    for sess in going {
        removed(view, *sess);
    }
}

/// Each ready SipSession goes away whose flag is set.
#[tactic(auto, unfolding(sc_hosts::specs::Finishing::swept), using(crate::proofs::Folds::swept_all))]
pub fn swept(alloc: Global, session: &mut Session) -> Result<(), NoMemory>
    ensures { OnOk result (session.new ≡ swept session.old) }
{
    let going = going_of(alloc, &session.known, &session.view)?;
    all_removed(&mut session.view, going.as_slice());
    tidy(&mut session.view)
}

#[tactic(auto, unfolding(crate::specs::Sweeps::stays))]
fn stays(request: &RequestView) -> bool
    ensures { result ≡ stays request.now }
{
    !(request.received && is_ack(request.method.as_bytes()))
}

// Whether a request stays.
#[derive(Clone, Copy)]
struct Staying;

impl Probe<RequestView> for Staying {
    ghost passes = { λ _. stays };

    fn passes(&self, request: &RequestView) -> bool {
        stays(request)
    }
}

/// A received ACK stands in its own turn alone.
#[tactic(auto, unfolding(sc_hosts::specs::Finishing::without_acks, crate::specs::Sweeps::stays), using(crate::proofs::Needed::going_busy))]
pub fn without_acks(view: &mut View) -> Result<(), NoMemory>
    ensures { OnOk result (view.new ≡ without_acks view.old) }
{
    view.requests.keep(Scope::Busy, &Staying)
}

fn lacks_final_of(view: &View, req: ReqId) -> bool
    ensures { result ≡ option_map_or lacks_final (request_in view.entry.now req) false }
{
    match request_in(view, req) {
        Some(request) => lacks_final(request),
        None => false,
    }
}

// Whether the request began the SipSession of this leg, which the application didn't end.
#[tactic(auto, unfolding(sc_hosts::specs::Finishing::can_derive))]
fn can_derive(kept: &Kept, leg: Option<&Leg>) -> bool
    ensures { result ≡ can_derive kept.now (option_copied leg.entry) }
{
    match leg {
        Some(leg) => is_first(leg.first, kept.id) && !leg.invalidated,
        None => false,
    }
}

// Whether a 2xx can still come to the INVITE.
#[tactic(auto, unfolding(sc_hosts::specs::Finishing::can_succeed))]
fn can_succeed(view: &View, leg: Option<&Leg>, kept: &Kept) -> bool
    ensures { result ≡ can_succeed view.entry.now (option_copied leg.entry) kept.now }
{
    is_invite(kept.request.get().method.as_bytes())
        && (!is_gone_in(view, kept.sess) || can_derive(kept, leg))
}

#[tactic(auto, unfolding(sc_hosts::specs::Finishing::is_needed, crate::specs::Sweeps::can_be_needed), using(crate::proofs::Needed::either))]
fn needed(view: &View, legs: &[Leg], kept: &Kept) -> bool
    ensures { result ≡ can_be_needed view.entry.now legs.now kept.now }
{
    match kept.way {
        Way::Received { .. } => lacks_final_of(view, kept.id),
        Way::Sent { .. } => {
            can_succeed(view, leg_among(legs, kept.sess), kept)
                || request_in(view, kept.id).is_some()
        }
    }
}

// Whether a kept request can still be needed.
#[derive(Clone, Copy)]
struct StillNeeded<'a> {
    view: &'a View,
    legs: &'a [Leg],
}

impl Probe<Kept> for StillNeeded<'_> {
    ghost passes = { λ p. can_be_needed p.view.now p.legs.now };

    fn passes(&self, kept: &Kept) -> bool {
        needed(self.view, self.legs, kept)
    }
}

// Those of which the request rests are needed.
fn keep_needed(view: &View, legs: &[Leg], kept: &mut Pages<Kept>) -> Result<(), NoMemory>
    ensures { OnOk result (kept.new ≡ filter (can_be_needed view.entry.now legs.now) kept.old) }
{
    let resting = view.requests.resting()?;
    kept.keep_outside(resting.as_slice(), &StillNeeded { view, legs })
}

/// Of the requests only those are kept that can still be needed.
#[tactic(auto, unfolding(sc_hosts::specs::Finishing::without_unneeded, sc_hosts::specs::Legs::leg_of, crate::specs::Sweeps::can_be_needed))]
pub fn lightened(session: &mut Session) -> Result<(), NoMemory>
    ensures { OnOk result (session.new ≡ without_unneeded session.old) }
{
    let known = &mut session.known;
    keep_needed(&session.view, known.legs.as_slice(), &mut known.kept)
}
