//! The whole turn of an application session.

ghost use Rattle.std.specs.Prelude.{◌≡◌, IfOk, OnOk};
ghost use Rattle.sc_hosts.specs.Finishing.{after_all_calls, is_expiry, is_ready_event, outcome, outcome_of};
ghost use Rattle.sc_finish.specs.Ends.{ends, left_by, outcome_from};

use crate::faults::{drafts_ended, faulted};
use crate::later::passes_later;
use crate::readiness::is_ready;
use crate::sweeping::{lightened, swept, without_acks};
use sc_acting::all_act;
use sc_prepare::{has_expired, prepared};
use sc_state::{Outcome, Prepared, Queued, Session, Waiting, Working};
use sc_terms::{CallRecord, Config, End};
use sc_value::{AppId, NoMemory, ReqId};
use sc_work::worked_all;
use std::alloc::Global;

/// A turn that was made, as its step has it.
#[derive(Clone, Copy)]
pub struct Made<'a> {
    /// The application session that took it.
    pub app: AppId,
    /// The number of its event.
    pub event: u64,
    /// Its moment, in milliseconds.
    pub moment: u64,
    /// The calls in their order, each with its answer.
    pub calls: &'a [CallRecord],
    /// How it ended.
    pub end: End,
}

/// What follows the calls: drafts that were left, the answer to a fault, proxies, and a later
/// request that is passed on.
#[tactic(auto, unfolding(sc_hosts::specs::Finishing::after_all_calls))]
fn finished(
    alloc: Global,
    config: &Config,
    event: &Queued,
    req: Option<ReqId>,
    end: End,
    working: &mut Working,
) -> Result<(), NoMemory>
    ensures { OnOk result (working.new ≡ after_all_calls config.now event.now req end working.old) }
{
    drafts_ended(working)?;
    faulted(alloc, config, req, end, working)?;
    all_act(alloc, config, working)?;
    passes_later(alloc, config, event, req, working)
}

#[tactic(auto, unfolding(sc_hosts::specs::Finishing::is_expiry))]
fn is_expiry(event: &Queued) -> bool
    ensures { result ≡ is_expiry event.now }
{
    match event {
        Queued::Expired => true,
        _ => false,
    }
}

#[tactic(auto, unfolding(sc_hosts::specs::Finishing::is_ready_event))]
fn is_ready_event(event: &Queued) -> bool
    ensures { result ≡ is_ready_event event.now }
{
    match event {
        Queued::Ready => true,
        _ => false,
    }
}

/// Whether the application session is invalidated: by a call, by its expiry, or as it is still
/// ready.
#[tactic(auto, unfolding(crate::specs::Ends::ends))]
fn ends(event: &Queued, ended: bool, session: &Session) -> bool
    ensures { result ≡ ends event.now ended session.now }
{
    ended
        || (is_expiry(event) && has_expired(&session.view))
        || (is_ready_event(event) && is_ready(session) && session.view.ready_flag)
}

/// What an application session that goes on keeps.
#[tactic(auto, unfolding(crate::specs::Ends::left_by))]
fn left_by(alloc: Global, ends: bool, session: &mut Session) -> Result<(), NoMemory>
    ensures { OnOk result (session.new ≡ left_by ends session.old) }
{
    if !ends {
        swept(alloc, session)?;
    }
    lightened(session)
}

#[tactic(auto, using(crate::proofs::Outcomes::outcome_is))]
fn outcome_of(alloc: Global, event: &Queued, working: Working) -> Result<Outcome, NoMemory>
    ensures { IfOk result (λ o. o ≡ outcome_of event.now working) }
{
    let Working {
        play,
        known,
        orders,
        ..
    } = working;
    let ended = play.ended;
    let mut session = Session {
        view: play.view,
        known,
    };
    without_acks(&mut session.view)?;
    let ends = ends(event, ended, &session);
    left_by(alloc, ends, &mut session)?;
    Ok(Outcome {
        session,
        orders,
        ends,
    })
}

/// The outcome of a turn that begins with this: what the application session is afterwards, what it
/// sends, and whether it is invalidated.
#[tactic(auto, unfolding(crate::specs::Ends::outcome_from))]
pub fn outcome_from(
    alloc: Global,
    config: &Config,
    shown: Prepared,
    waiting: &Waiting,
    made: &Made<'_>,
) -> Result<Outcome, NoMemory>
    ensures { IfOk result
        (λ o. o ≡ outcome_from config.now shown waiting.now made.now.calls.now made.now.end) }
{
    let req = shown.req;
    let mut working = worked_all(alloc, config, shown, made.calls)?;
    finished(alloc, config, &waiting.event, req, made.end, &mut working)?;
    outcome_of(alloc, &waiting.event, working)
}

/// The outcome of a turn: what the application session is afterwards, what it sends, and whether it
/// is invalidated. The branches are given whose INVITE has had a provisional response.
#[tactic(auto, unfolding(sc_hosts::specs::Finishing::outcome, crate::specs::Ends::outcome_from))]
pub fn outcome(
    alloc: Global,
    config: &Config,
    ringing: &[u64],
    session: Session,
    waiting: &Waiting,
    made: &Made<'_>,
) -> Result<Outcome, NoMemory>
    ensures { IfOk result
        (λ o.
        o
        ≡ outcome config.now ringing.now session waiting.now made.now.moment made.now.calls.now
        made.now.end) }
{
    let shown = prepared(alloc, config, ringing, session, waiting, made.moment)?;
    outcome_from(alloc, config, shown, waiting, made)
}
