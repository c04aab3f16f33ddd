//! What each accepted call does, and all calls of a turn.

ghost use Rattle.std.specs.Prelude.{◌≡◌, OnOk, IfOk};
ghost use Rattle.sc_hosts.specs.Refusals.{refusal};
ghost use Rattle.sc_hosts.specs.Working.{after_one_call, does_by, effects_of_call, starts, worked_all};
ghost use Rattle.sc_sending.specs.Pieces.{worked_on};

use crate::ending::invalidates;
use sc_effects::{after_listed, begun};
use sc_legs::stop_proxy;
use sc_refusals::refusal;
use sc_sending::{
    acknowledges, answering_begun, answering_by, cancels, directs, drafts_later, drafts_leg,
    drafts_own, forgets, proxies, sends,
};
use sc_state::{Prepared, Working};
use sc_terms::{Call, CallRecord, Config};
use sc_value::{List, NoMemory};
use std::alloc::Global;

/// An application session as the calls of its turn begin.
#[tactic(auto, unfolding(sc_hosts::specs::Working::starts))]
pub fn starts(alloc: Global, shown: Prepared) -> Working
    ensures { result ≡ starts shown }
{
    Working {
        play: begun(alloc, shown.view),
        known: shown.known,
        written: List::new(alloc),
        orders: shown.orders,
    }
}

/// Does what an accepted call does.
#[tactic(auto, unfolding(sc_hosts::specs::Working::effects_of_call))]
pub fn does(
    alloc: Global,
    config: &Config,
    working: &mut Working,
    call: &Call,
) -> Result<(), NoMemory>
    ensures { OnOk result (working.new ≡ effects_of_call config.now working.old call.now) }
{
    match call {
        Call::Respond { req, answer } => answering_by(alloc, config, *req, answer, working),
        Call::CreateRequest { ask } => drafts_own(alloc, ask, working),
        Call::CreateInDialog { ask, .. } => drafts_later(alloc, ask, working),
        Call::B2bCreate { req, uri } => drafts_leg(alloc, *req, uri, working),
        Call::SetDirective {
            draft,
            directive,
            origin,
        } => {
            directs(*draft, *directive, *origin, working);
            Ok(())
        }
        Call::Send { draft } => sends(alloc, config, *draft, working),
        Call::Discard { draft } => {
            forgets(*draft, working);
            Ok(())
        }
        Call::Ack { sess, body } => acknowledges(alloc, config, *sess, body, working),
        Call::Cancel { req } => cancels(working, *req),
        Call::ProxyTo {
            req,
            targets,
            options,
        } => proxies(
            alloc,
            *req,
            targets.as_slice(),
            *options,
            &mut working.known,
        ),
        Call::ProxyCancel { req } => { stop_proxy(&mut working.known, *req) }
        Call::B2bRespond { sess, answer } => {
            answering_begun(alloc, config, *sess, answer, working)
        }
        Call::InvalidateSession { sess } => invalidates(alloc, config, *sess, working),
        Call::Link { .. }
        | Call::Unlink { .. }
        | Call::StartTimer { .. }
        | Call::CancelTimer { .. }
        | Call::SetAttribute { .. }
        | Call::RemoveAttribute { .. }
        | Call::SetExpires { .. }
        | Call::SetReadyFlag { .. }
        | Call::InvalidateApplication => Ok(()),
    }
}

#[tactic(auto, unfolding(sc_hosts::specs::Working::does_by))]
fn does_by(
    alloc: Global,
    config: &Config,
    working: &mut Working,
    call: &Call,
) -> Result<(), NoMemory>
    ensures { OnOk result
        (working.new
        ≡ does_by config.now working.old call.now (refusal working.old.play call.now)) }
{
    match refusal(&working.play, call) {
        Some(_) => Ok(()),
        None => does(alloc, config, working, call),
    }
}

/// Makes one call more: an accepted one does what it does, and each is listed.
#[tactic(auto, unfolding(sc_hosts::specs::Working::after_one_call), using(crate::proofs::Plays::does_by_play))]
pub fn worked(
    alloc: Global,
    config: &Config,
    working: &mut Working,
    call: &Call,
) -> Result<(), NoMemory>
    ensures { OnOk result (working.new ≡ after_one_call config.now working.old call.now) }
{
    does_by(alloc, config, working, call)?;
    let _answer = after_listed(alloc, &mut working.play, call)?;
    Ok(())
}

#[tactic(auto, unfolding(sc_sending::specs::Pieces::worked_on))]
fn work_all(
    alloc: Global,
    config: &Config,
    working: &mut Working,
    made: &[CallRecord],
) -> Result<(), NoMemory>
    ensures { OnOk result (working.new ≡ worked_on config.now working.old made.now) }
{
    for call in made {
        worked(alloc, config, working, &call.call)?;
    }
    Ok(())
}

/// Makes all calls of a turn, in their order.
#[tactic(auto, unfolding(sc_hosts::specs::Working::worked_all, sc_sending::specs::Pieces::worked_on))]
pub fn worked_all(
    alloc: Global,
    config: &Config,
    shown: Prepared,
    made: &[CallRecord],
) -> Result<Working, NoMemory>
    ensures { IfOk result (λ working. working ≡ worked_all config.now shown made.now) }
{
    let mut working = starts(alloc, shown);
    work_all(alloc, config, &mut working, made)?;
    Ok(working)
}
