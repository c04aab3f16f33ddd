//! The beginning of a turn, for each event.

ghost use Rattle.std.specs.Prelude.{◌≡◌, None, Some, IfOk};
ghost use Rattle.std.specs.List.{find};
ghost use Rattle.sc_state.specs.declared.queue.Queued.{Queued};
ghost use Rattle.sc_hosts.specs.Branches.{has_branch};
ghost use Rattle.sc_hosts.specs.PreparingResponses.{is_sent_on, prepared_response};
ghost use Rattle.sc_hosts.specs.Preparing.{prepared_for, prepared_session};
ghost use Rattle.sc_shown.specs.Shown.{prepared_as};

use crate::cancels::prepared_cancel;
use crate::later::prepared_request;
use crate::receiving::{next_id, received};
use crate::timers::{prepared_branch_timer, prepared_expiry, prepared_timer};
use sc_legs::session_for;
use sc_shown::{Shown, branch_copy, prepared_branch, prepared_own, sent_copy, showing, silent};
use sc_state::{Kept, Prepared, Proxy, Queued, Session, Waiting};
use sc_terms::{Config, Event};
use sc_value::{Address, CloneIn, List, NoMemory, Region, Request, Response, SessId, Shared, Text};
use std::alloc::Global;

// The request that begins the application session.
#[tactic(auto, unfolding(sc_hosts::specs::Preparing::prepared_for, sc_hosts::specs::PreparingRequests::showing))]
fn initial(
    alloc: Global,
    config: &Config,
    ringing: &[u64],
    session: &mut Session,
    number: u64,
    region: Region,
    subscriber: &Text,
    popped: &Option<Address>,
    request: &Shared<Request>,
) -> Result<Shown, NoMemory>
    ensures { IfOk result
        (λ s.
        prepared_for config.now ringing.now session.old number
        (Queued.Initial region subscriber.now popped.now request.now)
        ≡ prepared_as session.new s) }
{
    let req = next_id(session);
    let sess = SessId(1);
    received(alloc, session, number, sess, true, false, request)?;
    let subscriber = subscriber.clone_in(alloc)?;
    let popped = popped.clone_in(alloc)?;
    let request = request.clone_in(alloc)?;
    let event = Event::Initial {
        req,
        sess,
        region,
        subscriber,
        popped,
        request,
    };
    Ok(showing(event, Some(req), List::new(alloc)))
}

#[tactic(auto, unfolding(sc_hosts::specs::PreparingResponses::prepared_response))]
fn own_response(
    alloc: Global,
    session: &mut Session,
    branch: u64,
    response: &Shared<Response>,
    kept: &Kept,
) -> Result<Shown, NoMemory>
    ensures { IfOk result
        (λ s.
        prepared_response session.old branch response.now (Some kept.now)
        (find (has_branch branch) session.old.known.proxies) ≡ prepared_as session.new s) }
{
    prepared_own(alloc, session, kept, response)
}

#[tactic(auto, unfolding(sc_hosts::specs::PreparingResponses::prepared_response))]
fn proxied_response(
    alloc: Global,
    session: &mut Session,
    branch: u64,
    response: &Shared<Response>,
    proxy: &Proxy,
) -> Result<Shown, NoMemory>
    ensures { IfOk result
        (λ s.
        prepared_response session.old branch response.now None (Some proxy.now)
        ≡ prepared_as session.new s) }
{
    prepared_branch(alloc, session, proxy, branch, response)
}

#[tactic(auto, unfolding(sc_hosts::specs::PreparingResponses::prepared_response, sc_hosts::specs::PreparingRequests::silent))]
fn branch_response(
    alloc: Global,
    session: &mut Session,
    branch: u64,
    response: &Shared<Response>,
) -> Result<Shown, NoMemory>
    ensures { IfOk result
        (λ s.
        prepared_response session.old branch response.now None
        (find (has_branch branch) session.old.known.proxies) ≡ prepared_as session.new s) }
{
    match branch_copy(alloc, &session.known, branch)? {
        Some(proxy) => proxied_response(alloc, session, branch, response, &proxy),
        None => Ok(silent(List::new(alloc))),
    }
}

// A response on this branch, to a request of one's own or to a proxied one.
fn prepared_response(
    alloc: Global,
    session: &mut Session,
    branch: u64,
    response: &Shared<Response>,
) -> Result<Shown, NoMemory>
    ensures { IfOk result
        (λ s.
        prepared_response session.old branch response.now
        (find (is_sent_on branch) session.old.known.kept)
        (find (has_branch branch) session.old.known.proxies) ≡ prepared_as session.new s) }
{
    match sent_copy(alloc, &session.known, branch)? {
        Some(kept) => own_response(alloc, session, branch, response, &kept),
        None => branch_response(alloc, session, branch, response),
    }
}

#[tactic(auto, unfolding(sc_hosts::specs::Preparing::prepared_for, sc_hosts::specs::PreparingRequests::showing))]
fn prepared_for(
    alloc: Global,
    config: &Config,
    ringing: &[u64],
    session: &mut Session,
    number: u64,
    event: &Queued,
) -> Result<Shown, NoMemory>
    ensures { IfOk result
        (λ s.
        prepared_for config.now ringing.now session.old number event.now
        ≡ prepared_as session.new s) }
{
    match event {
        Queued::Initial {
            region,
            subscriber,
            popped,
            request,
        } => initial(
            alloc, config, ringing, session, number, *region, subscriber, popped, request,
        ),
        Queued::Request { request } => {
            let sess = session_for(session, request.get());
            prepared_request(alloc, session, number, request, sess)
        }
        Queued::Response { branch, response } => {
            prepared_response(alloc, session, *branch, response)
        }
        Queued::Cancelled { event } => prepared_cancel(alloc, session, *event),
        Queued::Timer { id } => prepared_timer(alloc, session, *id),
        Queued::BranchTimer { branch, due } => {
            prepared_branch_timer(alloc, config, ringing, session, *branch, *due)
        }
        Queued::Expired => Ok(prepared_expiry(alloc, session)),
        Queued::Ready => Ok(showing(Event::Ready, None, List::new(alloc))),
    }
}

fn let_go(session: Session) {
    drop(session);
}

fn prepared_of(session: Session, shown: Shown) -> Prepared
    ensures { result ≡ prepared_as session shown }
{
    Prepared {
        view: session.view,
        known: session.known,
        event: shown.event,
        req: shown.req,
        orders: shown.orders,
    }
}

/// An application session as a turn at this moment shows it, with what the container answers by
/// itself. The branches are given whose INVITE has had a provisional response.
#[tactic(auto, unfolding(sc_hosts::specs::Preparing::prepared_session))]
pub fn prepared(
    alloc: Global,
    config: &Config,
    ringing: &[u64],
    session: Session,
    waiting: &Waiting,
    now: u64,
) -> Result<Prepared, NoMemory>
    ensures { IfOk result
        (λ p. p ≡ prepared_session config.now ringing.now session waiting.now now) }
{
    let mut session = session;
    session.view.now = now;
    match prepared_for(
        alloc,
        config,
        ringing,
        &mut session,
        waiting.number,
        &waiting.event,
    ) {
        Ok(shown) => Ok(prepared_of(session, shown)),
        Err(cause) => {
            let_go(session);
            Err(cause)
        }
    }
}
