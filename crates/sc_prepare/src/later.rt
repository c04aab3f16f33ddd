//! A request that has a To tag (RFC 3261 section 12.2.2).

ghost use Rattle.std.specs.Prelude.{◌≡◌, IfOk};
ghost use Rattle.sc_hosts.specs.Looking.{session_in};
ghost use Rattle.sc_hosts.specs.PreparingRequests.{prepared_request, refusal_orders, taken_in, too_low};
ghost use Rattle.sc_shown.specs.Shown.{prepared_as, taken_by};

use crate::receiving::{next_id, numbered, received};
use sc_effects::answered_by;
use sc_legs::{is_low, leg_of, take_request};
use sc_looking::{is_proxy, session_in};
use sc_messages::own_response;
use sc_methods::is_ack;
use sc_shown::{Shown, one_response, showing, silent};
use sc_state::{Order, Session};
use sc_terms::{Event, Role};
use sc_value::{CloneIn, List, NoMemory, Request, SessId, Shared};
use std::alloc::Global;

// An answer of the container to a request that has a To tag; an ACK has none.
#[tactic(auto, unfolding(sc_hosts::specs::PreparingRequests::refusal_orders))]
fn refused(
    alloc: Global,
    number: u64,
    code: u16,
    reason: &[u8],
    request: &Request,
) -> Result<List<Order>, NoMemory>
    ensures { IfOk result (λ l. l ≡ refusal_orders number code reason.now request.now) }
{
    if is_ack(request.method.as_bytes()) {
        return Ok(List::new(alloc));
    }
    let response = own_response(alloc, b"", code, reason, request)?;
    one_response(alloc, number, response)
}

// A number that is too low: the answer counts in the SipSession like any other.
#[tactic(auto, unfolding(sc_hosts::specs::PreparingRequests::too_low, sc_hosts::specs::PreparingRequests::silent, sc_model::specs::BestResponses::server_error))]
fn too_low(
    alloc: Global,
    session: &mut Session,
    number: u64,
    sess: SessId,
    request: &Shared<Request>,
) -> Result<Shown, NoMemory>
    ensures { IfOk result
        (λ s. too_low session.old number sess request.now ≡ prepared_as session.new s) }
{
    let req = next_id(session);
    received(alloc, session, number, sess, false, false, request)?;
    answered_by(alloc, &mut session.view, req, 500)?;
    let orders = refused(alloc, number, 500, b"Server Internal Error", request.get())?;
    Ok(silent(orders))
}

// The request is taken in a SipSession of this role.
#[tactic(auto, unfolding(sc_shown::specs::Shown::taken_by, sc_hosts::specs::PreparingRequests::showing))]
fn taken_by(
    alloc: Global,
    session: &mut Session,
    number: u64,
    sess: SessId,
    role: Role,
    request: &Shared<Request>,
) -> Result<Shown, NoMemory>
    ensures { IfOk result
        (λ s. taken_by session.old number sess role request.now ≡ prepared_as session.new s) }
{
    let req = next_id(session);
    received(alloc, session, number, sess, false, is_proxy(role), request)?;
    take_request(alloc, &mut session.known, sess, request.get())?;
    let request = request.clone_in(alloc)?;
    let event = Event::Request { req, sess, request };
    Ok(showing(event, Some(req), List::new(alloc)))
}

#[tactic(auto, unfolding(sc_hosts::specs::PreparingRequests::taken_in, sc_hosts::specs::PreparingRequests::prepared_for_request, sc_shown::specs::Shown::taken_by, sc_hosts::specs::PreparingRequests::silent))]
fn taken_in(
    alloc: Global,
    session: &mut Session,
    number: u64,
    sess: SessId,
    request: &Shared<Request>,
) -> Result<Shown, NoMemory>
    ensures { IfOk result
        (λ s.
        taken_in session.old number sess (session_in session.old.view sess) request.now
        ≡ prepared_as session.new s) }
{
    match session_in(&session.view, sess) {
        Some(found) => {
            let id = found.id;
            let role = found.role;
            if is_low(leg_of(&session.known, sess), request.get()) {
                too_low(alloc, session, number, sess, request)
            } else {
                taken_by(alloc, session, number, id, role, request)
            }
        }
        None => {
            numbered(session)?;
            Ok(silent(List::new(alloc)))
        }
    }
}

/// A later request, in the SipSession whose dialog it is of, where there is one.
#[tactic(auto, unfolding(sc_hosts::specs::PreparingRequests::prepared_request, sc_hosts::specs::PreparingRequests::silent, sc_hosts::specs::Words::does_not_exist))]
pub fn prepared_request(
    alloc: Global,
    session: &mut Session,
    number: u64,
    request: &Shared<Request>,
    sess: Option<SessId>,
) -> Result<Shown, NoMemory>
    ensures { IfOk result
        (λ s. prepared_request session.old number request.now sess ≡ prepared_as session.new s) }
{
    match sess {
        Some(sess) => taken_in(alloc, session, number, sess, request),
        None => {
            let reason = b"Call/Transaction Does Not Exist";
            let orders = refused(alloc, number, 481, reason, request.get())?;
            numbered(session)?;
            Ok(silent(orders))
        }
    }
}
