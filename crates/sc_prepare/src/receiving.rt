//! A request is received: it gets its number, and is there from then on.

ghost use Rattle.std.specs.Prelude.{◌≡◌, ◌+◌, ◌++◌, ◌∷◌, [], IfOk, OnOk};
ghost use Rattle.sc_state.specs.declared.session.Way.{Way};
ghost use Rattle.sc_hosts.specs.PreparingRequests.{next_id, request_view, with_invited, with_number_used, with_received_request};

use sc_effects::ends_subscription;
use sc_methods::is_invite;
use sc_state::{Invited, Kept, Known, Session, Way};
use sc_terms::{RequestView, View};
use sc_value::{CloneIn, List, NoMemory, ReqId, Request, SessId, Shared, sum_u32};
use std::alloc::Global;

#[tactic(auto, unfolding(sc_hosts::specs::PreparingRequests::request_view))]
fn request_view(
    alloc: Global,
    req: ReqId,
    sess: SessId,
    initial: bool,
    passed: bool,
    request: &Request,
) -> Result<RequestView, NoMemory>
    ensures { IfOk result (λ r. r ≡ request_view req sess initial passed request.now) }
{
    let method = request.method.as_text().clone_in(alloc)?;
    let ends = ends_subscription(request.method.as_bytes(), request.head.others.as_slice());
    Ok(RequestView {
        id: req,
        sess,
        method,
        received: true,
        initial,
        hops: request.hops,
        answered: None,
        proxied: passed,
        branches: 0,
        unacked: List::new(alloc),
        ends,
    })
}

/// The number that the next request gets.
pub fn next_id(session: &Session) -> ReqId
    ensures { result ≡ next_id session.now }
{
    ReqId(session.view.next_request)
}

/// The next request gets its number, and nothing else of it is noted.
pub fn numbered(session: &mut Session) -> Result<(), NoMemory>
    ensures { OnOk result (session.new ≡ with_number_used session.old) }
{
    session.view.next_request = sum_u32(session.view.next_request, 1)?;
    Ok(())
}

fn receive_view(
    alloc: Global,
    view: &mut View,
    sess: SessId,
    initial: bool,
    passed: bool,
    request: &Request,
) -> Result<(), NoMemory>
    ensures { OnOk result
        (view.new
        ≡ record view.old {
          next_request = view.old.next_request + 1;
          requests = view.old.requests
              ++ request_view (record { 0 = view.old.next_request }) sess initial passed
              request.now ∷ [];
        }) }
{
    let number = view.next_request;
    let next = sum_u32(number, 1)?;
    let shown = request_view(alloc, ReqId(number), sess, initial, passed, request)?;
    view.requests.push(shown)?;
    view.next_request = next;
    Ok(())
}

#[tactic(auto, unfolding(sc_hosts::specs::PreparingRequests::with_invited))]
fn with_invited(
    known: &mut Known,
    number: u64,
    req: ReqId,
    sess: SessId,
    request: &Request,
) -> Result<(), NoMemory>
    ensures { OnOk result (known.new ≡ with_invited number req sess request.now known.old) }
{
    if is_invite(request.method.as_bytes()) {
        known.invited.push(Invited {
            event: number,
            req,
            sess,
        })?;
    }
    Ok(())
}

fn keep(
    alloc: Global,
    known: &mut Known,
    number: u64,
    req: ReqId,
    sess: SessId,
    request: &Shared<Request>,
) -> Result<(), NoMemory>
    ensures { OnOk result
        (known.new
        ≡ record known.old {
          kept = known.old.kept
              ++ record {
                id = req;
                sess = sess;
                way = Way.Received number;
                request = request.now;
              } ∷ [];
        }) }
{
    let request = request.clone_in(alloc)?;
    known.kept.push(Kept {
        id: req,
        sess,
        way: Way::Received { event: number },
        request,
    })?;
    Ok(())
}

fn receive_known(
    alloc: Global,
    known: &mut Known,
    number: u64,
    req: ReqId,
    sess: SessId,
    request: &Shared<Request>,
) -> Result<(), NoMemory>
    ensures { OnOk result
        (known.new
        ≡ with_invited number req sess request.now
        (record known.old {
          kept = known.old.kept
              ++ record {
                id = req;
                sess = sess;
                way = Way.Received number;
                request = request.now;
              } ∷ [];
        })) }
{
    keep(alloc, known, number, req, sess, request)?;
    with_invited(known, number, req, sess, request.get())
}

/// A request is received in a SipSession under this event's number.
#[tactic(auto, unfolding(sc_hosts::specs::PreparingRequests::with_received_request))]
pub fn received(
    alloc: Global,
    session: &mut Session,
    number: u64,
    sess: SessId,
    initial: bool,
    passed: bool,
    request: &Shared<Request>,
) -> Result<(), NoMemory>
    ensures { OnOk result
        (session.new ≡ with_received_request session.old number sess initial passed request.now) }
{
    let req = next_id(session);
    receive_known(alloc, &mut session.known, number, req, sess, request)?;
    receive_view(
        alloc,
        &mut session.view,
        sess,
        initial,
        passed,
        request.get(),
    )
}
