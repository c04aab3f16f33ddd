//! An INVITE that the view shows no more, as a 2xx brings it back (RFC 3261 section 13.2.2.4).

ghost use Rattle.std.specs.Prelude.{◌≡◌, position, IfOk, OnOk};
ghost use Rattle.sc_hosts.specs.PreparingResponses.{has_begun, insert_request, shown_again, with_request_again};
ghost use Rattle.sc_shown.specs.Shown.{is_behind};

use sc_legs::leg_of;
use sc_looking::is_first;
use sc_pages::Pages;
use sc_state::{Kept, Known, Session};
use sc_terms::RequestView;
use sc_value::{CloneIn, List, NoMemory};
use std::alloc::Global;

/// Whether the request began its SipSession.
#[tactic(auto, unfolding(sc_hosts::specs::PreparingResponses::has_begun))]
pub fn has_begun(known: &Known, kept: &Kept) -> bool
    ensures { result ≡ has_begun known.now kept.now }
{
    match leg_of(known, kept.sess) {
        Some(leg) => is_first(leg.first, kept.id),
        None => false,
    }
}

/// The INVITE as the view shows it again, answered by a 2xx of this code.
#[tactic(auto, unfolding(sc_hosts::specs::PreparingResponses::shown_again))]
pub fn shown_again(
    alloc: Global,
    known: &Known,
    kept: &Kept,
    code: u16,
) -> Result<RequestView, NoMemory>
    ensures { IfOk result (λ r. r ≡ shown_again known.now kept.now code) }
{
    let sent = kept.request.get();
    let initial = has_begun(known, kept);
    let method = sent.method.as_text().clone_in(alloc)?;
    Ok(RequestView {
        id: kept.id,
        sess: kept.sess,
        method,
        received: false,
        initial,
        hops: sent.hops,
        answered: Some(code),
        proxied: false,
        branches: 0,
        unacked: List::new(alloc),
        ends: false,
    })
}

fn is_behind(request: &RequestView, other: &RequestView) -> bool
    ensures { result ≡ is_behind request.now other.now }
{
    request.id.0 < other.id.0
}

// The place of the first request of a greater number.
fn place_before(requests: &[RequestView], request: &RequestView) -> Option<usize>
    ensures { result ≡ position (is_behind request.now) requests.now }
{
    requests.iter().position(|other| is_behind(request, other))
}

#[tactic(auto, using(crate::proofs::Returning::request_before, crate::proofs::Returning::request_last))]
fn insert_request(
    alloc: Global,
    requests: &mut List<RequestView>,
    request: &RequestView,
) -> Result<(), NoMemory>
    ensures { OnOk result (requests.new ≡ insert_request request.now requests.old) }
{
    let again = request.clone_in(alloc)?;
    match place_before(requests.as_slice(), request) {
        Some(at) => requests.items.insert(at, again)?,
        None => requests.push(again)?,
    }
    Ok(())
}

// It is rare: a list of its own of all of them is made, and their pages anew.
fn insert_in(
    alloc: Global,
    requests: &mut Pages<RequestView>,
    request: &RequestView,
) -> Result<(), NoMemory>
    ensures { OnOk result (requests.new ≡ insert_request request.now requests.old) }
{
    let mut list = requests.to_list()?;
    insert_request(alloc, &mut list, request)?;
    let all = Pages::from_slice(alloc, list.as_slice())?;
    *requests = all;
    Ok(())
}

/// The view lists the request among the others, in the order of their numbers.
pub fn with_request_again(
    alloc: Global,
    session: &mut Session,
    request: &RequestView,
) -> Result<(), NoMemory>
    ensures { OnOk result (session.new ≡ with_request_again request.now session.old) }
{
    insert_in(alloc, &mut session.view.requests, request)
}
