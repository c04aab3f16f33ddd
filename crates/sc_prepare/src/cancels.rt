//! The peer cancelled its INVITE (RFC 3261 section 9.2).

ghost use Rattle.std.specs.Prelude.{◌≡◌, ◌∷◌, [], None, Some, if◌then◌else◌, IfOk};
ghost use Rattle.std.specs.List.{find};
ghost use Rattle.sc_terms.specs.declared.events.Event.{Event};
ghost use Rattle.sc_state.specs.declared.orders.Order.{Order};
ghost use Rattle.sc_hosts.specs.Looking.{is_gone_in, request_in};
ghost use Rattle.sc_hosts.specs.Messages.{own_response};
ghost use Rattle.sc_hosts.specs.Words.{request_terminated};
ghost use Rattle.sc_hosts.specs.Preparing.{cancelled_proxy, cancelled_request, is_invited, kept_of, own_tag_of, prepared_cancel, prepared_end, proxy_of};
ghost use Rattle.sc_shown.specs.Shown.{prepared_as};

use sc_branches::is_supervised;
use sc_effects::{answered, own_tag_of, request_copy};
use sc_legs::stop_proxy;
use sc_messages::own_response;
use sc_shown::{Shown, invited_by, kept_copy, one_response, proxy_copy, showing_in, silent};
use sc_state::{Invited, Kept, Order, Proxy, Session};
use sc_terms::{Event, RequestView, View};
use sc_value::{List, NoMemory, ReqId, Request, Response};
use std::alloc::Global;

// The CANCEL is shown, where the SipSession of its INVITE is there.
fn shown_cancel(view: &View, invited: Invited, req: Option<ReqId>, orders: List<Order>) -> Shown
    ensures { result
        ≡ record {
          event = if is_gone_in view.entry.now invited.sess then None else Some
              (Event.Cancelled invited.req invited.sess);
          req = req;
          orders = orders;
        } }
{
    let event = Event::Cancelled {
        req: invited.req,
        sess: invited.sess,
    };
    showing_in(view, invited.sess, event, req, orders)
}

// The 487 to the INVITE.
#[tactic(auto, unfolding(sc_hosts::specs::Words::request_terminated))]
fn terminated_answer(alloc: Global, tag: &[u8], request: &Request) -> Result<Response, NoMemory>
    ensures { IfOk result (λ r. r ≡ own_response tag.now 487 request_terminated request.now) }
{
    own_response(alloc, tag, 487, b"Request Terminated", request)
}

fn terminated_order(
    alloc: Global,
    view: &View,
    invited: Invited,
    request: &Request,
) -> Result<List<Order>, NoMemory>
    ensures { IfOk result
        (λ l.
        l
        ≡ Order.Respond invited.event
        (own_response (own_tag_of view.entry.now invited.sess) 487 request_terminated
        request.now) ∷ []) }
{
    let tag = own_tag_of(view, invited.sess);
    let response = terminated_answer(alloc, tag, request)?;
    one_response(alloc, invited.event, response)
}

#[tactic(auto, unfolding(sc_hosts::specs::Preparing::prepared_end, sc_hosts::specs::PreparingRequests::showing_in))]
fn terminated_kept(
    alloc: Global,
    session: &mut Session,
    invited: Invited,
    request: &RequestView,
    kept: &Kept,
) -> Result<Shown, NoMemory>
    ensures { IfOk result
        (λ s.
        prepared_end session.old invited request.now (Some kept.now) ≡ prepared_as session.new s) }
{
    let orders = terminated_order(alloc, &session.view, invited, kept.request.get())?;
    answered(&mut session.view, request, 487)?;
    Ok(shown_cancel(&session.view, invited, Some(invited.req), orders))
}

// An INVITE without final response that isn't proxied is answered 487.
#[tactic(auto, unfolding(sc_hosts::specs::Preparing::prepared_end, sc_hosts::specs::PreparingRequests::showing_in))]
fn terminated(
    alloc: Global,
    session: &mut Session,
    invited: Invited,
    request: &RequestView,
) -> Result<Shown, NoMemory>
    ensures { IfOk result
        (λ s.
        prepared_end session.old invited request.now (kept_of session.old.known invited.req)
        ≡ prepared_as session.new s) }
{
    match kept_copy(alloc, &session.known, invited.req)? {
        Some(kept) => terminated_kept(alloc, session, invited, request, &kept),
        None => Ok(shown_cancel(&session.view, invited, Some(invited.req), List::new(alloc))),
    }
}

#[tactic(auto, unfolding(sc_hosts::specs::Preparing::cancelled_proxy, sc_hosts::specs::PreparingRequests::showing_in, sc_hosts::specs::PreparingRequests::silent))]
fn stopped_proxy(
    alloc: Global,
    session: &mut Session,
    invited: Invited,
    proxy: &Proxy,
) -> Result<Shown, NoMemory>
    ensures { IfOk result
        (λ s. cancelled_proxy session.old invited (Some proxy.now) ≡ prepared_as session.new s) }
{
    stop_proxy(&mut session.known, proxy.req)?;
    if !is_supervised(proxy) {
        return Ok(silent(List::new(alloc)));
    }
    Ok(shown_cancel(&session.view, invited, Some(invited.req), List::new(alloc)))
}

// A proxied INVITE has its branches cancelled.
#[tactic(auto, unfolding(sc_hosts::specs::Preparing::cancelled_proxy, sc_hosts::specs::PreparingRequests::showing_in))]
fn cancelled_proxy(
    alloc: Global,
    session: &mut Session,
    invited: Invited,
) -> Result<Shown, NoMemory>
    ensures { IfOk result
        (λ s.
        cancelled_proxy session.old invited (proxy_of session.old.known invited.req)
        ≡ prepared_as session.new s) }
{
    match proxy_copy(alloc, &session.known, invited.req)? {
        Some(proxy) => stopped_proxy(alloc, session, invited, &proxy),
        None => Ok(shown_cancel(&session.view, invited, Some(invited.req), List::new(alloc))),
    }
}

#[tactic(auto, unfolding(sc_hosts::specs::Preparing::cancelled_request, sc_hosts::specs::PreparingRequests::showing_in))]
fn cancelled_shown(
    alloc: Global,
    session: &mut Session,
    invited: Invited,
    request: &RequestView,
) -> Result<Shown, NoMemory>
    ensures { IfOk result
        (λ s.
        cancelled_request session.old invited (Some request.now) ≡ prepared_as session.new s) }
{
    if request.proxied {
        return cancelled_proxy(alloc, session, invited);
    }
    if request.answered.is_none() {
        return terminated(alloc, session, invited, request);
    }
    Ok(shown_cancel(&session.view, invited, Some(invited.req), List::new(alloc)))
}

#[tactic(auto, unfolding(sc_hosts::specs::Preparing::cancelled_request, sc_hosts::specs::PreparingRequests::showing_in))]
fn cancelled_request(
    alloc: Global,
    session: &mut Session,
    invited: Invited,
) -> Result<Shown, NoMemory>
    ensures { IfOk result
        (λ s.
        cancelled_request session.old invited (request_in session.old.view invited.req)
        ≡ prepared_as session.new s) }
{
    match request_copy(alloc, &session.view, invited.req)? {
        Some(request) => cancelled_shown(alloc, session, invited, &request),
        None => Ok(shown_cancel(&session.view, invited, None, List::new(alloc))),
    }
}

/// The INVITE of this event was cancelled.
#[tactic(auto, unfolding(sc_hosts::specs::Preparing::prepared_cancel, sc_hosts::specs::PreparingRequests::silent))]
pub fn prepared_cancel(alloc: Global, session: &mut Session, event: u64) -> Result<Shown, NoMemory>
    ensures { IfOk result
        (λ s.
        prepared_cancel session.old (find (is_invited event) session.old.known.invited)
        ≡ prepared_as session.new s) }
{
    match invited_by(&session.known, event) {
        Some(invited) => cancelled_request(alloc, session, invited),
        None => Ok(silent(List::new(alloc))),
    }
}
