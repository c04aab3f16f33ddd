//! Responses that go back to where a proxied request came from.

ghost use Rattle.std.specs.Prelude.{◌≡◌, None, Some, is_some, IfOk, OnOk};
ghost use Rattle.std.specs.Option.{option_copied};
ghost use Rattle.sc_value.specs.Lists.{change_first};
ghost use Rattle.sc_model.specs.BestResponses.{best_response};
ghost use Rattle.sc_hosts.specs.Looking.{is_session};
ghost use Rattle.sc_hosts.specs.Acting.{chooses, forwarded_view, forwards, forwards_best, moved_on, passes, subscribed_tag, with_subscribed};

use crate::changing::{give, note_forwarded};
use sc_best::{best, forwarded};
use sc_branches::{can_choose, can_pass};
use sc_effects::{after_initial, answered_in, request_copy, tidy};
use sc_looking::session_place;
use sc_methods::{is_subscribe, is_success};
use sc_state::{Order, Passing, Proxy, Working};
use sc_terms::{RequestView, SessionView, View};
use sc_value::{CloneIn, List, NoMemory, Response, SessId, Shared, Text, tag};
use std::alloc::Global;

/// The SipSession after a response that was forwarded in it, to an initial request that the view
/// shows no more.
#[tactic(auto, unfolding(sc_hosts::specs::Acting::moved_on, sc_hosts::specs::Looking::in_state))]
fn moved_on(session: &mut SessionView, proxy: &Proxy, response: &Response)
    ensures { session.new ≡ moved_on proxy.now response.now session.old }
{
    if proxy.options.is_some() {
        let method = proxy.request.get().method.as_bytes();
        let tagged = tag(&response.head.to).is_some();
        session.state = after_initial(session.role, method, tagged, session.state, response.code);
    }
}

#[tactic(auto, using(sc_value::proofs::ListFacts::change_first_position, sc_value::proofs::ListFacts::change_first_none))]
fn move_in(sessions: &mut [SessionView], sess: SessId, proxy: &Proxy, response: &Response)
    ensures { sessions.new
        ≡ change_first (is_session sess) (moved_on proxy.now response.now) sessions.old }
{
    match session_place(sessions, sess) {
        Some(at) => moved_on(&mut sessions[at], proxy, response),
        None => {}
    }
}

/// The view once this response to a proxied request was forwarded in a SipSession.
#[tactic(auto, unfolding(sc_hosts::specs::Acting::forwarded_view))]
fn forwarded_view(
    view: &mut View,
    proxy: &Proxy,
    sess: SessId,
    request: &Option<RequestView>,
    response: &Response,
) -> Result<(), NoMemory>
    ensures { OnOk result
        (view.new ≡ forwarded_view proxy.now sess request.now response.now view.old) }
{
    match request {
        Some(request) => {
            let tagged = tag(&response.head.to).is_some();
            answered_in(view, sess, request, tagged, response.code)?;
            tidy(view)
        }
        None => {
            move_in(&mut view.sessions.items, sess, proxy, response);
            Ok(())
        }
    }
}

#[tactic(auto, unfolding(sc_hosts::specs::Acting::subscribed_tag))]
fn subscribed_tag(
    alloc: Global,
    session: &mut SessionView,
    tag: Option<&Text>,
) -> Result<(), NoMemory>
    ensures { OnOk result (session.new ≡ subscribed_tag (option_copied tag.entry) session.old) }
{
    if session.peer_tag.is_some() {
        return Ok(());
    }
    session.peer_tag = match tag {
        Some(tag) => Some(tag.clone_in(alloc)?),
        None => None,
    };
    Ok(())
}

#[tactic(auto, using(sc_value::proofs::ListFacts::change_first_position, sc_value::proofs::ListFacts::change_first_none))]
fn tag_in(
    alloc: Global,
    sessions: &mut [SessionView],
    sess: SessId,
    tag: Option<&Text>,
) -> Result<(), NoMemory>
    ensures { OnOk result
        (sessions.new
        ≡ change_first (is_session sess) (subscribed_tag (option_copied tag.entry))
        sessions.old) }
{
    match session_place(sessions, sess) {
        Some(at) => subscribed_tag(alloc, &mut sessions[at], tag),
        None => Ok(()),
    }
}

/// The 2xx to a SUBSCRIBE that is forwarded gives the SipSession its tag.
#[tactic(auto, unfolding(sc_hosts::specs::Acting::with_subscribed))]
fn with_subscribed(
    alloc: Global,
    view: &mut View,
    proxy: &Proxy,
    sess: SessId,
    response: &Response,
) -> Result<(), NoMemory>
    ensures { OnOk result (view.new ≡ with_subscribed proxy.now sess response.now view.old) }
{
    if proxy.options.is_some()
        && is_subscribe(proxy.request.get().method.as_bytes())
        && is_success(response.code)
    {
        return tag_in(
            alloc,
            &mut view.sessions.items,
            sess,
            tag(&response.head.to),
        );
    }
    Ok(())
}

/// A response goes back to where the request came from, and moves the SipSession.
#[tactic(auto, unfolding(sc_hosts::specs::Acting::forwards))]
fn forwards(
    alloc: Global,
    proxy: &Proxy,
    sess: SessId,
    response: &Shared<Response>,
    working: &mut Working,
) -> Result<(), NoMemory>
    ensures { OnOk result (working.new ≡ forwards proxy.now sess response.now working.old) }
{
    let request = request_copy(alloc, &working.play.view, proxy.req)?;
    with_subscribed(alloc, &mut working.play.view, proxy, sess, response.get())?;
    forwarded_view(
        &mut working.play.view,
        proxy,
        sess,
        &request,
        response.get(),
    )?;
    let owner = response.clone_in(alloc)?;
    give(
        working,
        Order::Respond {
            event: proxy.event,
            response: owner,
        },
    )?;
    note_forwarded(&mut working.known, proxy.req, response.get().code)
}

/// What waits to be forwarded goes, where it can.
#[tactic(auto, unfolding(sc_hosts::specs::Acting::passes))]
pub fn passes(
    alloc: Global,
    proxy: &Proxy,
    passing: &Option<Passing>,
    working: &mut Working,
) -> Result<(), NoMemory>
    ensures { OnOk result (working.new ≡ passes proxy.now passing.now working.old) }
{
    match passing {
        Some(passing) => {
            if can_pass(proxy, passing.response.get()) {
                return forwards(alloc, proxy, passing.sess, &passing.response, working);
            }
            Ok(())
        }
        None => Ok(()),
    }
}

#[tactic(auto, unfolding(sc_model::specs::BestResponses::best_response))]
fn best_response(
    alloc: Global,
    candidates: &List<Shared<Response>>,
) -> Result<Option<Shared<Response>>, NoMemory>
    ensures { IfOk result (λ r. r ≡ best_response candidates.now) }
{
    match best(candidates) {
        Some(chosen) => {
            let response = forwarded(alloc, candidates, chosen)?;
            Ok(Some(Shared::new(alloc, response)?))
        }
        None => Ok(None),
    }
}

#[tactic(auto, unfolding(sc_hosts::specs::Acting::forwards_best))]
fn forwards_best(
    alloc: Global,
    proxy: &Proxy,
    response: &Option<Shared<Response>>,
    working: &mut Working,
) -> Result<(), NoMemory>
    ensures { OnOk result (working.new ≡ forwards_best proxy.now response.now working.old) }
{
    match response {
        Some(response) => forwards(alloc, proxy, proxy.sess, response, working),
        None => Ok(()),
    }
}

/// The best of the final responses goes, where it can.
#[tactic(auto, unfolding(sc_hosts::specs::Acting::chooses))]
pub fn chooses(alloc: Global, proxy: &Proxy, working: &mut Working) -> Result<(), NoMemory>
    ensures { OnOk result (working.new ≡ chooses proxy.now working.old) }
{
    if !can_choose(proxy) {
        return Ok(());
    }
    let response = best_response(alloc, &proxy.candidates)?;
    forwards_best(alloc, proxy, &response, working)
}
