//! A response on a branch of a proxied request (RFC 3261 section 16.7).

ghost use Rattle.std.specs.Prelude.{◌≡◌, option_and_then, IfOk, OnOk};
ghost use Rattle.std.specs.List.{find};
ghost use Rattle.sc_value.specs.Lists.{change_first};
ghost use Rattle.sc_terms.specs.declared.events.Event.{Event};
ghost use Rattle.sc_hosts.specs.Branches.{proxy_after_response};
ghost use Rattle.sc_hosts.specs.Looking.{same_request, session_in};
ghost use Rattle.sc_hosts.specs.PreparingResponses.{branch_placed, change_proxy, dialog_options, event_of_response, heard_in, is_watched, prepared_branch, with_branches};
ghost use Rattle.sc_shown.specs.Shown.{more_branches, prepared_as};

use crate::copies::session_copy;
use crate::responses::response_event;
use crate::shown::{Shown, showing_in, silent};
use sc_branches::{added_targets, heard, is_told_whole};
use sc_derived::handled;
use sc_effects::{ProxyNumbered, proxy_of};
use sc_legs::{is_invalid, leg_of, take_answer};
use sc_looking::Numbered;
use sc_pages::{Change, Scope};
use sc_state::{Known, Proxy, Session};
use sc_terms::{Event, ProxyOptions, RequestView, SessionView, View};
use sc_value::{CloneIn, List, NoMemory, ReqId, Response, SessId, Shared, sum_u8};
use std::alloc::Global;

fn branch_event(
    alloc: Global,
    req: ReqId,
    sess: SessId,
    response: &Shared<Response>,
) -> Result<Event, NoMemory>
    ensures { IfOk result (λ e. e ≡ Event.Branch req sess response.now) }
{
    let response = response.clone_in(alloc)?;
    Ok(Event::Branch {
        req,
        sess,
        response,
    })
}

// What a supervising application is told.
#[tactic(auto, unfolding(sc_hosts::specs::PreparingResponses::event_of_response))]
fn told(
    alloc: Global,
    proxy: &Proxy,
    branch: u64,
    response: &Shared<Response>,
    sess: SessId,
) -> Result<Event, NoMemory>
    ensures { IfOk result (λ e. e ≡ event_of_response proxy.now branch response.now sess) }
{
    if is_told_whole(alloc, branch, response.get(), proxy)? {
        return response_event(alloc, proxy.req, sess, response);
    }
    branch_event(alloc, proxy.req, sess, response)
}

#[tactic(auto, unfolding(crate::specs::Shown::more_branches))]
fn more_branches(request: &mut RequestView, count: usize) -> Result<(), NoMemory>
    ensures { OnOk result (request.new ≡ more_branches count request.old) }
{
    request.branches = sum_u8(request.branches, count)?;
    Ok(())
}

// So many branches more.
#[derive(Clone, Copy)]
struct MoreBranches {
    count: usize,
}

impl Change<RequestView> for MoreBranches {
    ghost changed = { λ p. more_branches p.count };

    fn change(&self, request: &mut RequestView) -> Result<(), NoMemory> {
        more_branches(request, self.count)
    }
}

// The view shows the targets that a 3xx added.
#[tactic(auto, unfolding(sc_hosts::specs::PreparingResponses::with_branches, crate::specs::Shown::more_branches))]
fn with_branches(
    alloc: Global,
    view: &mut View,
    proxy: &Proxy,
    response: &Response,
) -> Result<(), NoMemory>
    ensures { OnOk result (view.new ≡ with_branches proxy.now response.now view.old) }
{
    let added = added_targets(alloc, proxy, response)?;
    let numbered = Numbered { req: proxy.req };
    let more = MoreBranches { count: added.len() };
    view.requests
        .change_first(Scope::Number(proxy.req.0), &numbered, &more)
}

// A response that a branch of a proxied request gave.
#[derive(Clone, Copy)]
struct Hearing<'a> {
    alloc: Global,
    branch: u64,
    sess: SessId,
    response: &'a Shared<Response>,
    now: u64,
}

impl Change<Proxy> for Hearing<'_> {
    ghost changed = { λ p. proxy_after_response p.branch p.sess p.response.now p.now };

    fn change(&self, proxy: &mut Proxy) -> Result<(), NoMemory> {
        heard(
            self.alloc,
            proxy,
            self.branch,
            self.sess,
            self.response,
            self.now,
        )
    }
}

fn hear(
    alloc: Global,
    known: &mut Known,
    req: ReqId,
    branch: u64,
    sess: SessId,
    response: &Shared<Response>,
    now: u64,
) -> Result<(), NoMemory>
    ensures { OnOk result
        (known.new ≡ change_proxy req (proxy_after_response branch sess response.now now) known.old) }
{
    let numbered = ProxyNumbered { req };
    let heard = Hearing {
        alloc,
        branch,
        sess,
        response,
        now,
    };
    known
        .proxies
        .change_first(Scope::Number(req.0), &numbered, &heard)
}

// The options of the proxy of the request that began the SipSession.
#[tactic(auto, unfolding(sc_hosts::specs::PreparingResponses::dialog_options))]
fn dialog_options(known: &Known, sess: SessId) -> Option<ProxyOptions>
    ensures { result ≡ dialog_options known.now sess }
{
    match leg_of(known, sess) {
        Some(leg) => options_of(known, leg.first),
        None => None,
    }
}

#[tactic(auto, unfolding(sc_hosts::specs::Preparing::proxy_of))]
fn options_at(known: &Known, req: ReqId) -> Option<ProxyOptions>
    ensures { result
        ≡ option_and_then (λ proxy. proxy.options)
        (find (λ proxy. same_request proxy.req req) known.now.proxies) }
{
    match proxy_of(known, req) {
        Some(proxy) => proxy.options,
        None => None,
    }
}

fn options_of(known: &Known, first: Option<ReqId>) -> Option<ProxyOptions>
    ensures { result
        ≡ option_and_then
        (λ req.
        option_and_then (λ proxy. proxy.options)
        (find (λ proxy. same_request proxy.req req) known.now.proxies)) first }
{
    match first {
        Some(req) => options_at(known, req),
        None => None,
    }
}

// Whether the application is told of the responses.
#[tactic(auto, unfolding(sc_hosts::specs::PreparingResponses::is_watched))]
fn is_watched(known: &Known, proxy: &Proxy) -> bool
    ensures { result ≡ is_watched known.now proxy.now }
{
    match proxy.options.or(dialog_options(known, proxy.sess)) {
        Some(options) => options.supervised,
        None => true,
    }
}

// The response is handled in this SipSession.
#[tactic(auto, unfolding(sc_hosts::specs::PreparingResponses::heard_in, sc_hosts::specs::PreparingRequests::silent, sc_hosts::specs::PreparingRequests::showing_in, sc_hosts::specs::PreparingResponses::with_branches))]
fn heard_in(
    alloc: Global,
    session: &mut Session,
    proxy: &Proxy,
    branch: u64,
    response: &Shared<Response>,
    sess: SessId,
) -> Result<Shown, NoMemory>
    ensures { IfOk result
        (λ s.
        heard_in proxy.now branch response.now (sess, session.old) ≡ prepared_as session.new s) }
{
    let now = session.view.now;
    let watched = is_watched(&session.known, proxy);
    let sent = proxy.request.get();
    with_branches(alloc, &mut session.view, proxy, response.get())?;
    take_answer(alloc, &mut session.known, sess, sent, response.get())?;
    hear(
        alloc,
        &mut session.known,
        proxy.req,
        branch,
        sess,
        response,
        now,
    )?;
    if !watched {
        return Ok(silent(List::new(alloc)));
    }
    let event = told(alloc, proxy, branch, response, sess)?;
    Ok(showing_in(&session.view, sess, event, None, List::new(alloc)))
}

#[tactic(auto, unfolding(sc_hosts::specs::PreparingResponses::branch_placed))]
fn placed_by(
    alloc: Global,
    session: &mut Session,
    proxy: &Proxy,
    response: &Response,
    original: &Option<SessionView>,
) -> Result<SessId, NoMemory>
    ensures { IfOk result
        (λ sess.
        branch_placed session.old proxy.now response.now original.now ≡ (sess, session.new)) }
{
    match original {
        Some(original) => {
            if proxy.options.is_some() {
                let sent = proxy.request.get();
                return handled(
                    alloc,
                    session,
                    proxy.req,
                    original,
                    Some(sent),
                    sent,
                    response,
                );
            }
            Ok(proxy.sess)
        }
        None => Ok(proxy.sess),
    }
}

// The SipSession of a response, which may be a derived one.
fn branch_placed(
    alloc: Global,
    session: &mut Session,
    proxy: &Proxy,
    response: &Response,
) -> Result<SessId, NoMemory>
    ensures { IfOk result
        (λ sess.
        branch_placed session.old proxy.now response.now
        (session_in session.old.view proxy.now.sess) ≡ (sess, session.new)) }
{
    let original = session_copy(alloc, &session.view, proxy.sess)?;
    placed_by(alloc, session, proxy, response, &original)
}

/// A response on a branch of a proxied request. A proxy whose SipSession the application ended does
/// nothing any more.
#[tactic(auto, unfolding(sc_hosts::specs::PreparingResponses::prepared_branch, sc_hosts::specs::PreparingRequests::silent))]
pub fn prepared_branch(
    alloc: Global,
    session: &mut Session,
    proxy: &Proxy,
    branch: u64,
    response: &Shared<Response>,
) -> Result<Shown, NoMemory>
    ensures { IfOk result
        (λ s.
        prepared_branch session.old proxy.now branch response.now ≡ prepared_as session.new s) }
{
    if is_invalid(&session.known, proxy.sess) {
        return Ok(silent(List::new(alloc)));
    }
    let sess = branch_placed(alloc, session, proxy, response.get())?;
    heard_in(alloc, session, proxy, branch, response, sess)
}
