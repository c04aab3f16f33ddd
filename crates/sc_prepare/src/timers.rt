//! Timers that are due, and the expiry of an application session.

ghost use Rattle.std.specs.Prelude.{◌≡◌, ◌==◌, Some, IfOk, OnOk};
ghost use Rattle.std.specs.List.{find, list_any};
ghost use Rattle.sc_value.specs.Lists.{change_first};
ghost use Rattle.sc_model.specs.Names.{edge_tag};
ghost use Rattle.sc_hosts.specs.Branches.{ended_by, has_branch, to_cancel};
ghost use Rattle.sc_hosts.specs.Looking.{is_timer, timer_in};
ghost use Rattle.sc_hosts.specs.Messages.{own_response};
ghost use Rattle.sc_hosts.specs.Words.{request_timeout};
ghost use Rattle.sc_hosts.specs.PreparingResponses.{change_proxy};
ghost use Rattle.sc_hosts.specs.Preparing.{after_timer, has_expired, next_firing, prepared_branch_timer, prepared_expiry, prepared_timer, timed_out};
ghost use Rattle.sc_shown.specs.Shown.{due_at, prepared_as};

use sc_branches::{ended_by, is_invite, is_timed_out, to_cancel};
use sc_effects::{ProxyNumbered, remove_timer};
use sc_legs::is_invalid;
use sc_looking::timer_place;
use sc_messages::own_response;
use sc_pages::{Change, Scope};
use sc_shown::{Shown, branch_copy, showing, silent, timer_copy};
use sc_state::{Known, Proxy, Session};
use sc_terms::{Config, Event, Period, TimerView, View};
use sc_value::{List, NoMemory, ReqId, Request, Response, SessId, Shared, Text, TimerId, sum};
use std::alloc::Global;

// A timer that fires once ends; another is due this long after its last moment, or after this turn.
#[tactic(auto, unfolding(sc_hosts::specs::Preparing::next_firing))]
fn renewed(now: u64, timer: &TimerView) -> Result<Option<u64>, NoMemory>
    ensures { IfOk result (λ due. due ≡ next_firing now timer.now) }
{
    match timer.period {
        Period::Once => Ok(None),
        Period::Rate(n) => Ok(Some(sum(timer.due, u64::from(n))?)),
        Period::Delay(n) => Ok(Some(sum(now, u64::from(n))?)),
    }
}

#[tactic(auto, unfolding(sc_shown::specs::Shown::due_at))]
fn due_at(timer: &mut TimerView, due: u64)
    ensures { timer.new ≡ due_at due timer.old }
{
    timer.due = due;
}

#[tactic(auto, using(sc_value::proofs::ListFacts::change_first_position, sc_value::proofs::ListFacts::change_first_none))]
fn due_in(timers: &mut [TimerView], id: TimerId, due: u64)
    ensures { timers.new ≡ change_first (is_timer id) (due_at due) timers.old }
{
    match timer_place(timers, id) {
        Some(at) => due_at(&mut timers[at], due),
        None => {}
    }
}

#[tactic(auto, unfolding(sc_hosts::specs::Preparing::after_timer, sc_shown::specs::Shown::due_at))]
fn fired(view: &mut View, timer: &TimerView, due: Option<u64>)
    ensures { view.new ≡ after_timer view.old timer.now due }
{
    match due {
        Some(due) => due_in(&mut view.timers.items, timer.id, due),
        None => remove_timer(&mut view.timers, timer.id),
    }
}

/// A servlet timer is due. One that isn't active any more is passed over.
#[tactic(auto, unfolding(sc_hosts::specs::Preparing::prepared_timer, sc_hosts::specs::PreparingRequests::silent, sc_hosts::specs::PreparingRequests::showing))]
pub fn prepared_timer(alloc: Global, session: &mut Session, id: TimerId) -> Result<Shown, NoMemory>
    ensures { IfOk result
        (λ s.
        prepared_timer session.old (timer_in session.old.view id) ≡ prepared_as session.new s) }
{
    match timer_copy(alloc, &session.view, id)? {
        Some(timer) => {
            let due = renewed(session.view.now, &timer)?;
            fired(&mut session.view, &timer, due);
            let event = Event::Timer {
                id: timer.id,
                info: timer.info,
            };
            Ok(showing(event, None, List::new(alloc)))
        }
        None => Ok(silent(List::new(alloc))),
    }
}

/// Whether the expiry has come and wasn't moved.
#[tactic(auto, unfolding(sc_hosts::specs::Preparing::has_expired))]
pub fn has_expired(view: &View) -> bool
    ensures { result ≡ has_expired view.entry.now }
{
    match view.expires {
        Some(due) => due <= view.now,
        None => false,
    }
}

/// The application session's expiry was due.
#[tactic(auto, unfolding(sc_hosts::specs::Preparing::prepared_expiry, sc_hosts::specs::PreparingRequests::silent, sc_hosts::specs::PreparingRequests::showing))]
pub fn prepared_expiry(alloc: Global, session: &Session) -> Shown
    ensures { prepared_expiry session.now ≡ prepared_as session.now result }
{
    if has_expired(&session.view) {
        showing(Event::Expired, None, List::new(alloc))
    } else {
        silent(List::new(alloc))
    }
}

// A branch that is cancelled at the end of this turn.
#[derive(Clone, Copy)]
struct ToCancel {
    branch: u64,
}

impl Change<Proxy> for ToCancel {
    ghost changed = { λ p. to_cancel p.branch };

    fn change(&self, proxy: &mut Proxy) -> Result<(), NoMemory> {
        to_cancel(self.branch, proxy);
        Ok(())
    }
}

fn cancel_branch(known: &mut Known, req: ReqId, branch: u64) -> Result<(), NoMemory>
    ensures { OnOk result (known.new ≡ change_proxy req (to_cancel branch) known.old) }
{
    let numbered = ProxyNumbered { req };
    known
        .proxies
        .change_first(Scope::Number(req.0), &numbered, &ToCancel { branch })
}

// A branch that ends by this response.
#[derive(Clone, Copy)]
struct Ended<'a> {
    alloc: Global,
    branch: u64,
    sess: SessId,
    response: &'a Shared<Response>,
}

impl Change<Proxy> for Ended<'_> {
    ghost changed = { λ p. ended_by p.branch p.sess p.response.now };

    fn change(&self, proxy: &mut Proxy) -> Result<(), NoMemory> {
        ended_by(self.alloc, proxy, self.branch, self.sess, self.response)
    }
}

fn end_branch(
    alloc: Global,
    known: &mut Known,
    req: ReqId,
    branch: u64,
    sess: SessId,
    response: &Shared<Response>,
) -> Result<(), NoMemory>
    ensures { OnOk result
        (known.new ≡ change_proxy req (ended_by branch sess response.now) known.old) }
{
    let numbered = ProxyNumbered { req };
    let ended = Ended {
        alloc,
        branch,
        sess,
        response,
    };
    known
        .proxies
        .change_first(Scope::Number(req.0), &numbered, &ended)
}

// The 408 as which a branch ends whose time is up.
#[tactic(auto, unfolding(sc_hosts::specs::Words::request_timeout))]
fn timeout_answer(alloc: Global, tag: &[u8], request: &Request) -> Result<Response, NoMemory>
    ensures { IfOk result (λ r. r ≡ own_response tag.now 408 request_timeout request.now) }
{
    own_response(alloc, tag, 408, b"Request Timeout", request)
}

fn timeout_response(
    alloc: Global,
    config: &Config,
    request: &Request,
) -> Result<Shared<Response>, NoMemory>
    ensures { IfOk result
        (λ r. r ≡ own_response (edge_tag config.now.salt) 408 request_timeout request.now) }
{
    let mut tag = Text::new(alloc);
    sc_names::edge_tag(alloc, config.salt.as_text(), &mut tag)?;
    let response = timeout_answer(alloc, tag.as_bytes(), request)?;
    Shared::new(alloc, response)
}

// A branch whose time is up: an INVITE with a provisional response is cancelled, every other ends
// as 408.
#[tactic(auto, unfolding(sc_hosts::specs::Preparing::timed_out))]
fn timed_out(
    alloc: Global,
    config: &Config,
    session: &mut Session,
    proxy: &Proxy,
    branch: u64,
    provisional: bool,
) -> Result<(), NoMemory>
    ensures { OnOk result
        (session.new ≡ timed_out config.now session.old proxy.now branch provisional) }
{
    if is_invite(proxy) && provisional {
        return cancel_branch(&mut session.known, proxy.req, branch);
    }
    let response = timeout_response(alloc, config, proxy.request.get())?;
    end_branch(
        alloc,
        &mut session.known,
        proxy.req,
        branch,
        proxy.sess,
        &response,
    )
}

fn is_ringing(ringing: &[u64], branch: u64) -> bool
    ensures { result ≡ list_any (λ k. k == branch) ringing.now }
{
    ringing.iter().any(|other| *other == branch)
}

#[tactic(auto, unfolding(sc_hosts::specs::Preparing::prepared_branch_timer, sc_hosts::specs::PreparingRequests::silent))]
fn timed_proxy(
    alloc: Global,
    config: &Config,
    ringing: &[u64],
    session: &mut Session,
    branch: u64,
    due: u64,
    proxy: &Proxy,
) -> Result<Shown, NoMemory>
    ensures { IfOk result
        (λ s.
        prepared_branch_timer config.now ringing.now session.old branch due (Some proxy.now)
        ≡ prepared_as session.new s) }
{
    if !is_timed_out(branch, due, proxy) || is_invalid(&session.known, proxy.sess) {
        return Ok(silent(List::new(alloc)));
    }
    let provisional = is_ringing(ringing, branch);
    timed_out(alloc, config, session, proxy, branch, provisional)?;
    Ok(silent(List::new(alloc)))
}

/// The timer of a branch was due at this moment.
#[tactic(auto, unfolding(sc_hosts::specs::Preparing::prepared_branch_timer, sc_hosts::specs::PreparingRequests::silent))]
pub fn prepared_branch_timer(
    alloc: Global,
    config: &Config,
    ringing: &[u64],
    session: &mut Session,
    branch: u64,
    due: u64,
) -> Result<Shown, NoMemory>
    ensures { IfOk result
        (λ s.
        prepared_branch_timer config.now ringing.now session.old branch due
        (find (has_branch branch) session.old.known.proxies) ≡ prepared_as session.new s) }
{
    match branch_copy(alloc, &session.known, branch)? {
        Some(proxy) => timed_proxy(alloc, config, ringing, session, branch, due, &proxy),
        None => Ok(silent(List::new(alloc))),
    }
}
