//! A later request on a proxied dialog is passed on.

ghost use Rattle.std.specs.Prelude.{◌≡◌, None, Some, IfOk, OnOk};
ghost use Rattle.sc_hosts.specs.Branches.{new_proxy};
ghost use Rattle.sc_hosts.specs.Messages.{bare_answer, on_branch, passed_request};
ghost use Rattle.sc_hosts.specs.Preparing.{kept_of};
ghost use Rattle.sc_hosts.specs.Words.{too_many_hops};
ghost use Rattle.sc_hosts.specs.Working.{event_of, next_branch};
ghost use Rattle.sc_hosts.specs.Acting.{hops_spent, is_request_event, passed_later, passed_on, passed_request_of, passes_later, sent_proxy};
ghost use Rattle.sc_finish.specs.Passing.{answers_alone, request_onward, sends_on};

use crate::faults::{answers_alone, bare_answer, request_at};
use sc_acting::{draw, give};
use sc_branches::new_proxy;
use sc_effects::{answered, is_owed, kept_of};
use sc_legs::is_invalid;
use sc_messages::{on_branch, passed_request};
use sc_methods::is_ack;
use sc_sending::{answering, event_of, next_branch};
use sc_state::{Branch, Kept, Known, Order, Proxy, Queued, Working};
use sc_terms::{Answer, Config, RequestView, View};
use sc_value::{CloneIn, NoMemory, ReqId, Request, Shared, sum};
use std::alloc::Global;

#[tactic(auto, unfolding(sc_hosts::specs::Words::too_many_hops))]
fn hops_answer(alloc: Global) -> Result<Answer, NoMemory>
    ensures { IfOk result (λ answer. answer ≡ bare_answer 483 too_many_hops) }
{
    bare_answer(alloc, 483, b"Too Many Hops")
}

#[tactic(auto, unfolding(sc_hosts::specs::Acting::hops_spent, sc_hosts::specs::Messages::bare_answer, crate::specs::Passing::answers_alone))]
fn hops_spent(
    alloc: Global,
    config: &Config,
    request: &RequestView,
    working: &mut Working,
) -> Result<(), NoMemory>
    ensures { OnOk result (working.new ≡ hops_spent config.now request.now working.old) }
{
    if !is_owed(request) {
        return Ok(());
    }
    let answer = hops_answer(alloc)?;
    answers_alone(alloc, config, request, &answer, working)
}

/// A proxy of one branch.
#[tactic(auto, unfolding(sc_hosts::specs::Acting::sent_proxy, sc_hosts::specs::Branches::new_proxy))]
fn sent_proxy(alloc: Global, kept: &Kept, branch: u64) -> Result<Proxy, NoMemory>
    ensures { IfOk result (λ proxy. proxy ≡ sent_proxy kept.now branch) }
{
    let event = event_of(kept.way);
    let mut proxy = new_proxy(alloc, kept.id, kept.sess, event, &kept.request, None)?;
    proxy.branches.push(Branch {
        number: branch,
        ended: None,
        cancelled: false,
        due: None,
    })?;
    Ok(proxy)
}

#[tactic(auto, unfolding(crate::specs::Passing::request_onward))]
fn passed(
    alloc: Global,
    config: &Config,
    view: &View,
    branch: u64,
    request: &Request,
) -> Result<Request, NoMemory>
    ensures { IfOk result (λ r. r ≡ request_onward config.now view.entry.now branch request.now) }
{
    let one_less = passed_request(alloc, request)?;
    on_branch(alloc, config, view, branch, &one_less)
}

fn passed_owner(
    alloc: Global,
    config: &Config,
    view: &View,
    branch: u64,
    request: &Request,
) -> Result<Shared<Request>, NoMemory>
    ensures { IfOk result (λ r. r ≡ request_onward config.now view.entry.now branch request.now) }
{
    let sent = passed(alloc, config, view, branch, request)?;
    Shared::new(alloc, sent)
}

#[tactic(auto, unfolding(crate::specs::Passing::sends_on))]
fn sends_on(
    alloc: Global,
    kept: &Kept,
    branch: u64,
    sent: Shared<Request>,
    working: &mut Working,
) -> Result<(), NoMemory>
    ensures { OnOk result (working.new ≡ sends_on kept.now branch sent working.old) }
{
    let proxy = sent_proxy(alloc, kept, branch)?;
    working.known.proxies.push(proxy)?;
    give(
        working,
        Order::Send {
            branch,
            request: sent,
        },
    )
}

#[tactic(auto, using(crate::proofs::Passings::passed_on_ack, crate::proofs::Passings::passed_on_other))]
fn passed_on(
    alloc: Global,
    config: &Config,
    kept: &Kept,
    working: &mut Working,
) -> Result<(), NoMemory>
    ensures { OnOk result (working.new ≡ passed_on config.now kept.now working.old) }
{
    let branch = next_branch(working)?;
    let request = kept.request.get();
    let sent = passed_owner(alloc, config, &working.play.view, branch, request)?;
    draw(&mut working.play.view)?;
    if is_ack(request.method.as_bytes()) {
        return give(working, Order::Acknowledge { request: sent });
    }
    sends_on(alloc, kept, branch, sent, working)
}

#[tactic(auto, unfolding(sc_hosts::specs::Acting::passed_later))]
fn passed_later(
    alloc: Global,
    config: &Config,
    request: &RequestView,
    kept: &Option<Kept>,
    working: &mut Working,
) -> Result<(), NoMemory>
    ensures { OnOk result (working.new ≡ passed_later config.now request.now kept.now working.old) }
{
    match kept {
        Some(kept) => {
            if request.initial || !request.proxied || is_invalid(&working.known, request.sess) {
                return Ok(());
            }
            if request.hops == 0 {
                return hops_spent(alloc, config, request, working);
            }
            passed_on(alloc, config, kept, working)
        }
        None => Ok(()),
    }
}

fn kept_copy(alloc: Global, known: &Known, req: ReqId) -> Result<Option<Kept>, NoMemory>
    ensures { IfOk result (λ kept. kept ≡ kept_of known.now req) }
{
    match kept_of(known, req) {
        Some(kept) => Ok(Some(kept.clone_in(alloc)?)),
        None => Ok(None),
    }
}

#[tactic(auto, unfolding(sc_hosts::specs::Acting::passed_request_of))]
fn passed_request_of(
    alloc: Global,
    config: &Config,
    request: &Option<RequestView>,
    working: &mut Working,
) -> Result<(), NoMemory>
    ensures { OnOk result (working.new ≡ passed_request_of config.now request.now working.old) }
{
    match request {
        Some(request) => {
            let kept = kept_copy(alloc, &working.known, request.id)?;
            passed_later(alloc, config, request, &kept, working)
        }
        None => Ok(()),
    }
}

#[tactic(auto, unfolding(sc_hosts::specs::Acting::is_request_event))]
fn is_request_event(event: &Queued) -> bool
    ensures { result ≡ is_request_event event.now }
{
    match event {
        Queued::Request { .. } => true,
        _ => false,
    }
}

/// A later request that came on a proxied dialog is passed on, unless it has no hops left.
#[tactic(auto, unfolding(sc_hosts::specs::Acting::passes_later))]
pub fn passes_later(
    alloc: Global,
    config: &Config,
    event: &Queued,
    req: Option<ReqId>,
    working: &mut Working,
) -> Result<(), NoMemory>
    ensures { OnOk result (working.new ≡ passes_later config.now event.now req working.old) }
{
    if !is_request_event(event) {
        return Ok(());
    }
    let request = request_at(alloc, &working.play.view, req)?;
    passed_request_of(alloc, config, &request, working)
}
