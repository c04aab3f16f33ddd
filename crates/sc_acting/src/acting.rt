//! Proxied requests act at the end of a turn (RFC 3261 section 16).

ghost use Rattle.std.specs.Prelude.{◌≡◌, IfOk, OnOk};
ghost use Rattle.std.specs.List.{fold};
ghost use Rattle.sc_hosts.specs.Acting.{acts, after_proxy, after_start, all_act};
ghost use Rattle.sc_hosts.specs.Branches.{new_branch, records_route};
ghost use Rattle.sc_hosts.specs.Messages.{proxied_request};
ghost use Rattle.sc_hosts.specs.Working.{next_branch};
ghost use Rattle.sc_acting.specs.Acts.{begin_order, sent_to};

use crate::changing::{draw, give, proxy_now, rest, with_branch};
use crate::closing::{closes, sends_cancels};
use crate::forwarding::{chooses, passes};
use crate::quiet::acting;
use sc_branches::{new_branch, records_route, starting};
use sc_legs::is_invalid;
use sc_messages::{on_branch, proxied_request};
use sc_state::{Branch, Order, Proxy, Working};
use sc_terms::{Config, View};
use sc_value::{Directive, NoMemory, Request, Shared, Uri, sum, sum_u32};
use std::alloc::Global;

fn proxied(
    alloc: Global,
    config: &Config,
    view: &View,
    proxy: &Proxy,
    uri: &Uri,
) -> Result<Request, NoMemory>
    ensures { IfOk result
        (λ r.
        r
        ≡ proxied_request config.now view.entry.now (records_route proxy.now) uri.now
        proxy.now.request) }
{
    let route = records_route(proxy);
    proxied_request(alloc, config, view, route, uri, proxy.request.get())
}

#[tactic(auto, unfolding(crate::specs::Acts::sent_to))]
fn sent_to(
    alloc: Global,
    config: &Config,
    view: &View,
    proxy: &Proxy,
    uri: &Uri,
    branch: u64,
) -> Result<Request, NoMemory>
    ensures { IfOk result (λ r. r ≡ sent_to config.now view.entry.now proxy.now uri.now branch) }
{
    let request = proxied(alloc, config, view, proxy, uri)?;
    on_branch(alloc, config, view, branch, &request)
}

#[tactic(auto, unfolding(crate::specs::Acts::begin_order))]
fn begin_order(
    alloc: Global,
    config: &Config,
    proxy: &Proxy,
    working: &Working,
    uri: &Uri,
) -> Result<Order, NoMemory>
    ensures { IfOk result (λ order. order ≡ begin_order config.now proxy.now working.now uri.now) }
{
    let branch = sum(working.play.view.counter, 1)?;
    let place = sum_u32(working.known.order, 1)?;
    let sent = sent_to(alloc, config, &working.play.view, proxy, uri, branch)?;
    let request = Shared::new(alloc, sent)?;
    Ok(Order::Begin {
        branch,
        directive: Directive::Continue,
        region: working.known.region,
        state: Some(place),
        request,
    })
}

fn next_branch_of(proxy: &Proxy, working: &Working) -> Result<Branch, NoMemory>
    ensures { IfOk result
        (λ branch.
        branch ≡ new_branch proxy.now (next_branch working.now) working.now.play.view.now) }
{
    let number = sum(working.play.view.counter, 1)?;
    new_branch(proxy, number, working.play.view.now)
}

/// A target gets its branch, and the router goes on behind the place of the application.
#[tactic(auto, using(crate::proofs::Starts::started_is))]
fn started(
    alloc: Global,
    config: &Config,
    proxy: &Proxy,
    working: &mut Working,
    uri: &Uri,
) -> Result<(), NoMemory>
    ensures { OnOk result (working.new ≡ after_start config.now proxy.now working.old uri.now) }
{
    let branch = next_branch_of(proxy, working)?;
    let order = begin_order(alloc, config, proxy, working, uri)?;
    give(working, order)?;
    draw(&mut working.play.view)?;
    with_branch(&mut working.known, proxy.req, branch)
}

fn all_started(
    alloc: Global,
    config: &Config,
    proxy: &Proxy,
    working: &mut Working,
    uris: &[Uri],
) -> Result<(), NoMemory>
    ensures { OnOk result
        (working.new ≡ fold (after_start config.now proxy.now) working.old uris.now) }
{
    for uri in uris {
        started(alloc, config, proxy, working, uri)?;
    }
    Ok(())
}

/// New branches, then what is forwarded, then CANCELs in the order of branches.
#[tactic(auto, unfolding(sc_hosts::specs::Acting::after_proxy))]
fn acted(
    alloc: Global,
    config: &Config,
    proxy: &Proxy,
    working: &mut Working,
) -> Result<(), NoMemory>
    ensures { OnOk result (working.new ≡ after_proxy config.now proxy.now working.old) }
{
    let uris = starting(alloc, proxy)?;
    all_started(alloc, config, proxy, working, uris.as_slice())?;
    let begun = proxy_now(alloc, proxy, working)?;
    passes(alloc, &begun, &proxy.passing, working)?;
    let passed = proxy_now(alloc, proxy, working)?;
    chooses(alloc, &passed, working)?;
    let chosen = proxy_now(alloc, proxy, working)?;
    sends_cancels(alloc, proxy, working)?;
    closes(&chosen, working);
    rest(&mut working.known, proxy.req)?;
    Ok(())
}

#[tactic(auto, unfolding(sc_hosts::specs::Acting::acts))]
fn acts(
    alloc: Global,
    config: &Config,
    working: &mut Working,
    proxy: &Proxy,
) -> Result<(), NoMemory>
    ensures { OnOk result (working.new ≡ acts config.now working.old proxy.now) }
{
    if is_invalid(&working.known, proxy.sess) {
        return Ok(());
    }
    acted(alloc, config, proxy, working)
}

fn each_acts(
    alloc: Global,
    config: &Config,
    working: &mut Working,
    proxies: &[Proxy],
) -> Result<(), NoMemory>
    ensures { OnOk result (working.new ≡ fold (acts config.now) working.old proxies.now) }
{
    for proxy in proxies {
        acts(alloc, config, working, proxy)?;
    }
    Ok(())
}

/// All proxied requests act, in the order of their numbers; one whose SipSession the application
/// ended does nothing. Those are passed over that have nothing to do.
pub fn all_act(alloc: Global, config: &Config, working: &mut Working) -> Result<(), NoMemory>
    ensures { OnOk result (working.new ≡ all_act config.now working.old) }
{
    let proxies = acting(alloc, &working.known.proxies)?;
    each_acts(alloc, config, working, proxies.as_slice())
}
