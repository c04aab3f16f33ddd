//! Changes of one proxied request of an application session.

ghost use Rattle.std.specs.Prelude.{◌≡◌, ◌∷◌, [], IfOk, OnOk, map};
ghost use Rattle.sc_hosts.specs.PreparingResponses.{change_proxy};
ghost use Rattle.sc_hosts.specs.Preparing.{proxy_of};
ghost use Rattle.sc_hosts.specs.Giving.{giving};
ghost use Rattle.sc_hosts.specs.Acting.{at_rest, proxy_now, rested_branch, with_forwarded, with_next_branch};
ghost use Rattle.sc_acting.specs.Acts.{with_new_branch};

use sc_effects::{ProxyNumbered, proxy_of};
use sc_methods::is_final;
use sc_pages::{Change, Scope};
use sc_state::{Branch, Known, Order, Proxy, Working};
use sc_terms::View;
use sc_value::{CloneIn, NoMemory, ReqId, sum};
use std::alloc::Global;

/// Gives the host something to send.
pub fn give(working: &mut Working, order: Order) -> Result<(), NoMemory>
    ensures { OnOk result (working.new ≡ giving (order ∷ []) working.old) }
{
    working.orders.push(order)?;
    Ok(())
}

/// A branch is drawn.
pub fn draw(view: &mut View) -> Result<(), NoMemory>
    ensures { OnOk result (view.new ≡ with_next_branch view.old) }
{
    view.counter = sum(view.counter, 1)?;
    Ok(())
}

#[tactic(auto, unfolding(crate::specs::Acts::with_new_branch))]
fn branched(proxy: &mut Proxy, branch: Branch) -> Result<(), NoMemory>
    ensures { OnOk result (proxy.new ≡ with_new_branch branch proxy.old) }
{
    proxy.branches.push(branch)?;
    if !proxy.targets.is_empty() {
        proxy.targets.items.remove(0);
    }
    Ok(())
}

// A branch more of a proxied request.
#[derive(Clone, Copy)]
struct OneBranchMore {
    branch: Branch,
}

impl Change<Proxy> for OneBranchMore {
    ghost changed = { λ p. with_new_branch p.branch };

    fn change(&self, proxy: &mut Proxy) -> Result<(), NoMemory> {
        branched(proxy, self.branch)
    }
}

/// The next target of a proxied request has become this branch.
pub fn with_branch(known: &mut Known, req: ReqId, branch: Branch) -> Result<(), NoMemory>
    ensures { OnOk result (known.new ≡ change_proxy req (with_new_branch branch) known.old) }
{
    let numbered = ProxyNumbered { req };
    known
        .proxies
        .change_first(Scope::Number(req.0), &numbered, &OneBranchMore { branch })
}

#[tactic(auto, unfolding(sc_hosts::specs::Acting::with_forwarded))]
fn with_forwarded(proxy: &mut Proxy, code: u16)
    ensures { proxy.new ≡ with_forwarded code proxy.old }
{
    if is_final(code) && proxy.forwarded.is_none() {
        proxy.forwarded = Some(code);
    }
}

// A response of this code that was forwarded.
#[derive(Clone, Copy)]
struct Forwarded {
    code: u16,
}

impl Change<Proxy> for Forwarded {
    ghost changed = { λ p. with_forwarded p.code };

    fn change(&self, proxy: &mut Proxy) -> Result<(), NoMemory> {
        with_forwarded(proxy, self.code);
        Ok(())
    }
}

/// A response of this code was forwarded: the first final code is kept.
pub fn note_forwarded(known: &mut Known, req: ReqId, code: u16) -> Result<(), NoMemory>
    ensures { OnOk result (known.new ≡ change_proxy req (with_forwarded code) known.old) }
{
    let numbered = ProxyNumbered { req };
    known
        .proxies
        .change_first(Scope::Number(req.0), &numbered, &Forwarded { code })
}

#[tactic(auto, unfolding(sc_hosts::specs::Acting::rested_branch))]
fn rested_branch(branch: &mut Branch)
    ensures { branch.new ≡ rested_branch branch.old }
{
    branch.cancelled = false;
}

fn all_rested(branches: &mut [Branch])
    ensures { branches.new ≡ map rested_branch branches.old }
{
    for branch in branches {
        rested_branch(branch);
    }
}

#[tactic(auto, unfolding(sc_hosts::specs::Acting::at_rest))]
fn rested(proxy: &mut Proxy)
    ensures { proxy.new ≡ at_rest proxy.old }
{
    all_rested(&mut proxy.branches.items);
    proxy.passing = None;
    proxy.heard_final = false;
}

// A proxied request that has done what the turn made it do.
#[derive(Clone, Copy)]
struct AtRest;

impl Change<Proxy> for AtRest {
    ghost changed = { λ _. at_rest };

    fn change(&self, proxy: &mut Proxy) -> Result<(), NoMemory> {
        rested(proxy);
        Ok(())
    }
}

/// A proxied request has done what this turn made it do.
pub fn rest(known: &mut Known, req: ReqId) -> Result<(), NoMemory>
    ensures { OnOk result (known.new ≡ change_proxy req at_rest known.old) }
{
    let numbered = ProxyNumbered { req };
    known
        .proxies
        .change_first(Scope::Number(req.0), &numbered, &AtRest)
}

/// The proxied request as it is now.
#[tactic(auto, unfolding(sc_hosts::specs::Acting::proxy_now))]
pub fn proxy_now(alloc: Global, proxy: &Proxy, working: &Working) -> Result<Proxy, NoMemory>
    ensures { IfOk result (λ p. p ≡ proxy_now proxy.now working.now) }
{
    match proxy_of(&working.known, proxy.req) {
        Some(current) => current.clone_in(alloc),
        None => proxy.clone_in(alloc),
    }
}
