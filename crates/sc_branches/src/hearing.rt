//! What a response makes of a proxied request (RFC 3261 section 16.7).

ghost use Rattle.std.specs.Prelude.{◌≡◌, false, OnOk};
ghost use Rattle.std.specs.Option.{option_map_or};
ghost use Rattle.sc_model.specs.SessionStates.{is_final};
ghost use Rattle.sc_model.specs.Transactions.{is_success};
ghost use Rattle.sc_hosts.specs.Branches.{after_end, after_ringing, branch_in, ended_branch, ended_by, is_global, is_open, passing_on, proxy_after_response};
ghost use Rattle.sc_branches.specs.Changes.{after_final, candidate_unless, ending};

use crate::changing::{due_in, end_in, stopped, with_targets};
use crate::options::{branch_due, branch_in, is_open};
use crate::targets::added_targets;
use sc_methods::{is_final, is_success};
use sc_state::{Passing, Proxy};
use sc_value::{CloneIn, NoMemory, Response, SessId, Shared};
use std::alloc::Global;

/// A 6xx, which speaks for every place.
pub fn is_global(code: u16) -> bool
    ensures { result ≡ is_global code }
{
    600 <= code
}

// A 101 to 199 begins the timer again.
#[tactic(auto, unfolding(sc_hosts::specs::Branches::after_ringing, crate::specs::Changes::with_due))]
fn rung(proxy: &mut Proxy, number: u64, now: u64) -> Result<(), NoMemory>
    ensures { OnOk result (proxy.new ≡ after_ringing number now proxy.old) }
{
    let due = branch_due(proxy, now)?;
    due_in(&mut proxy.branches.items, number, due);
    Ok(())
}

/// The branch of this number has a final response of this code.
#[tactic(auto, unfolding(sc_hosts::specs::Branches::ended_branch))]
fn ended_branch(proxy: &mut Proxy, number: u64, code: u16)
    ensures { proxy.new ≡ ended_branch number code proxy.old }
{
    end_in(&mut proxy.branches.items, number, code);
    proxy.heard_final = true;
}

#[tactic(auto, unfolding(crate::specs::Changes::candidate_unless))]
fn candidate_unless(
    alloc: Global,
    proxy: &mut Proxy,
    response: &Shared<Response>,
    drops: bool,
) -> Result<(), NoMemory>
    ensures { OnOk result (proxy.new ≡ candidate_unless drops response.now proxy.old) }
{
    if drops {
        return Ok(());
    }
    let owner = response.clone_in(alloc)?;
    proxy.candidates.push(owner)?;
    Ok(())
}

// It is forwarded at the end of the turn.
#[tactic(auto, unfolding(sc_hosts::specs::Branches::passing_on))]
fn passing_on(
    alloc: Global,
    proxy: &mut Proxy,
    sess: SessId,
    response: &Shared<Response>,
) -> Result<(), NoMemory>
    ensures { OnOk result (proxy.new ≡ passing_on sess response.now proxy.old) }
{
    let response = response.clone_in(alloc)?;
    proxy.passing = Some(Passing { sess, response });
    Ok(())
}

// A final response of this branch: a 3xx that adds a target is no candidate, the others but 2xx
// are.
#[tactic(auto, unfolding(crate::specs::Changes::after_final, crate::specs::Changes::candidate_unless, sc_hosts::specs::Branches::with_candidate, sc_hosts::specs::Branches::added_targets, sc_hosts::specs::Branches::ended_branch, sc_hosts::specs::Branches::recurses))]
fn noted(
    alloc: Global,
    proxy: &mut Proxy,
    number: u64,
    response: &Shared<Response>,
) -> Result<(), NoMemory>
    ensures { OnOk result (proxy.new ≡ after_final number response.now proxy.old) }
{
    let added = added_targets(alloc, proxy, response.get())?;
    let drops = is_success(response.get().code) || !added.is_empty();
    ended_branch(proxy, number, response.get().code);
    candidate_unless(alloc, proxy, response, drops)?;
    with_targets(alloc, proxy, added.as_slice())
}

// A 2xx is forwarded, and a 2xx or a 6xx ends the search.
#[tactic(auto, unfolding(crate::specs::Changes::ending))]
fn ending(
    alloc: Global,
    proxy: &mut Proxy,
    sess: SessId,
    response: &Shared<Response>,
) -> Result<(), NoMemory>
    ensures { OnOk result (proxy.new ≡ ending sess response.now proxy.old) }
{
    let code = response.get().code;
    if is_success(code) {
        stopped(proxy);
        return passing_on(alloc, proxy, sess, response);
    }
    if is_global(code) {
        stopped(proxy);
    }
    Ok(())
}

/// The first final response of a branch, handled in this SipSession.
#[tactic(auto, unfolding(sc_hosts::specs::Branches::ended_by, crate::specs::Changes::after_final, crate::specs::Changes::ending))]
pub fn ended_by(
    alloc: Global,
    proxy: &mut Proxy,
    number: u64,
    sess: SessId,
    response: &Shared<Response>,
) -> Result<(), NoMemory>
    ensures { OnOk result (proxy.new ≡ ended_by number sess response.now proxy.old) }
{
    noted(alloc, proxy, number, response)?;
    ending(alloc, proxy, sess, response)
}

// A response on a branch that has its final response, or that its timer ended: a 2xx is forwarded
// and ends the search, nothing else counts.
#[tactic(auto, unfolding(sc_hosts::specs::Branches::after_end))]
fn after_end(
    alloc: Global,
    proxy: &mut Proxy,
    sess: SessId,
    response: &Shared<Response>,
) -> Result<(), NoMemory>
    ensures { OnOk result (proxy.new ≡ after_end sess response.now proxy.old) }
{
    if is_success(response.get().code) {
        stopped(proxy);
        return passing_on(alloc, proxy, sess, response);
    }
    Ok(())
}

fn is_open_at(proxy: &Proxy, number: u64) -> bool
    ensures { result ≡ option_map_or is_open (branch_in proxy.now number) false }
{
    match branch_in(proxy, number) {
        Some(branch) => is_open(branch),
        None => false,
    }
}

/// What a response on this branch makes of the proxy, handled in this SipSession at this moment.
#[tactic(auto, unfolding(sc_hosts::specs::Branches::proxy_after_response))]
pub fn heard(
    alloc: Global,
    proxy: &mut Proxy,
    number: u64,
    sess: SessId,
    response: &Shared<Response>,
    now: u64,
) -> Result<(), NoMemory>
    ensures { OnOk result
        (proxy.new ≡ proxy_after_response number sess response.now now proxy.old) }
{
    if !is_open_at(proxy, number) {
        return after_end(alloc, proxy, sess, response);
    }
    if is_final(response.get().code) {
        return ended_by(alloc, proxy, number, sess, response);
    }
    rung(proxy, number, now)?;
    passing_on(alloc, proxy, sess, response)
}
