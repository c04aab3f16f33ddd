//! What the application is told of a response on a branch, and the timer of a branch (RFC 3261
//! section 16.8).

ghost use Rattle.std.specs.Prelude.{◌≡◌, ◌==◌, ◌&&◌, not, false, IfOk};
ghost use Rattle.std.specs.Option.{option_map_or};
ghost use Rattle.sc_hosts.specs.Branches.{branch_in, ended_branch, ends_last, ends_search, has_open, is_open, is_timed_out, is_told_whole, leaves_target, to_cancel};

use crate::changing::{cancel_in, end_in};
use crate::hearing::is_global;
use crate::options::{any_open, branch_in, is_invite, is_open};
use crate::targets::added_targets;
use sc_methods::{is_final, is_success};
use sc_state::{Branch, Proxy};
use sc_value::{CloneIn, NoMemory, Response};
use std::alloc::Global;

fn ends_search(code: u16) -> bool
    ensures { result ≡ ends_search code }
{
    is_success(code) || is_global(code)
}

#[tactic(auto, unfolding(sc_hosts::specs::Branches::leaves_target))]
fn leaves_target(proxy: &Proxy, response: &Response) -> bool
    ensures { result ≡ leaves_target proxy.now response.now }
{
    !proxy.targets.is_empty() && !ends_search(response.code)
}

// Whether a branch is open once this one has ended.
#[tactic(auto, unfolding(sc_hosts::specs::Branches::ended_branch))]
fn is_open_beside(alloc: Global, proxy: &Proxy, number: u64, code: u16) -> Result<bool, NoMemory>
    ensures { IfOk result (λ other. other ≡ has_open (ended_branch number code proxy.now)) }
{
    let mut branches = proxy.branches.clone_in(alloc)?;
    end_in(&mut branches.items, number, code);
    Ok(any_open(branches.as_slice()))
}

#[tactic(auto, unfolding(sc_hosts::specs::Branches::ends_last))]
fn ends_last(
    alloc: Global,
    number: u64,
    response: &Response,
    proxy: &Proxy,
) -> Result<bool, NoMemory>
    ensures { IfOk result (λ last. last ≡ ends_last number response.now proxy.now) }
{
    let other = is_open_beside(alloc, proxy, number, response.code)?;
    let added = added_targets(alloc, proxy, response)?;
    Ok(!other && !leaves_target(proxy, response) && added.is_empty())
}

/// Whether the application is told of the response as one to its request, and not as that of one
/// branch.
#[tactic(auto, unfolding(sc_hosts::specs::Branches::is_told_whole))]
pub fn is_told_whole(
    alloc: Global,
    number: u64,
    response: &Response,
    proxy: &Proxy,
) -> Result<bool, NoMemory>
    ensures { IfOk result (λ whole. whole ≡ is_told_whole number response.now proxy.now) }
{
    if !is_final(response.code) || (is_success(response.code) && is_invite(proxy)) {
        return Ok(true);
    }
    ends_last(alloc, number, response, proxy)
}

fn is_due_at(branch: &Branch, due: u64) -> bool
    ensures { result ≡ (is_open branch.now && option_map_or (λ d. d == due) branch.now.due false) }
{
    is_open(branch) && branch.due == Some(due)
}

/// Whether the timer of an open branch was due at this moment, and wasn't begun again since.
#[tactic(auto, unfolding(sc_hosts::specs::Branches::is_timed_out))]
pub fn is_timed_out(number: u64, due: u64, proxy: &Proxy) -> bool
    ensures { result ≡ is_timed_out number due proxy.now }
{
    match branch_in(proxy, number) {
        Some(branch) => is_due_at(branch, due),
        None => false,
    }
}

/// The branch of an INVITE that has a provisional response is cancelled.
#[tactic(auto, unfolding(sc_hosts::specs::Branches::to_cancel, crate::specs::Changes::cancelling))]
pub fn to_cancel(number: u64, proxy: &mut Proxy)
    ensures { proxy.new ≡ to_cancel number proxy.old }
{
    cancel_in(&mut proxy.branches.items, number);
}
