//! What a proxied request sends at the end of a turn.

ghost use Rattle.std.specs.Prelude.{◌≡◌, ◌++◌, IfOk, OnOk, map, filter};
ghost use Rattle.sc_branches.specs.Changes.{is_cancelled, number_of};
ghost use Rattle.sc_hosts.specs.Branches.{can_choose, can_pass, cancelled_now, is_exhausted, starting};

use crate::options::{has_open, is_invite, is_open, is_parallel};
use sc_methods::is_success;
use sc_state::{Branch, Proxy};
use sc_value::{CloneIn, List, NoMemory, Response, Uri};
use std::alloc::Global;

/// The targets that are started now: all of them, or the next one where no branch is open.
#[tactic(auto, unfolding(sc_hosts::specs::Branches::starting))]
pub fn starting(alloc: Global, proxy: &Proxy) -> Result<List<Uri>, NoMemory>
    ensures { IfOk result (λ uris. uris ≡ starting proxy.now) }
{
    if is_parallel(proxy) {
        return proxy.targets.clone_in(alloc);
    }
    if has_open(proxy) {
        return Ok(List::new(alloc));
    }
    let mut uris = proxy.targets.clone_in(alloc)?;
    uris.items.truncate(1);
    Ok(uris)
}

/// Whether the best response can go: there is one, no branch is open, no target is left, and none
/// has gone.
#[tactic(auto, unfolding(sc_hosts::specs::Branches::can_choose))]
pub fn can_choose(proxy: &Proxy) -> bool
    ensures { result ≡ can_choose proxy.now }
{
    !proxy.candidates.is_empty()
        && !has_open(proxy)
        && proxy.targets.is_empty()
        && proxy.forwarded.is_none()
}

/// Whether what waits can go: once a final response was forwarded only a further 2xx to INVITE.
#[tactic(auto, unfolding(sc_hosts::specs::Branches::can_pass))]
pub fn can_pass(proxy: &Proxy, response: &Response) -> bool
    ensures { result ≡ can_pass proxy.now response.now }
{
    proxy.forwarded.is_none() || (is_success(response.code) && is_invite(proxy))
}

/// Whether all is over: a final response came in this turn, no branch is open, and no target is
/// left.
#[tactic(auto, unfolding(sc_hosts::specs::Branches::is_exhausted))]
pub fn is_exhausted(proxy: &Proxy) -> bool
    ensures { result ≡ is_exhausted proxy.now }
{
    proxy.heard_final && !has_open(proxy) && proxy.targets.is_empty()
}

#[tactic(auto, unfolding(crate::specs::Changes::is_cancelled))]
fn is_cancelled(branch: &Branch) -> bool
    ensures { result ≡ is_cancelled branch.now }
{
    is_open(branch) && branch.cancelled
}

fn add_cancelled(numbers: &mut Vec<u64>, branches: &[Branch]) -> Result<(), NoMemory>
    ensures { OnOk result
        (numbers.new.items
        ≡ numbers.old.items ++ map number_of (filter is_cancelled branches.now)) }
{
    for branch in branches {
        if is_cancelled(branch) {
            numbers.push(branch.number)?;
        }
    }
    Ok(())
}

/// The numbers of the branches that get a CANCEL, in their order: only those of an INVITE ever do.
#[tactic(auto, unfolding(sc_hosts::specs::Branches::cancelled_now, crate::specs::Changes::is_cancelled))]
pub fn cancelled_now(alloc: Global, proxy: &Proxy) -> Result<Vec<u64>, NoMemory>
    ensures { IfOk result (λ numbers. numbers.items ≡ cancelled_now proxy.now) }
{
    let mut numbers = Vec::new(alloc);
    if is_invite(proxy) {
        add_cancelled(&mut numbers, proxy.branches.as_slice())?;
    }
    Ok(numbers)
}
