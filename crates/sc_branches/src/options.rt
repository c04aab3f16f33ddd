//! What a proxied request was asked with, and its branches by number.

ghost use Rattle.std.specs.Prelude.{◌≡◌, ◌*◌, position, IfOk};
ghost use Rattle.std.specs.List.{find, list_any};
ghost use Rattle.std.specs.Option.{option_copied};
ghost use Rattle.sc_model.specs.SessionStates.{invite};
ghost use Rattle.sc_hosts.specs.Branches.{branch_due, branch_in, has_branch, has_open, is_branch, is_invite, is_open, is_parallel, is_supervised, records_route, recurses};

use sc_state::{Branch, Proxy};
use sc_value::{NoMemory, sum};

/// Whether the branch has no final response.
pub fn is_open(branch: &Branch) -> bool
    ensures { result ≡ is_open branch.now }
{
    branch.ended.is_none()
}

/// Whether one of the branches is open.
pub fn any_open(branches: &[Branch]) -> bool
    ensures { result ≡ list_any is_open branches.now }
{
    branches.iter().any(|branch| is_open(branch))
}

/// Whether a branch is open.
pub fn has_open(proxy: &Proxy) -> bool
    ensures { result ≡ has_open proxy.now }
{
    any_open(proxy.branches.as_slice())
}

/// The place of the branch of this number.
pub fn branch_place(branches: &[Branch], number: u64) -> Option<usize>
    ensures { result ≡ position (is_branch number) branches.now }
{
    branches.iter().position(|branch| branch.number == number)
}

#[tactic(auto, using(sc_value::proofs::ListFacts::find_position, sc_value::proofs::ListFacts::find_none))]
fn branch_among(branches: &[Branch], number: u64) -> Option<&Branch>
    ensures { option_copied result ≡ find (is_branch number) branches.now }
{
    match branch_place(branches, number) {
        Some(at) => Some(&branches[at]),
        None => None,
    }
}

/// The branch of this number.
pub fn branch_in(proxy: &Proxy, number: u64) -> Option<&Branch>
    ensures { option_copied result ≡ branch_in proxy.entry.now number }
{
    branch_among(proxy.branches.as_slice(), number)
}

/// Whether it has a branch of this number.
pub fn has_branch(number: u64, proxy: &Proxy) -> bool
    ensures { result ≡ has_branch number proxy.now }
{
    proxy
        .branches
        .as_slice()
        .iter()
        .any(|branch| branch.number == number)
}

/// Whether an INVITE is proxied.
#[tactic(auto, unfolding(sc_model::specs::SessionStates::invite))]
pub fn is_invite(proxy: &Proxy) -> bool
    ensures { result ≡ is_invite proxy.now }
{
    proxy.request.get().method.as_bytes() == b"INVITE".as_slice()
}

/// Whether the Contacts of a 3xx become targets.
#[tactic(auto, unfolding(sc_hosts::specs::Branches::recurses))]
pub fn recurses(proxy: &Proxy) -> bool
    ensures { result ≡ recurses proxy.now }
{
    match proxy.options {
        Some(options) => options.recurse,
        None => false,
    }
}

/// Whether the application is told of responses.
#[tactic(auto, unfolding(sc_hosts::specs::Branches::is_supervised))]
pub fn is_supervised(proxy: &Proxy) -> bool
    ensures { result ≡ is_supervised proxy.now }
{
    match proxy.options {
        Some(options) => options.supervised,
        None => true,
    }
}

/// Whether the application stays on the path of later requests.
#[tactic(auto, unfolding(sc_hosts::specs::Branches::records_route))]
pub fn records_route(proxy: &Proxy) -> bool
    ensures { result ≡ records_route proxy.now }
{
    match proxy.options {
        Some(options) => options.record_route,
        None => true,
    }
}

/// Whether all targets are tried at once.
#[tactic(auto, unfolding(sc_hosts::specs::Branches::is_parallel))]
pub fn is_parallel(proxy: &Proxy) -> bool
    ensures { result ≡ is_parallel proxy.now }
{
    match proxy.options {
        Some(options) => options.parallel,
        None => true,
    }
}

fn milliseconds(seconds: u16) -> u64
    ensures { result ≡ seconds * 1000 }
{
    u64::from(seconds) * 1000
}

/// The moment, in milliseconds, at which the timer of a branch is due that is begun at this one
/// (RFC 3261 section 16.6, timer C); None of a later request, which has none.
#[tactic(auto, unfolding(sc_hosts::specs::Branches::branch_due))]
pub fn branch_due(proxy: &Proxy, now: u64) -> Result<Option<u64>, NoMemory>
    ensures { IfOk result (λ due. due ≡ branch_due proxy.now now) }
{
    match proxy.options {
        Some(options) => Ok(Some(sum(now, milliseconds(options.timeout))?)),
        None => Ok(None),
    }
}
