//! How a request becomes proxied.

ghost use Rattle.std.specs.Prelude.{◌≡◌, IfOk};
ghost use Rattle.sc_hosts.specs.Branches.{new_branch, new_proxy};

use crate::options::branch_due;
use sc_state::{Branch, Proxy};
use sc_terms::ProxyOptions;
use sc_value::{CloneIn, List, NoMemory, ReqId, Request, SessId, Shared};
use std::alloc::Global;

/// A request that is proxied so, or passed on along its dialog where there are no options.
#[tactic(auto, unfolding(sc_hosts::specs::Branches::new_proxy))]
pub fn new_proxy(
    alloc: Global,
    req: ReqId,
    sess: SessId,
    event: u64,
    request: &Shared<Request>,
    how: Option<ProxyOptions>,
) -> Result<Proxy, NoMemory>
    ensures { IfOk result (λ proxy. proxy ≡ new_proxy req sess event request.now how) }
{
    let request = request.clone_in(alloc)?;
    Ok(Proxy {
        req,
        sess,
        event,
        request,
        options: how,
        tried: List::new(alloc),
        targets: List::new(alloc),
        branches: List::new(alloc),
        candidates: List::new(alloc),
        passing: None,
        forwarded: None,
        settled: false,
        heard_final: false,
    })
}

/// A branch that begins at this moment.
#[tactic(auto, unfolding(sc_hosts::specs::Branches::new_branch))]
pub fn new_branch(proxy: &Proxy, number: u64, now: u64) -> Result<Branch, NoMemory>
    ensures { IfOk result (λ branch. branch ≡ new_branch proxy.now number now) }
{
    let due = branch_due(proxy, now)?;
    Ok(Branch {
        number,
        ended: None,
        cancelled: false,
        due,
    })
}
