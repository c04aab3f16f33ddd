//! The sort of a request that comes from outside: which host has its transaction, and which the
//! session that it names.

ghost use Rattle.std.specs.Prelude.{◌≡◌, IfOk};
ghost use Rattle.sc_hosts.specs.Arrivals.{sort_in};

use crate::finding::claiming_host;
use crate::later::own_host;
use sc_hosts::Sort;
use sc_state::{Net, Session};
use sc_take::sort_of;
use sc_terms::Config;
use sc_value::{NoMemory, Place, Request, tag};
use std::alloc::Global;

/// The sort of a request to the net. Which session it names is looked up where that counts.
#[tactic(auto, using(crate::proofs::Arrivals::sorted_claimed, crate::proofs::Arrivals::sorted_untagged, crate::proofs::Arrivals::sorted_named))]
pub fn sort_in(
    alloc: Global,
    config: &Config,
    from: Place,
    request: &Request,
    net: &Net<Session>,
) -> Result<Sort<u32, u32>, NoMemory>
    ensures { IfOk result (λ sort. sort ≡ sort_in config.now from request.now net.now) }
{
    if let Some(host) = claiming_host(alloc, from, request, net.hosts.as_slice())? {
        return Ok(sort_of(request, Some(host), None));
    }
    if tag(&request.head.to).is_some() {
        let host = own_host(alloc, config, request, net)?;
        return Ok(sort_of(request, None, host));
    }
    Ok(sort_of(request, None, None))
}
