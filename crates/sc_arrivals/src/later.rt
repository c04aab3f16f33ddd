//! Requests with a To tag: the own URI with which they come names their session (RFC 3261 section
//! 12.2.2).

ghost use Rattle.std.specs.Prelude.{◌≡◌, option_and_then, IfOk};
ghost use Rattle.std.specs.Option.{option_copied};
ghost use Rattle.sc_hosts.specs.Nets.{named_host};
ghost use Rattle.sc_hosts.specs.Taking.{own_uri};

use sc_inboxes::own_uri;
use sc_state::{Net, Session};
use sc_terms::Config;
use sc_value::{NoMemory, Request, Uri};
use sc_wire::named_host;
use std::alloc::Global;

fn host_named(alloc: Global, uri: Option<&Uri>, net: &Net<Session>) -> Result<Option<u32>, NoMemory>
    ensures { IfOk result
        (λ number.
        number ≡ option_and_then (λ uri. named_host uri net.now) (option_copied uri.entry)) }
{
    match uri {
        Some(uri) => named_host(alloc, uri, net),
        None => Ok(None),
    }
}

/// The host with the session that a request's own URI names, None where it names none.
pub fn own_host(
    alloc: Global,
    config: &Config,
    request: &Request,
    net: &Net<Session>,
) -> Result<Option<u32>, NoMemory>
    ensures { IfOk result
        (λ number.
        number ≡ option_and_then (λ uri. named_host uri net.now) (own_uri config.now request.now)) }
{
    let uri = own_uri(alloc, config, request)?;
    host_named(alloc, uri, net)
}
