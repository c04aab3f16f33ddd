//! Requests with a To tag (RFC 3261 section 12.2.2).

ghost use Rattle.std.specs.Prelude.{◌≡◌, option_and_then, IfOk};
ghost use Rattle.std.specs.Option.{option_copied};
ghost use Rattle.sc_hosts.specs.Taking.{named_live, own_uri, queue_later};
ghost use Rattle.sc_inboxes.specs.TakenParts.{taken_by};

use crate::beginning::own_tag;
use sc_inboxes::{
    Told, is_full, named_live, own_uri, queue, refuse_full, unrouted, with_server, with_trying,
};
use sc_state::{Coming, Host, Live, Queued, Session};
use sc_terms::Config;
use sc_value::{AppId, CloneIn, NoMemory, Request, Shared, Uri, sum};
use std::alloc::Global;

/// A request with a To tag waits in the inbox of its session, where that isn't full.
#[tactic(auto, unfolding(sc_hosts::specs::Taking::queue_later))]
pub fn queue_later(
    alloc: Global,
    config: &Config,
    coming: Coming,
    request: &Shared<Request>,
    live: &Live<Session>,
    host: &mut Host<Session>,
) -> Result<Told, NoMemory>
    ensures { IfOk result
        (λ t. queue_later config.now coming request.now live.now host.old ≡ taken_by host.new t) }
{
    if is_full(live) {
        return refuse_full(alloc, config, coming.from, request.get(), coming.count);
    }
    let own = unrouted(alloc, config, request)?;
    let app = AppId {
        host: coming.host,
        serial: live.serial,
    };
    let event = sum(coming.count, 1)?;
    let tag = own_tag(alloc, config, coming.epoch, app)?;
    with_server(alloc, app, event, coming.from, tag, &own, host)?;
    let told = queue(
        alloc,
        live.serial,
        coming.now,
        Queued::Request { request: own },
        coming.count,
        host,
    )?;
    with_trying(alloc, coming.from, coming.now, request.get(), told, host)
}

fn named_by(
    alloc: Global,
    epoch: u32,
    number: u32,
    uri: Option<&Uri>,
    host: &Host<Session>,
) -> Result<Option<Shared<Live<Session>>>, NoMemory>
    ensures { IfOk result
        (λ live.
        live
        ≡ option_and_then (λ uri. named_live epoch number uri host.now)
        (option_copied uri.entry)) }
{
    let uri = match uri {
        Some(uri) => uri,
        None => return Ok(None),
    };
    match named_live(alloc, epoch, number, uri, host)? {
        Some(live) => Ok(Some(live.clone_in(alloc)?)),
        None => Ok(None),
    }
}

/// The live session of this host that a request's own URI names, None where it names none.
pub fn own_live(
    alloc: Global,
    config: &Config,
    coming: Coming,
    request: &Request,
    host: &Host<Session>,
) -> Result<Option<Shared<Live<Session>>>, NoMemory>
    ensures { IfOk result
        (λ live.
        live
        ≡ option_and_then (λ uri. named_live coming.epoch coming.host uri host.now)
        (own_uri config.now request.now)) }
{
    let uri = own_uri(alloc, config, request)?;
    named_by(alloc, coming.epoch, coming.host, uri, host)
}
