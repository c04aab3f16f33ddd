//! Requests with a To tag and ACKs that a session gives to send: an own URI leads to the session
//! that it names.

ghost use Rattle.std.specs.Prelude.{◌≡◌, if◌then◌else◌, IfOk, OnOk};
ghost use Rattle.sc_model.specs.OwnHosts.{is_own};
ghost use Rattle.sc_hosts.specs.Destinations.{destination, next_uri};
ghost use Rattle.sc_hosts.specs.Nets.{acknowledge, has_named, named_from, named_host, peer_of_host, peer_of_place, send_later, send_named};

use crate::destinations::{destination, next_uri};
use crate::sending::{leave, request_message, send_to, tell_unknown};
use crate::wire::put;
use sc_inboxes::named_live;
use sc_router::is_own;
use sc_state::{Host, Net, Peer, Session};
use sc_terms::Config;
use sc_value::{AppId, NoMemory, Place, Request, Shared, Uri, sum_u32};
use std::alloc::Global;

#[tactic(auto, unfolding(sc_hosts::specs::Nets::has_named))]
fn has_named(
    alloc: Global,
    epoch: u32,
    uri: &Uri,
    number: u32,
    host: &Host<Session>,
) -> Result<bool, NoMemory>
    ensures { IfOk result (λ has. has ≡ has_named epoch uri.now number host.now) }
{
    Ok(named_live(alloc, epoch, number, uri, host)?.is_some())
}

#[tactic(auto, using(crate::proofs::NamedHosts::named_here, crate::proofs::NamedHosts::named_later, crate::proofs::NamedHosts::named_nowhere))]
fn named_among(
    alloc: Global,
    epoch: u32,
    uri: &Uri,
    hosts: &[Host<Session>],
) -> Result<Option<u32>, NoMemory>
    ensures { IfOk result (λ number. number ≡ named_from epoch uri.now 0 hosts.now) }
{
    let mut number: u32 = 0;
    for host in hosts {
        if has_named(alloc, epoch, uri, number, host)? {
            return Ok(Some(number));
        }
        number = sum_u32(number, 1)?;
    }
    Ok(None)
}

/// The number of the first host with a live session that the URI names, None where there is none.
#[tactic(auto, unfolding(sc_hosts::specs::Nets::named_host))]
pub fn named_host(alloc: Global, uri: &Uri, net: &Net<Session>) -> Result<Option<u32>, NoMemory>
    ensures { IfOk result (λ number. number ≡ named_host uri.now net.now) }
{
    named_among(alloc, net.epoch, uri, net.hosts.as_slice())
}

#[tactic(auto, unfolding(sc_hosts::specs::Nets::send_named))]
fn send_named(
    alloc: Global,
    config: &Config,
    app: AppId,
    branch: u64,
    request: &Shared<Request>,
    host: Option<u32>,
    net: &mut Net<Session>,
) -> Result<(), NoMemory>
    ensures { OnOk result (net.new ≡ send_named config.now app branch request.now host net.old) }
{
    match host {
        Some(host) => send_to(alloc, app, branch, Peer::Inside(host), None, request, net),
        None => tell_unknown(alloc, config, app, branch, request.get(), net),
    }
}

/// A request with a To tag goes by an own URI to its session, else outside.
#[tactic(auto, unfolding(sc_hosts::specs::Nets::send_later))]
pub fn send_later(
    alloc: Global,
    config: &Config,
    app: AppId,
    branch: u64,
    request: &Shared<Request>,
    net: &mut Net<Session>,
) -> Result<(), NoMemory>
    ensures { OnOk result (net.new ≡ send_later config.now app branch request.now net.old) }
{
    let uri = next_uri(request.get());
    if is_own(alloc, config, uri)? {
        let host = named_host(alloc, uri, net)?;
        return send_named(alloc, config, app, branch, request, host, net);
    }
    leave(alloc, config, app, branch, request, net)
}

#[tactic(auto, unfolding(sc_hosts::specs::Nets::peer_of_host))]
fn peer_of_host(host: Option<u32>) -> Peer
    ensures { result ≡ peer_of_host host }
{
    match host {
        Some(host) => Peer::Inside(host),
        None => Peer::Nowhere,
    }
}

#[tactic(auto, unfolding(sc_hosts::specs::Nets::peer_of_place))]
fn peer_of_place(place: Option<Place>) -> Peer
    ensures { result ≡ peer_of_place place }
{
    match place {
        Some(place) => Peer::Outside(place),
        None => Peer::Nowhere,
    }
}

fn ack_peer(
    alloc: Global,
    config: &Config,
    request: &Request,
    net: &Net<Session>,
) -> Result<Peer, NoMemory>
    ensures { IfOk result
        (λ peer.
        peer
        ≡ (if is_own config.now (next_uri request.now)
        then peer_of_host (named_host (next_uri request.now) net.now)
        else peer_of_place (destination config.now request.now))) }
{
    let uri = next_uri(request);
    if is_own(alloc, config, uri)? {
        Ok(peer_of_host(named_host(alloc, uri, net)?))
    } else {
        Ok(peer_of_place(destination(config, request)))
    }
}

/// An ACK has no transaction; where it can't go it is dropped.
#[tactic(auto, unfolding(sc_hosts::specs::Nets::acknowledge))]
pub fn acknowledge(
    alloc: Global,
    config: &Config,
    app: AppId,
    request: &Shared<Request>,
    net: &mut Net<Session>,
) -> Result<(), NoMemory>
    ensures { OnOk result (net.new ≡ acknowledge config.now app request.now net.old) }
{
    let peer = ack_peer(alloc, config, request.get(), net)?;
    let message = request_message(alloc, request)?;
    put(app.host, peer, message, None, net)
}
