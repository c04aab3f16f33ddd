//! Messages on their way, and hosts that take something.

ghost use Rattle.std.specs.Prelude.{◌≡◌, Some, slice_get, IfOk, OnOk};
ghost use Rattle.std.specs.Option.{option_copied};
ghost use Rattle.sc_value.specs.Lists.{change_nth};
ghost use Rattle.sc_hosts.specs.Nets.{change_host, host_at, put_reply, queue_for, with_message};
ghost use Rattle.sc_hosts.specs.Inboxes.{queue};
ghost use Rattle.sc_hosts.specs.Transacting.{with_client};
ghost use Rattle.sc_wire.specs.HostChanges.{with_own_client, host_after, told_after, net_after};

use sc_inboxes::{Told, queue};
use sc_state::{Client, Entry, Host, Net, Note, Peer, Queued, Reply, Session};
use sc_transact::with_client;
use sc_value::{AppId, Message, NoMemory, Sent};
use std::alloc::Global;

/// The host of this number, None where there is none.
pub fn host_at(number: u32, net: &Net<Session>) -> Option<&Host<Session>>
    ensures { option_copied result ≡ host_at number net.entry.now }
{
    net.hosts.as_slice().get(number as usize)
}

/// A message goes outside at once, or onto the wire.
#[tactic(auto, unfolding(sc_hosts::specs::Nets::with_message))]
pub fn put(
    sender: u32,
    peer: Peer,
    message: Message,
    noted: Option<Note>,
    net: &mut Net<Session>,
) -> Result<(), NoMemory>
    ensures { OnOk result (net.new ≡ with_message sender peer message noted net.old) }
{
    match peer {
        Peer::Outside(place) => {
            net.sent.push(Sent { place, message })?;
            Ok(())
        }
        Peer::Inside(host) => {
            net.wire.push(Entry {
                sender,
                receiver: host,
                message,
                note: noted,
            })?;
            Ok(())
        }
        Peer::Nowhere => Ok(()),
    }
}

/// What a host answers at once.
#[tactic(auto, unfolding(sc_hosts::specs::Nets::put_reply))]
pub fn put_reply(sender: u32, reply: Option<Reply>, net: &mut Net<Session>) -> Result<(), NoMemory>
    ensures { OnOk result (net.new ≡ put_reply sender reply net.old) }
{
    match reply {
        Some(reply) => put(sender, reply.peer, reply.message, None, net),
        None => Ok(()),
    }
}

#[tactic(auto, unfolding(crate::specs::HostChanges::with_own_client))]
fn with_own_client(alloc: Global, client: Client, host: &mut Host<Session>) -> Result<(), NoMemory>
    ensures { OnOk result (host.new ≡ with_own_client client host.old) }
{
    with_client(alloc, client, host)
}

#[tactic(auto, using(sc_value::proofs::ListFacts::change_nth_at, sc_value::proofs::ListFacts::change_nth_none))]
fn with_client_in(
    alloc: Global,
    number: u32,
    client: Client,
    hosts: &mut [Host<Session>],
) -> Result<(), NoMemory>
    ensures { OnOk result (hosts.new ≡ change_nth number (with_own_client client) hosts.old) }
{
    let at = number as usize;
    if at < hosts.len() {
        return with_own_client(alloc, client, &mut hosts[at]);
    }
    Ok(())
}

/// One client transaction more of the host of this number.
#[tactic(auto, unfolding(crate::specs::HostChanges::with_own_client))]
pub fn with_client_at(
    alloc: Global,
    number: u32,
    client: Client,
    net: &mut Net<Session>,
) -> Result<(), NoMemory>
    ensures { OnOk result (net.new ≡ change_host number (with_client client) net.old) }
{
    with_client_in(alloc, number, client, &mut net.hosts.items)
}

#[tactic(auto, unfolding(crate::specs::HostChanges::host_after, crate::specs::HostChanges::told_after))]
fn queue_host(
    alloc: Global,
    serial: u64,
    now: u64,
    event: Queued,
    count: u64,
    host: &mut Host<Session>,
) -> Result<Told, NoMemory>
    ensures host { OnOk result (host.new ≡ host_after (queue serial now event count) host.old) }
    ensures told { IfOk result
        (λ t. t ≡ told_after (queue serial now event count) count (Some host.old)) }
{
    queue(alloc, serial, now, event, count, host)
}

#[tactic(auto, unfolding(crate::specs::HostChanges::told_after), using(sc_value::proofs::ListFacts::change_nth_at, sc_value::proofs::ListFacts::change_nth_none, sc_value::proofs::ListFacts::slice_get_at, sc_value::proofs::ListFacts::slice_get_none))]
fn queue_in(
    alloc: Global,
    app: AppId,
    now: u64,
    event: Queued,
    count: u64,
    hosts: &mut [Host<Session>],
) -> Result<Told, NoMemory>
    ensures hosts { OnOk result
        (hosts.new
        ≡ change_nth app.host (host_after (queue app.serial now event count)) hosts.old) }
    ensures told { IfOk result
        (λ t.
        t ≡ told_after (queue app.serial now event count) count (slice_get hosts.old app.host)) }
{
    let at = app.host as usize;
    if at < hosts.len() {
        return queue_host(alloc, app.serial, now, event, count, &mut hosts[at]);
    }
    Ok(Told { reply: None, count })
}

#[tactic(auto, unfolding(crate::specs::HostChanges::net_after))]
fn queue_net(
    alloc: Global,
    app: AppId,
    event: Queued,
    net: &mut Net<Session>,
) -> Result<(), NoMemory>
    ensures { OnOk result
        (net.new
        ≡ net_after (queue app.serial net.old.moment event net.old.count) app.host net.old) }
{
    let told = queue_in(
        alloc,
        app,
        net.moment,
        event,
        net.count,
        &mut net.hosts.items,
    )?;
    net.count = told.count;
    put_reply(app.host, told.reply, net)
}

/// Queues an event for a session where it lives.
#[tactic(auto, using(crate::proofs::HostTaking::net_queued))]
pub fn queue_for(
    alloc: Global,
    app: AppId,
    event: Queued,
    net: &mut Net<Session>,
) -> Result<(), NoMemory>
    ensures { OnOk result (net.new ≡ queue_for app event net.old) }
{
    queue_net(alloc, app, event, net)
}
