//! A place is lost.

ghost use Rattle.std.specs.Prelude.{◌≡◌, ◌++◌, [], filter, IfOk, OnOk};
ghost use Rattle.std.specs.BTreeSet.{insert_key};
ghost use Rattle.std.specs.List.{flat_map, fold};
ghost use Rattle.sc_parts.specs.declared.transactions.ClientItem.{ClientItem};
ghost use Rattle.sc_hosts.specs.Ticks.{client_order, clients_of, net_after_loss, passes};
ghost use Rattle.sc_hosts.specs.Transacting.{goes_to};
ghost use Rattle.sc_hosts.specs.Words.{unavailable};

use crate::ordered::OrderedClient;
use crate::passing::passes;
use sc_parts::ClientItem;
use sc_state::{Client, Host, Net, Session};
use sc_terms::Config;
use sc_transact::goes_to;
use sc_value::{CloneIn, List, NoMemory, Place, Shared};
use std::alloc::Global;
use std::collections::BTreeSet;

fn put_clients(
    alloc: Global,
    clients: &[Shared<Client>],
    out: &mut List<Shared<Client>>,
) -> Result<(), NoMemory>
    ensures { OnOk result (out.new ≡ out.old ++ clients.now) }
{
    for client in clients {
        out.push(client.clone_in(alloc)?)?;
    }
    Ok(())
}

fn put_all_clients(
    alloc: Global,
    hosts: &[Host<Session>],
    out: &mut List<Shared<Client>>,
) -> Result<(), NoMemory>
    ensures { OnOk result (out.new ≡ out.old ++ flat_map (λ host. host.clients) hosts.now) }
{
    for host in hosts {
        put_clients(alloc, host.clients(alloc)?.as_slice(), out)?;
    }
    Ok(())
}

#[tactic(auto, unfolding(sc_hosts::specs::Ticks::clients_of))]
fn clients_of(alloc: Global, net: &Net<Session>) -> Result<List<Shared<Client>>, NoMemory>
    ensures { IfOk result (λ clients. clients ≡ clients_of net.now) }
{
    let mut clients = List::new(alloc);
    put_all_clients(alloc, net.hosts.as_slice(), &mut clients)?;
    Ok(clients)
}

fn going_to(
    alloc: Global,
    place: Place,
    clients: &[Shared<Client>],
) -> Result<List<Shared<Client>>, NoMemory>
    ensures { IfOk result
        (λ going. going ≡ filter (λ client. goes_to place client.peer) clients.now) }
{
    let mut going = List::new(alloc);
    for client in clients {
        if goes_to(place, client.get().peer) {
            going.push(client.clone_in(alloc)?)?;
        }
    }
    Ok(going)
}

// Of two that the order doesn't tell apart the first stands.
fn in_order(alloc: Global, clients: &[Shared<Client>]) -> Result<BTreeSet<OrderedClient>, NoMemory>
    ensures { IfOk result
        (λ ordered. ordered.keys ≡ fold (insert_key client_order) [] clients.now) }
{
    let mut ordered = BTreeSet::new(alloc);
    for client in clients {
        ordered.insert(OrderedClient::new(client.clone_in(alloc)?))?;
    }
    Ok(ordered)
}

#[tactic(auto, unfolding(sc_hosts::specs::Words::unavailable))]
fn loses(
    alloc: Global,
    config: &Config,
    client: &Client,
    net: &mut Net<Session>,
) -> Result<(), NoMemory>
    ensures { OnOk result
        (net.new ≡ passes config.now ClientItem.PlaceLost unavailable net.old client.now) }
{
    passes(
        alloc,
        config,
        ClientItem::PlaceLost,
        b"Service Unavailable",
        client,
        net,
    )
}

fn all_lost(
    alloc: Global,
    config: &Config,
    clients: &BTreeSet<OrderedClient>,
    net: &mut Net<Session>,
) -> Result<(), NoMemory>
    ensures { OnOk result
        (net.new
        ≡ fold (passes config.now ClientItem.PlaceLost unavailable) net.old clients.now.keys) }
{
    for client in clients {
        loses(alloc, config, client.get(), net)?;
    }
    Ok(())
}

/// A place is lost: each client transaction whose request went there ends as by 503 (RFC 3261
/// section 8.1.3.1), and its session is told so. They do it by host, serial and branch.
#[tactic(auto, unfolding(sc_hosts::specs::Ticks::net_after_loss, sc_hosts::specs::Ticks::clients_to))]
pub fn lost(
    alloc: Global,
    config: &Config,
    place: Place,
    net: &mut Net<Session>,
) -> Result<(), NoMemory>
    ensures { OnOk result (net.new ≡ net_after_loss config.now place net.old) }
{
    let clients = clients_of(alloc, net)?;
    let going = going_to(alloc, place, clients.as_slice())?;
    let ordered = in_order(alloc, going.as_slice())?;
    all_lost(alloc, config, &ordered, net)
}
