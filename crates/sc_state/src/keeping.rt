//! Which transactions a host keeps. Where all are known to be kept, a change asks its own alone.

ghost use Rattle.std.specs.Prelude.{◌≡◌, ◌==◌, ◌||◌, OnOk, true, filter};
ghost use Rattle.std.specs.List.{list_all};
ghost use Rattle.sc_value.specs.Lists.{change_first, remove_first};
ghost use Rattle.sc_state.specs.Keeping.{is_same_client, kept_client, kept_server};
ghost use Rattle.sc_state.specs.Standing.{is_server};

use crate::groups::branch_number;
use crate::probes::{
    KeptClient, KeptServer, LeftClient, LeftServer, is_kept_client, is_kept_server, same_client,
};
use crate::{Client, Live, Server, Timed};
use sc_book::{Line, Rows};
use sc_value::{NoMemory, Shared};
use std::alloc::Global;

/// Lets go of the client transactions that aren't kept.
#[tactic(auto, using(crate::proofs::KeptLaws::clients_same))]
pub fn keep_clients<S: Timed>(
    alloc: Global,
    tidy: bool,
    sessions: &Rows<Live<S>>,
    clients: &mut Line<Client>,
) -> Result<(), NoMemory>
    requires { tidy ≡ true → list_all (kept_client sessions.now) clients.old ≡ true }
    ensures { OnOk result (clients.new ≡ filter (kept_client sessions.now) clients.old) }
{
    if tidy {
        return Ok(());
    }
    clients.keep(alloc, &KeptClient { sessions })
}

/// Lets go of the server transactions that aren't kept.
#[tactic(auto, using(crate::proofs::KeptLaws::servers_same))]
pub fn keep_servers<S: Timed>(
    alloc: Global,
    tidy: bool,
    sessions: &Rows<Live<S>>,
    servers: &mut Rows<Server>,
) -> Result<(), NoMemory>
    requires { tidy ≡ true → list_all (kept_server sessions.now) servers.old ≡ true }
    ensures { OnOk result (servers.new ≡ filter (kept_server sessions.now) servers.old) }
{
    if tidy {
        return Ok(());
    }
    servers.keep(alloc, &KeptServer { sessions })
}

// Puts a client transaction in place of the one of its name.
#[tactic(auto, using(crate::proofs::KeptLaws::named_grouped))]
fn set_client(
    alloc: Global,
    client: Shared<Client>,
    clients: &mut Line<Client>,
) -> Result<(), NoMemory>
    ensures { OnOk result
        (clients.new ≡ change_first (is_same_client client) (λ _. client) clients.old) }
{
    let probe = same_client(client.get());
    let group = branch_number(probe.app, probe.branch);
    clients.set_first(alloc, group, &probe, client)
}

// Takes the client transaction of this one's name away.
#[tactic(auto, using(crate::proofs::KeptLaws::named_grouped))]
fn remove_client(alloc: Global, client: &Client, clients: &mut Line<Client>) -> Result<(), NoMemory>
    ensures { OnOk result (clients.new ≡ remove_first (is_same_client client.now) clients.old) }
{
    let probe = same_client(client);
    let group = branch_number(probe.app, probe.branch);
    clients.remove_first(alloc, group, &probe)
}

// The same where all are kept: it goes where it isn't kept.
#[tactic(auto, using(crate::proofs::KeptLaws::client_gone, crate::proofs::KeptLaws::client_kept))]
fn change_kept_client<S: Timed>(
    alloc: Global,
    sessions: &Rows<Live<S>>,
    client: Shared<Client>,
    clients: &mut Line<Client>,
) -> Result<(), NoMemory>
    requires { list_all (kept_client sessions.now) clients.old ≡ true }
    ensures { OnOk result
        (clients.new
        ≡ filter (kept_client sessions.now)
        (change_first (is_same_client client) (λ _. client) clients.old)) }
{
    if is_kept_client(sessions, client.get()) {
        set_client(alloc, client, clients)?;
        return Ok(());
    }
    remove_client(alloc, client.get(), clients)?;
    Ok(())
}

/// Puts a client transaction in place of the one of its name, and lets go of what isn't kept.
pub fn change_client<S: Timed>(
    alloc: Global,
    tidy: bool,
    sessions: &Rows<Live<S>>,
    client: Shared<Client>,
    clients: &mut Line<Client>,
) -> Result<(), NoMemory>
    requires { tidy ≡ true → list_all (kept_client sessions.now) clients.old ≡ true }
    ensures { OnOk result
        (clients.new
        ≡ filter (kept_client sessions.now)
        (change_first (is_same_client client) (λ _. client) clients.old)) }
{
    if tidy {
        return change_kept_client(alloc, sessions, client, clients);
    }
    set_client(alloc, client, clients)?;
    clients.keep(alloc, &KeptClient { sessions })
}

// Puts a server transaction in place of the one of its event, where all are kept: it goes where it
// isn't kept.
#[tactic(auto, using(crate::proofs::KeptLaws::server_gone, crate::proofs::KeptLaws::server_kept))]
fn change_kept_server<S: Timed>(
    sessions: &Rows<Live<S>>,
    server: Shared<Server>,
    servers: &mut Rows<Server>,
) -> Result<(), NoMemory>
    requires { list_all (kept_server sessions.now) servers.old ≡ true }
    ensures { OnOk result
        (servers.new
        ≡ filter (kept_server sessions.now)
        (change_first (is_server server.event) (λ _. server) servers.old)) }
{
    if is_kept_server(sessions, server.get()) {
        servers.set(server)?;
        return Ok(());
    }
    servers.remove(server.get().event)?;
    Ok(())
}

/// Puts a server transaction in place of the one of its event, and lets go of what isn't kept.
pub fn change_server<S: Timed>(
    alloc: Global,
    tidy: bool,
    sessions: &Rows<Live<S>>,
    server: Shared<Server>,
    servers: &mut Rows<Server>,
) -> Result<(), NoMemory>
    requires { tidy ≡ true → list_all (kept_server sessions.now) servers.old ≡ true }
    ensures { OnOk result
        (servers.new
        ≡ filter (kept_server sessions.now)
        (change_first (is_server server.event) (λ _. server) servers.old)) }
{
    if tidy {
        return change_kept_server(sessions, server, servers);
    }
    servers.set(server)?;
    servers.keep(alloc, &KeptServer { sessions })
}

/// Lets go of the client transactions that aren't kept, where all of other sessions are.
#[tactic(auto, using(crate::proofs::KeptLaws::other_clients, crate::proofs::KeptLaws::left_clients))]
pub fn leave_clients<S: Timed>(
    alloc: Global,
    tidy: bool,
    serial: u64,
    sessions: &Rows<Live<S>>,
    clients: &mut Line<Client>,
) -> Result<(), NoMemory>
    requires { tidy ≡ true
        → list_all (λ client. (client.app.serial == serial) || kept_client sessions.now client)
        clients.old ≡ true }
    ensures { OnOk result (clients.new ≡ filter (kept_client sessions.now) clients.old) }
{
    if tidy {
        clients.keep_in(alloc, serial, &LeftClient { serial, sessions })?;
        return Ok(());
    }
    clients.keep(alloc, &KeptClient { sessions })
}

/// Lets go of the server transactions that aren't kept, where all of other sessions are.
#[tactic(auto, using(crate::proofs::KeptLaws::other_servers, crate::proofs::KeptLaws::left_servers))]
pub fn leave_servers<S: Timed>(
    alloc: Global,
    tidy: bool,
    serial: u64,
    sessions: &Rows<Live<S>>,
    servers: &mut Rows<Server>,
) -> Result<(), NoMemory>
    requires { tidy ≡ true
        → list_all (λ server. (server.app.serial == serial) || kept_server sessions.now server)
        servers.old ≡ true }
    ensures { OnOk result (servers.new ≡ filter (kept_server sessions.now) servers.old) }
{
    if tidy {
        servers.keep_in(alloc, serial, &LeftServer { serial, sessions })?;
        return Ok(());
    }
    servers.keep(alloc, &KeptServer { sessions })
}
