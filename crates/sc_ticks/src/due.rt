//! What runs in a net and may be due, each with its key and what is due there.

ghost use Rattle.std.specs.Prelude.{◌≡◌, ◌++◌, IfOk, OnOk};
ghost use Rattle.std.specs.List.{flat_map};
ghost use Rattle.sc_hosts.specs.Histories.{as_session};
ghost use Rattle.sc_hosts.specs.Ticks.{client_dated, client_timer, dated_entry, live_dated, server_dated};
ghost use Rattle.sc_ticks.specs.Due.{host_due, hosts_due};
ghost use Rattle.sc_ticks.specs.Items.{item_of, entry_dated};

use crate::entries::{SessionEntry, entries_of};
use sc_due::DueKey;
use sc_parts::TimerName;
use sc_state::{Client, Fired, Host, Live, Net, Queued, Server, Session, is_fired};
use sc_transact::{due_of_client, due_of_server, is_cancel_client};
use sc_value::{AppId, CloneIn, List, NoMemory, Shared, sum_u32};
use std::alloc::Global;
use std::marker::Model;

/// What is due at a moment.
#[derive(Drop)]
pub enum Item {
    /// The event of an entry of a session.
    Event { app: AppId, event: Queued },
    /// The timer of a client transaction.
    Client(Shared<Client>),
    /// The timer of a server transaction.
    Server(Shared<Server>),
}

/// An item with its key.
#[derive(Drop)]
pub struct Dated {
    pub key: DueKey,
    pub item: Item,
}

impl Model for Dated {
    ghost use Rattle.sc_hosts.specs.Ticks.{Dated as Seen};
    ghost use Rattle.sc_ticks.specs.Items.{item_of};

    ghost Value = { Seen };

    ghost view = { λ d. record { entry = d.key; item = item_of d.item } };
}

#[tactic(auto, unfolding(sc_hosts::specs::Ticks::dated_entry))]
fn put_dated(
    app: AppId,
    timer: TimerName,
    item: Item,
    due: Option<u64>,
    out: &mut List<Dated>,
) -> Result<(), NoMemory>
    ensures { OnOk result (out.new ≡ out.old ++ dated_entry app timer (item_of item) due) }
{
    match due {
        Some(due) => {
            let key = DueKey { due, app, timer };
            out.push(Dated { key, item })?;
            Ok(())
        }
        None => Ok(()),
    }
}

fn client_timer(client: &Client) -> TimerName
    ensures { result ≡ client_timer client.now }
{
    if is_cancel_client(client) {
        TimerName::Cancel(client.branch)
    } else {
        TimerName::Client(client.branch)
    }
}

#[tactic(auto, unfolding(sc_hosts::specs::Ticks::client_dated))]
fn put_client(alloc: Global, client: &Shared<Client>, out: &mut List<Dated>) -> Result<(), NoMemory>
    ensures { OnOk result (out.new ≡ out.old ++ client_dated client.now) }
{
    let own = client.get();
    let due = due_of_client(own)?;
    let item = Item::Client(client.clone_in(alloc)?);
    put_dated(own.app, client_timer(own), item, due, out)
}

fn put_clients(
    alloc: Global,
    clients: &[Shared<Client>],
    out: &mut List<Dated>,
) -> Result<(), NoMemory>
    ensures { OnOk result (out.new ≡ out.old ++ flat_map client_dated clients.now) }
{
    for client in clients {
        put_client(alloc, client, out)?;
    }
    Ok(())
}

#[tactic(auto, unfolding(sc_hosts::specs::Ticks::server_dated))]
fn put_server(alloc: Global, server: &Shared<Server>, out: &mut List<Dated>) -> Result<(), NoMemory>
    ensures { OnOk result (out.new ≡ out.old ++ server_dated server.now) }
{
    let own = server.get();
    let due = due_of_server(own)?;
    let item = Item::Server(server.clone_in(alloc)?);
    put_dated(own.app, TimerName::Server(own.event), item, due, out)
}

fn put_servers(
    alloc: Global,
    servers: &[Shared<Server>],
    out: &mut List<Dated>,
) -> Result<(), NoMemory>
    ensures { OnOk result (out.new ≡ out.old ++ flat_map server_dated servers.now) }
{
    for server in servers {
        put_server(alloc, server, out)?;
    }
    Ok(())
}

// An entry that has had its event is left out.
#[tactic(auto, unfolding(crate::specs::Items::entry_dated))]
fn put_entry(
    alloc: Global,
    app: AppId,
    fired: &[Fired],
    entry: &SessionEntry,
    out: &mut List<Dated>,
) -> Result<(), NoMemory>
    ensures { OnOk result (out.new ≡ out.old ++ entry_dated app fired.now entry.now) }
{
    if is_fired(fired, entry.due, entry.timer) {
        return Ok(());
    }
    let event = entry.event.clone_in(alloc)?;
    let item = Item::Event { app, event };
    put_dated(app, entry.timer, item, Some(entry.due), out)
}

fn put_entries(
    alloc: Global,
    app: AppId,
    fired: &[Fired],
    entries: &[SessionEntry],
    out: &mut List<Dated>,
) -> Result<(), NoMemory>
    ensures { OnOk result (out.new ≡ out.old ++ flat_map (entry_dated app fired.now) entries.now) }
{
    for entry in entries {
        put_entry(alloc, app, fired, entry, out)?;
    }
    Ok(())
}

#[tactic(auto, unfolding(sc_hosts::specs::Ticks::live_dated, crate::specs::Items::entry_dated, sc_hosts::specs::Histories::as_session))]
fn put_live(
    alloc: Global,
    host: u32,
    live: &Live<Session>,
    out: &mut List<Dated>,
) -> Result<(), NoMemory>
    ensures { OnOk result (out.new ≡ out.old ++ live_dated as_session host live.now) }
{
    let app = AppId {
        host,
        serial: live.serial,
    };
    let entries = entries_of(alloc, live.session.get())?;
    put_entries(alloc, app, live.fired.as_slice(), entries.as_slice(), out)
}

fn put_sessions(
    alloc: Global,
    host: u32,
    sessions: &[Shared<Live<Session>>],
    out: &mut List<Dated>,
) -> Result<(), NoMemory>
    ensures { OnOk result
        (out.new ≡ out.old ++ flat_map (live_dated as_session host) sessions.now) }
{
    for live in sessions {
        put_live(alloc, host, live.get(), out)?;
    }
    Ok(())
}

// What may be due before a moment in a host: the transactions and sessions of which something is.
#[tactic(auto, unfolding(crate::specs::Due::host_due))]
fn put_host(
    alloc: Global,
    past: u64,
    number: u32,
    host: &Host<Session>,
    out: &mut List<Dated>,
) -> Result<(), NoMemory>
    ensures { OnOk result (out.new ≡ out.old ++ host_due past number host.now) }
{
    put_clients(alloc, host.due_clients(alloc, past)?.as_slice(), out)?;
    put_servers(alloc, host.due_servers(alloc, past)?.as_slice(), out)?;
    put_sessions(alloc, number, host.due_lives(alloc, past)?.as_slice(), out)
}

#[tactic(auto, using(crate::proofs::DueHosts::due_next, crate::proofs::DueHosts::due_end))]
fn put_hosts(
    alloc: Global,
    past: u64,
    hosts: &[Host<Session>],
    out: &mut List<Dated>,
) -> Result<(), NoMemory>
    ensures { OnOk result (out.new ≡ out.old ++ hosts_due past 0 hosts.now) }
{
    let mut number: u32 = 0;
    for host in hosts {
        put_host(alloc, past, number, host, out)?;
        number = sum_u32(number, 1)?;
    }
    Ok(())
}

/// What may be due before a moment. `NoMemory` too where a step's changes aren't settled yet.
pub fn due_dated(alloc: Global, past: u64, net: &Net<Session>) -> Result<List<Dated>, NoMemory>
    ensures { IfOk result (λ all. all ≡ hosts_due past 0 net.now.hosts) }
{
    let mut all = List::new(alloc);
    put_hosts(alloc, past, net.hosts.as_slice(), &mut all)?;
    Ok(all)
}
