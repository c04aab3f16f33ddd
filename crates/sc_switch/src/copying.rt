//! Copies of the net: its transactions and sessions get one more owner each.

ghost use Rattle.std.specs.Prelude.{◌≡◌, ◌++◌, ◌∷◌, [], IfOk, OnOk};

use sc_state::{Entry, Host, Net, Session};
use sc_value::{CloneIn, List, NoMemory};
use std::alloc::Global;

/// A copy of a net, with nothing sent. Its list of hosts takes the memory of an empty one.
pub fn copy_net(
    alloc: Global,
    net: &Net<Session>,
    room: List<Host<Session>>,
) -> Result<Net<Session>, NoMemory>
    requires { room ≡ [] }
    ensures { IfOk result (λ copy. copy ≡ record net.now { sent = [] }) }
{
    let hosts = copy_hosts(alloc, net.hosts.as_slice(), room)?;
    let wire = copy_wire(alloc, net.wire.as_slice())?;
    Ok(Net {
        hosts,
        wire,
        epoch: net.epoch,
        moment: net.moment,
        count: net.count,
        sent: List::new(alloc),
    })
}

fn copy_hosts(
    alloc: Global,
    hosts: &[Host<Session>],
    room: List<Host<Session>>,
) -> Result<List<Host<Session>>, NoMemory>
    requires { room ≡ [] }
    ensures { IfOk result (λ copies. copies ≡ hosts.now) }
{
    let mut copies = room;
    copies.items.reserve_exact(hosts.len())?;
    add_hosts(alloc, hosts, &mut copies)?;
    Ok(copies)
}

fn add_hosts(
    alloc: Global,
    hosts: &[Host<Session>],
    copies: &mut List<Host<Session>>,
) -> Result<(), NoMemory>
    ensures { OnOk result (copies.new ≡ copies.old ++ hosts.now) }
{
    for host in hosts {
        add_host(alloc, host, copies)?;
    }
    Ok(())
}

fn add_host(
    alloc: Global,
    host: &Host<Session>,
    copies: &mut List<Host<Session>>,
) -> Result<(), NoMemory>
    ensures { OnOk result (copies.new ≡ copies.old ++ host.now ∷ []) }
{
    let copy = host.clone_in(alloc)?;
    copies.push(copy)?;
    Ok(())
}

fn copy_wire(alloc: Global, entries: &[Entry]) -> Result<List<Entry>, NoMemory>
    ensures { IfOk result (λ copies. copies ≡ entries.now) }
{
    let mut copies = List::new(alloc);
    add_entries(alloc, entries, &mut copies)?;
    Ok(copies)
}

fn add_entries(alloc: Global, entries: &[Entry], copies: &mut List<Entry>) -> Result<(), NoMemory>
    ensures { OnOk result (copies.new ≡ copies.old ++ entries.now) }
{
    for entry in entries {
        add_entry(alloc, entry, copies)?;
    }
    Ok(())
}

fn add_entry(alloc: Global, entry: &Entry, copies: &mut List<Entry>) -> Result<(), NoMemory>
    ensures { OnOk result (copies.new ≡ copies.old ++ entry.now ∷ []) }
{
    let message = entry.message.clone_in(alloc)?;
    let note = entry.note.clone_in(alloc)?;
    copies.push(Entry {
        sender: entry.sender,
        receiver: entry.receiver,
        message,
        note,
    })?;
    Ok(())
}
