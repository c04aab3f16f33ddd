//! What a turn leaves of its live session.

ghost use Rattle.std.specs.Prelude.{◌≡◌, ◌++◌, IfOk, OnOk, drop, filter};
ghost use Rattle.sc_value.specs.Lists.{change_nth};
ghost use Rattle.sc_hosts.specs.Steps.{still_fired};
ghost use Rattle.sc_steps.specs.TurnParts.{is_running, live_after, host_after, net_after};

use sc_state::{Fired, Host, Live, Net, Queue, Session, Waiting};
use sc_ticks::runs;
use sc_value::{AppId, CloneIn, List, NoMemory, Shared};
use std::alloc::Global;

#[tactic(auto, unfolding(crate::specs::TurnParts::is_running))]
fn is_running(session: &Session, fired: Fired) -> bool
    ensures { result ≡ is_running session.now fired }
{
    runs(session, fired.due, fired.timer)
}

fn add_running(
    session: &Session,
    fired: &[Fired],
    running: &mut List<Fired>,
) -> Result<(), NoMemory>
    ensures { OnOk result (running.new ≡ running.old ++ filter (is_running session.now) fired.now) }
{
    for entry in fired {
        if is_running(session, *entry) {
            running.push(*entry)?;
        }
    }
    Ok(())
}

// The entries that the turn leaves in the session.
#[tactic(auto, unfolding(sc_hosts::specs::Steps::still_fired, crate::specs::TurnParts::is_running))]
fn still_fired(alloc: Global, session: &Session, fired: &[Fired]) -> Result<List<Fired>, NoMemory>
    ensures { IfOk result (λ running. running ≡ still_fired session.now fired.now) }
{
    let mut running = List::new(alloc);
    add_running(session, fired, &mut running)?;
    Ok(running)
}

// The events that wait behind the first.
fn behind_first(alloc: Global, inbox: &Queue<Waiting>) -> Result<Queue<Waiting>, NoMemory>
    ensures { IfOk result (λ behind. behind ≡ drop 1 inbox.now) }
{
    let mut behind = inbox.clone_in(alloc)?;
    behind.pop(alloc)?;
    Ok(behind)
}

#[tactic(auto, unfolding(crate::specs::TurnParts::live_after))]
fn live_after(
    alloc: Global,
    now: u64,
    session: &Shared<Session>,
    live: &Live<Session>,
) -> Result<Shared<Live<Session>>, NoMemory>
    ensures { IfOk result (λ own. own ≡ live_after now session.now live.now) }
{
    let fired = still_fired(alloc, session.get(), live.fired.as_slice())?;
    let inbox = behind_first(alloc, &live.inbox)?;
    let session = session.clone_in(alloc)?;
    let own = Live {
        serial: live.serial,
        session,
        inbox,
        since: now,
        fired,
    };
    Shared::new(alloc, own)
}

#[tactic(auto, using(crate::proofs::TurnedHosts::after_none))]
fn host_after(
    alloc: Global,
    serial: u64,
    now: u64,
    session: &Shared<Session>,
    host: &mut Host<Session>,
) -> Result<(), NoMemory>
    ensures { OnOk result (host.new ≡ host_after serial now session.now host.old) }
{
    let own = match host.live(serial) {
        Some(live) => live_after(alloc, now, session, live.get())?,
        None => return Ok(()),
    };
    host.set_live(own)
}

#[tactic(auto, using(sc_value::proofs::ListFacts::change_nth_at, sc_value::proofs::ListFacts::change_nth_none))]
fn hosts_after(
    alloc: Global,
    app: AppId,
    now: u64,
    session: &Shared<Session>,
    hosts: &mut [Host<Session>],
) -> Result<(), NoMemory>
    ensures { OnOk result
        (hosts.new ≡ change_nth app.host (host_after app.serial now session.now) hosts.old) }
{
    let at = app.host as usize;
    if at < hosts.len() {
        return host_after(alloc, app.serial, now, session, &mut hosts[at]);
    }
    Ok(())
}

/// The event leaves the inbox of the live session, which is from now on what its turn made of it.
#[tactic(auto, unfolding(crate::specs::TurnParts::net_after))]
pub fn net_after(
    alloc: Global,
    app: AppId,
    session: &Shared<Session>,
    net: &mut Net<Session>,
) -> Result<(), NoMemory>
    ensures { OnOk result (net.new ≡ net_after app session.now net.old) }
{
    hosts_after(alloc, app, net.moment, session, &mut net.hosts.items)
}
