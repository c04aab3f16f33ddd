//! A session goes away.

ghost use Rattle.std.specs.Prelude.{◌≡◌, OnOk};
ghost use Rattle.sc_value.specs.Lists.{change_nth};
ghost use Rattle.sc_hosts.specs.Histories.{as_session};
ghost use Rattle.sc_hosts.specs.Nets.{after_orders};
ghost use Rattle.sc_hosts.specs.Steps.{inbox_of, live_at, withdrawn, without_application, without_live};
ghost use Rattle.sc_steps.specs.TurnParts.{host_without};

use crate::lives::live_copy;
use sc_finish::goodbye;
use sc_net::obeyed;
use sc_parts::Setup;
use sc_state::{Host, Live, Net, Order, Session, Waiting};
use sc_value::{AppId, NoMemory, Shared};
use std::alloc::Global;

#[tactic(auto, unfolding(crate::specs::TurnParts::host_without))]
fn host_without(alloc: Global, serial: u64, host: &mut Host<Session>) -> Result<(), NoMemory>
    ensures { OnOk result (host.new ≡ host_without serial host.old) }
{
    host.end_live(alloc, serial)
}

#[tactic(auto, using(sc_value::proofs::ListFacts::change_nth_at, sc_value::proofs::ListFacts::change_nth_none))]
fn hosts_without(alloc: Global, app: AppId, hosts: &mut [Host<Session>]) -> Result<(), NoMemory>
    ensures { OnOk result (hosts.new ≡ change_nth app.host (host_without app.serial) hosts.old) }
{
    let at = app.host as usize;
    if at < hosts.len() {
        return host_without(alloc, app.serial, &mut hosts[at]);
    }
    Ok(())
}

/// The net without the session, and without what it alone kept.
#[tactic(auto, unfolding(sc_hosts::specs::Steps::without_live, crate::specs::TurnParts::host_without))]
pub fn without_live(alloc: Global, app: AppId, net: &mut Net<Session>) -> Result<(), NoMemory>
    ensures { OnOk result (net.new ≡ without_live app net.old) }
{
    hosts_without(alloc, app, &mut net.hosts.items)
}

fn goes(
    alloc: Global,
    setup: &Setup,
    app: AppId,
    given: &[Order],
    net: &mut Net<Session>,
) -> Result<(), NoMemory>
    ensures { OnOk result
        (net.new ≡ without_live app (after_orders setup.now app given.now net.old)) }
{
    obeyed(alloc, setup, app, given, net)?;
    without_live(alloc, app, net)
}

/// What invalidation sends is sent, and the session goes (JSR 289 section 6.1.2).
#[tactic(auto, unfolding(sc_hosts::specs::Steps::without_application))]
fn invalidated(
    alloc: Global,
    setup: &Setup,
    app: AppId,
    session: &Session,
    inbox: &[Waiting],
    net: &mut Net<Session>,
) -> Result<(), NoMemory>
    ensures { OnOk result
        (net.new ≡ without_application setup.now app session.now inbox.now net.old) }
{
    let given = goodbye(alloc, &setup.config, session, inbox)?;
    goes(alloc, setup, app, given.as_slice(), net)
}

#[tactic(auto, unfolding(sc_hosts::specs::Steps::inbox_of))]
fn ended_by(
    alloc: Global,
    setup: &Setup,
    app: AppId,
    session: &Session,
    live: &Option<Shared<Live<Session>>>,
    net: &mut Net<Session>,
) -> Result<(), NoMemory>
    ensures { OnOk result
        (net.new ≡ without_application setup.now app session.now (inbox_of live.now) net.old) }
{
    match live {
        Some(live) => {
            let inbox = live.get().inbox.to_list()?;
            invalidated(alloc, setup, app, session, inbox.as_slice(), net)
        }
        None => invalidated(alloc, setup, app, session, &[], net),
    }
}

/// The session ends, of which its turn has made this.
pub fn ended(
    alloc: Global,
    setup: &Setup,
    app: AppId,
    session: &Session,
    net: &mut Net<Session>,
) -> Result<(), NoMemory>
    ensures { OnOk result
        (net.new ≡ without_application setup.now app session.now (inbox_of (live_at app net.old)) net.old) }
{
    let live = live_copy(alloc, app, net)?;
    ended_by(alloc, setup, app, session, &live, net)
}

#[tactic(auto, unfolding(sc_hosts::specs::Steps::withdrawn, sc_hosts::specs::Histories::as_session))]
fn withdrawn_by(
    alloc: Global,
    setup: &Setup,
    app: AppId,
    live: &Option<Shared<Live<Session>>>,
    net: &mut Net<Session>,
) -> Result<(), NoMemory>
    ensures { OnOk result (net.new ≡ withdrawn as_session setup.now app live.now net.old) }
{
    match live {
        Some(live) => {
            let live = live.get();
            let inbox = live.inbox.to_list()?;
            let session = live.session.get();
            invalidated(alloc, setup, app, session, inbox.as_slice(), net)
        }
        None => Ok(()),
    }
}

/// A session is ended from outside, where it lives.
pub fn withdrawn(
    alloc: Global,
    setup: &Setup,
    app: AppId,
    net: &mut Net<Session>,
) -> Result<(), NoMemory>
    ensures { OnOk result
        (net.new ≡ withdrawn as_session setup.now app (live_at app net.old) net.old) }
{
    let live = live_copy(alloc, app, net)?;
    withdrawn_by(alloc, setup, app, &live, net)
}
