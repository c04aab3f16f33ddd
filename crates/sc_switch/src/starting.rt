//! What a switch begins with.

ghost use Rattle.std.specs.Prelude.{◌≡◌, [], ◌++◌, map, Option, option_map, IfOk, OnOk};
ghost use Rattle.sc_servlets.specs.Stated.{both_charters};
ghost use Rattle.sc_state.specs.Hosts.{Host};
ghost use Rattle.sc_state.specs.declared.session.Session.{Session};
ghost use Rattle.sc_hosts.specs.Runs.{quiet_host, start};

use sc_parts::Setup;
use sc_servlets::{Catalogue, Kind};
use sc_state::{Host, Net, Session};
use sc_terms::{AppEntry, Charter, ListenerCharter};
use sc_value::{List, NoMemory};
use std::alloc::Global;

/// Hosts without sessions, one for each application, of this epoch at this moment.
#[tactic(auto, unfolding(sc_hosts::specs::Runs::start))]
pub fn start_net(
    alloc: Global,
    setup: &Setup,
    epoch: u32,
    began: u64,
) -> Result<Net<Session>, NoMemory>
    ensures { IfOk result (λ net. net ≡ start setup.now epoch began) }
{
    let hosts = quiet_hosts(alloc, setup.config.app.as_slice())?;
    Ok(Net {
        hosts,
        wire: List::new(alloc),
        epoch,
        moment: began,
        count: 0,
        sent: List::new(alloc),
    })
}

fn quiet_hosts(alloc: Global, apps: &[AppEntry]) -> Result<List<Host<Session>>, NoMemory>
    ensures { IfOk result (λ hosts. hosts ≡ map (λ app. quiet_host) apps.now) }
{
    let mut hosts = List::new(alloc);
    add_hosts(alloc, apps, &mut hosts)?;
    Ok(hosts)
}

fn add_hosts(
    alloc: Global,
    apps: &[AppEntry],
    hosts: &mut List<Host<Session>>,
) -> Result<(), NoMemory>
    ensures { OnOk result (hosts.new ≡ hosts.old ++ map (λ app. quiet_host) apps.now) }
{
    match apps {
        [_, rest @ ..] => {
            hosts.push(quiet_host(alloc))?;
            add_hosts(alloc, rest, hosts)
        }
        [] => Ok(()),
    }
}

#[tactic(auto, unfolding(sc_hosts::specs::Runs::quiet_host))]
fn quiet_host(alloc: Global) -> Host<Session>
    ensures { result ≡ quiet_host }
{
    Host::new(alloc)
}

/// Hosts without sessions in place of these, in this epoch, at the moment that is.
pub fn quiet_net(epoch: u32, net: &mut Net<Session>)
    ensures { net.new
        ≡ record {
          hosts = map (λ host. quiet_host) net.old.hosts;
          wire = [];
          epoch = epoch;
          moment = net.old.moment;
          count = 0;
          sent = [];
        } }
{
    quiet_all(&mut net.hosts.items);
    net.wire.items.clear();
    net.epoch = epoch;
    net.count = 0;
    net.sent.items.clear();
}

#[tactic(auto, using(sc_branches::proofs::Mapping::mapped_next))]
fn quiet_all(hosts: &mut [Host<Session>])
    ensures { hosts.new ≡ map (λ host. quiet_host) hosts.old }
{
    for host in hosts {
        quiet(host);
    }
}

#[tactic(auto, unfolding(sc_hosts::specs::Runs::quiet_host))]
fn quiet(host: &mut Host<Session>)
    ensures { host.new ≡ quiet_host }
{
    host.clear();
}

/// The charters of each kind of a catalogue.
pub fn kinds_of(
    alloc: Global,
    apps: &Catalogue,
) -> Result<List<(Charter, Option<ListenerCharter>)>, NoMemory>
    ensures { IfOk result
        (λ kinds.
        kinds
        ≡ map
        (λ k.
        both_charters (stated (k.servlet.vtable, k.servlet.value))
        (option_map (λ l. listens (l.vtable, l.value)) k.listener)) apps.now.kinds) }
{
    let mut kinds = List::new(alloc);
    add_kinds(apps.kinds.as_slice(), &mut kinds)?;
    Ok(kinds)
}

fn add_kinds(
    kinds: &[Kind],
    all: &mut List<(Charter, Option<ListenerCharter>)>,
) -> Result<(), NoMemory>
    ensures { OnOk result
        (all.new
        ≡ all.old
        ++ map
        (λ k.
        both_charters (stated (k.servlet.vtable, k.servlet.value))
        (option_map (λ l. listens (l.vtable, l.value)) k.listener)) kinds.now) }
{
    match kinds {
        [first, rest @ ..] => {
            all.push(first.charters())?;
            add_kinds(rest, all)
        }
        [] => Ok(()),
    }
}
