//! The live sessions of a net.

ghost use Rattle.std.specs.Prelude.{◌≡◌, IfOk};
ghost use Rattle.std.specs.Option.{option_copied};
ghost use Rattle.sc_hosts.specs.Nets.{host_at};
ghost use Rattle.sc_hosts.specs.Steps.{live_at, live_of, ringing_at};

use sc_inboxes::live_in;
use sc_state::{Host, Live, Net, Session};
use sc_transact::ringing_branches;
use sc_value::{AppId, CloneIn, List, NoMemory, Shared};
use sc_wire::host_at;
use std::alloc::Global;

fn live_of(app: AppId, host: Option<&Host<Session>>) -> Option<&Shared<Live<Session>>>
    ensures { option_copied result ≡ live_of app (option_copied host.entry) }
{
    match host {
        Some(host) => live_in(app.serial, host),
        None => None,
    }
}

fn live_owner(app: AppId, net: &Net<Session>) -> Option<&Shared<Live<Session>>>
    ensures { option_copied result ≡ live_at app net.entry.now }
{
    live_of(app, host_at(app.host, net))
}

/// The live session of this name, None where there is none.
pub fn live_at(app: AppId, net: &Net<Session>) -> Option<&Live<Session>>
    ensures { option_copied result ≡ live_at app net.entry.now }
{
    match live_owner(app, net) {
        Some(live) => Some(live.get()),
        None => None,
    }
}

/// The same with an owner of its own, so that the net may change.
pub fn live_copy(
    alloc: Global,
    app: AppId,
    net: &Net<Session>,
) -> Result<Option<Shared<Live<Session>>>, NoMemory>
    ensures { IfOk result (λ live. live ≡ live_at app net.now) }
{
    match live_owner(app, net) {
        Some(live) => Ok(Some(live.clone_in(alloc)?)),
        None => Ok(None),
    }
}

#[tactic(auto, unfolding(sc_hosts::specs::Steps::ringing_at))]
fn ringing_of(
    alloc: Global,
    app: AppId,
    host: Option<&Host<Session>>,
) -> Result<List<u64>, NoMemory>
    ensures { IfOk result (λ branches. branches ≡ ringing_at app (option_copied host.entry)) }
{
    match host {
        Some(host) => ringing_branches(alloc, app, host),
        None => Ok(List::new(alloc)),
    }
}

/// The branches of the session's INVITEs that were answered provisionally.
pub fn ringing_at(alloc: Global, app: AppId, net: &Net<Session>) -> Result<List<u64>, NoMemory>
    ensures { IfOk result (λ branches. branches ≡ ringing_at app (host_at app.host net.now)) }
{
    ringing_of(alloc, app, host_at(app.host, net))
}
