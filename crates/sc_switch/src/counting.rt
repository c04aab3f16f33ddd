//! What is counted in a net.

ghost use Rattle.std.specs.Prelude.{◌≡◌, length, min, sum_by, IfOk};
ghost use Rattle.sc_hosts.specs.Runs.{live_count, waiting_count};
ghost use Rattle.sc_switch.specs.Counting.{busy_at, busy_count};
ghost use Rattle.sc_switch.specs.Stepping.{waiting_at};

use crate::readied::Readied;
use sc_state::{Host, Net, Session};
use sc_value::{NoMemory, sum};

/// How many application sessions live.
#[tactic(auto, unfolding(sc_hosts::specs::Runs::live_count))]
pub fn live_count(net: &Net<Session>) -> Result<u64, NoMemory>
    ensures { IfOk result (λ count. count ≡ live_count net.now) }
{
    live_among(net.hosts.as_slice())
}

fn live_among(hosts: &[Host<Session>]) -> Result<u64, NoMemory>
    ensures { IfOk result (λ count. count ≡ sum_by (λ host. length host.sessions) hosts.now) }
{
    let mut count = 0;
    for host in hosts {
        count = sum(count, host.live_count() as u64)?;
    }
    Ok(count)
}

/// How many events wait.
#[tactic(auto, unfolding(sc_hosts::specs::Runs::waiting_count, crate::specs::Stepping::waiting_at))]
pub fn waiting_count(net: &Net<Session>) -> Result<u64, NoMemory>
    ensures { IfOk result (λ count. count ≡ waiting_count net.now) }
{
    waiting_among(net.hosts.as_slice())
}

fn waiting_among(hosts: &[Host<Session>]) -> Result<u64, NoMemory>
    ensures { IfOk result (λ count. count ≡ sum_by waiting_at hosts.now) }
{
    let mut count = 0;
    for host in hosts {
        count = sum(count, waiting_at(host))?;
    }
    Ok(count)
}

#[tactic(auto, unfolding(crate::specs::Stepping::waiting_at))]
fn waiting_at(host: &Host<Session>) -> u64
    ensures { result ≡ waiting_at host.now }
{
    host.waiting_count()
}

/// How many transactions live.
#[tactic(auto, unfolding(crate::specs::Counting::busy_count))]
pub fn busy_count(net: &Readied) -> u64
    ensures { result ≡ min (busy_count net.now) u64.MAX }
{
    busy_among(net.get().hosts.as_slice())
}

fn busy_among(hosts: &[Host<Session>]) -> u64
    ensures { result ≡ min (sum_by busy_at hosts.now) u64.MAX }
{
    let mut count: u64 = 0;
    for host in hosts {
        count = count.saturating_add(busy_at(host));
    }
    count
}

#[tactic(auto, using(crate::proofs::Busy::busy_here))]
fn busy_at(host: &Host<Session>) -> u64
    ensures { result ≡ min (busy_at host.now) u64.MAX }
{
    host.busy_clients().saturating_add(host.busy_servers())
}
