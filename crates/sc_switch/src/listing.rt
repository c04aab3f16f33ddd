//! Which sessions live.

ghost use Rattle.std.specs.Prelude.{◌≡◌, ◌++◌, map, IfOk, OnOk};
ghost use Rattle.sc_value.specs.declared.ids.AppId.{AppId};
ghost use Rattle.sc_hosts.specs.EventLists.{live_from};

use crate::readied::Readied;
use sc_state::{Host, Live, Session};
use sc_value::{AppId, List, NoMemory, Shared, sum_u32};
use std::alloc::Global;

/// The sessions that live, by host and serial.
pub fn list_net(alloc: Global, net: &Readied) -> Result<List<AppId>, NoMemory>
    ensures { IfOk result (λ live. live ≡ live_from 0 net.now.hosts) }
{
    list_hosts(alloc, net.get().hosts.as_slice())
}

#[tactic(auto, using(crate::proofs::Listings::one_more, crate::proofs::Listings::none_more))]
fn list_hosts(alloc: Global, hosts: &[Host<Session>]) -> Result<List<AppId>, NoMemory>
    ensures { IfOk result (λ live. live ≡ live_from 0 hosts.now) }
{
    let mut live = List::new(alloc);
    let mut number: u32 = 0;
    for host in hosts {
        add_lives(number, host.lives(alloc)?.as_slice(), &mut live)?;
        number = sum_u32(number, 1)?;
    }
    Ok(live)
}

fn add_lives(
    number: u32,
    sessions: &[Shared<Live<Session>>],
    all: &mut List<AppId>,
) -> Result<(), NoMemory>
    ensures { OnOk result
        (all.new
        ≡ all.old ++ map (λ live. record { host = number; serial = live.serial }) sessions.now) }
{
    for live in sessions {
        all.push(AppId {
            host: number,
            serial: live.get().serial,
        })?;
    }
    Ok(())
}
