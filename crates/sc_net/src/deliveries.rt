//! Messages between hosts are delivered, in the order in which they were sent.

ghost use Rattle.std.specs.Prelude.{◌≡◌, OnOk};
ghost use Rattle.sc_hosts.specs.Histories.{as_session};
ghost use Rattle.sc_hosts.specs.Nets.{deliver_at, deliver_first, host_at, is_busy};
ghost use Rattle.sc_hosts.specs.Runs.{after_delivery};

use crate::taking::net_takes;
use sc_parts::Setup;
use sc_state::{Entry, Net, Peer, Session};
use sc_value::NoMemory;
use std::alloc::Global;

#[tactic(auto, using(sc_wire::proofs::HostTaking::net_delivered))]
fn deliver_at(
    alloc: Global,
    setup: &Setup,
    entry: &Entry,
    net: &mut Net<Session>,
) -> Result<(), NoMemory>
    ensures { OnOk result
        (net.new
        ≡ deliver_at as_session setup.now entry.now (host_at entry.now.receiver net.old)
        net.old) }
{
    net_takes(
        alloc,
        &setup.config,
        entry.receiver,
        Peer::Inside(entry.sender),
        &entry.note,
        &entry.message,
        net,
    )
}

/// Whether a message is on its way.
#[tactic(auto, unfolding(sc_hosts::specs::Nets::is_busy))]
pub fn is_busy(net: &Net<Session>) -> bool
    ensures { result ≡ is_busy net.now }
{
    !net.wire.is_empty()
}

/// The first message of the wire is taken by its host.
#[tactic(auto, unfolding(sc_hosts::specs::Nets::deliver_first, sc_hosts::specs::Nets::deliver_entry), using(sc_value::proofs::ListFacts::slice_get_at, sc_value::proofs::ListFacts::slice_get_none))]
pub fn deliver_first(alloc: Global, setup: &Setup, net: &mut Net<Session>) -> Result<(), NoMemory>
    ensures { OnOk result (net.new ≡ deliver_first as_session setup.now net.old) }
{
    if net.wire.is_empty() {
        return Ok(());
    }
    let entry = net.wire.items.remove(0);
    deliver_at(alloc, setup, &entry, net)
}

/// All messages on their way are delivered, and those that they cause.
#[tactic(auto, using(crate::proofs::AllDelivered::delivered_next, crate::proofs::AllDelivered::delivered_idle, crate::proofs::AllDelivered::weight_falls))]
pub fn delivered(alloc: Global, setup: &Setup, net: &mut Net<Session>) -> Result<(), NoMemory>
    ensures { OnOk result (net.new ≡ after_delivery as_session setup.now net.old) }
{
    while is_busy(net) {
        deliver_first(alloc, setup, net)?;
    }
    Ok(())
}
