//! Messages that the hosts of a net take.

ghost use Rattle.std.specs.Prelude.{◌≡◌, Some, slice_get, IfOk, OnOk};
ghost use Rattle.sc_value.specs.Lists.{change_nth};
ghost use Rattle.sc_hosts.specs.Histories.{as_session};
ghost use Rattle.sc_hosts.specs.Arrivals.{taken_at};
ghost use Rattle.sc_hosts.specs.Taking.{takes};
ghost use Rattle.sc_wire.specs.HostChanges.{host_after, told_after, net_after};

use sc_inboxes::Told;
use sc_parts::Setup;
use sc_state::{Coming, Host, Net, Note, Peer, Session};
use sc_take::takes;
use sc_terms::Config;
use sc_value::{Message, NoMemory, Place};
use sc_wire::put_reply;
use std::alloc::Global;

#[tactic(auto, unfolding(sc_wire::specs::HostChanges::host_after, sc_wire::specs::HostChanges::told_after))]
fn host_takes(
    alloc: Global,
    config: &Config,
    coming: Coming,
    noted: &Option<Note>,
    message: &Message,
    host: &mut Host<Session>,
) -> Result<Told, NoMemory>
    ensures host { OnOk result
        (host.new
        ≡ host_after (takes as_session config.now coming noted.now message.now) host.old) }
    ensures told { IfOk result
        (λ t.
        t
        ≡ told_after (takes as_session config.now coming noted.now message.now) coming.count
        (Some host.old)) }
{
    takes(alloc, config, coming, noted, message, host)
}

#[tactic(auto, unfolding(sc_wire::specs::HostChanges::told_after), using(sc_value::proofs::ListFacts::change_nth_at, sc_value::proofs::ListFacts::change_nth_none, sc_value::proofs::ListFacts::slice_get_at, sc_value::proofs::ListFacts::slice_get_none))]
fn takes_in(
    alloc: Global,
    config: &Config,
    coming: Coming,
    noted: &Option<Note>,
    message: &Message,
    hosts: &mut [Host<Session>],
) -> Result<Told, NoMemory>
    ensures hosts { OnOk result
        (hosts.new
        ≡ change_nth coming.host
        (host_after (takes as_session config.now coming noted.now message.now)) hosts.old) }
    ensures told { IfOk result
        (λ t.
        t
        ≡ told_after (takes as_session config.now coming noted.now message.now) coming.count
        (slice_get hosts.old coming.host)) }
{
    let at = coming.host as usize;
    if at < hosts.len() {
        return host_takes(alloc, config, coming, noted, message, &mut hosts[at]);
    }
    Ok(Told {
        reply: None,
        count: coming.count,
    })
}

/// The host of this number takes a message, where there is one.
#[tactic(auto, unfolding(sc_wire::specs::HostChanges::net_after))]
pub fn net_takes(
    alloc: Global,
    config: &Config,
    number: u32,
    from: Peer,
    noted: &Option<Note>,
    message: &Message,
    net: &mut Net<Session>,
) -> Result<(), NoMemory>
    ensures { OnOk result
        (net.new
        ≡ net_after
        (takes as_session config.now
        (record {
          host = number;
          epoch = net.old.epoch;
          from = from;
          now = net.old.moment;
          count = net.old.count;
        }) noted.now message.now) number net.old) }
{
    let coming = Coming {
        host: number,
        epoch: net.epoch,
        from,
        now: net.moment,
        count: net.count,
    };
    let told = takes_in(alloc, config, coming, noted, message, &mut net.hosts.items)?;
    net.count = told.count;
    put_reply(number, told.reply, net)
}

/// The host of this number takes a message from outside, where there is one.
#[tactic(auto, using(sc_wire::proofs::HostTaking::net_taken))]
pub fn taken_at(
    alloc: Global,
    setup: &Setup,
    from: Place,
    noted: &Option<Note>,
    message: &Message,
    number: u32,
    net: &mut Net<Session>,
) -> Result<(), NoMemory>
    ensures { OnOk result
        (net.new ≡ taken_at as_session setup.now from noted.now message.now number net.old) }
{
    net_takes(
        alloc,
        &setup.config,
        number,
        Peer::Outside(from),
        noted,
        message,
        net,
    )
}
