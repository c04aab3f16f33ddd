//! Time passes.

ghost use Rattle.std.specs.Prelude.{◌≡◌, OnOk};
ghost use Rattle.std.specs.BTreeMap.{values};
ghost use Rattle.std.specs.List.{fold};
ghost use Rattle.sc_parts.specs.declared.transactions.ClientItem.{ClientItem};
ghost use Rattle.sc_hosts.specs.Histories.{as_session};
ghost use Rattle.sc_hosts.specs.Nets.{change_host, queue_for};
ghost use Rattle.sc_hosts.specs.Ticks.{fires, mark_fired, net_after_tick, passes};
ghost use Rattle.sc_hosts.specs.Words.{request_timeout};

use crate::due::{Dated, Item};
use crate::firsts::due_items;
use crate::marking::mark_at;
use crate::passing::{pass_server_at, passes};
use sc_due::DueKey;
use sc_parts::{ClientItem, ServerItem};
use sc_state::{Client, Net, Queued, Session};
use sc_terms::Config;
use sc_value::{AppId, CloneIn, NoMemory};
use sc_wire::queue_for;
use std::alloc::Global;
use std::collections::BTreeMap;

fn event_fires(
    alloc: Global,
    app: AppId,
    key: DueKey,
    event: &Queued,
    net: &mut Net<Session>,
) -> Result<(), NoMemory>
    ensures { OnOk result
        (net.new ≡ queue_for app event.now (change_host app.host (mark_fired key) net.old)) }
{
    let event = event.clone_in(alloc)?;
    mark_at(alloc, app.host, key, net)?;
    queue_for(alloc, app, event, net)
}

#[tactic(auto, unfolding(sc_hosts::specs::Words::request_timeout))]
fn client_fires(
    alloc: Global,
    config: &Config,
    now: u64,
    client: &Client,
    net: &mut Net<Session>,
) -> Result<(), NoMemory>
    ensures { OnOk result
        (net.new
        ≡ passes config.now (ClientItem.MomentCame now) request_timeout net.old client.now) }
{
    let item = ClientItem::MomentCame { moment: now };
    passes(alloc, config, item, b"Request Timeout", client, net)
}

#[tactic(auto, unfolding(sc_hosts::specs::Ticks::fires))]
fn fires(
    alloc: Global,
    config: &Config,
    now: u64,
    dated: &Dated,
    net: &mut Net<Session>,
) -> Result<(), NoMemory>
    ensures { OnOk result (net.new ≡ fires config.now now net.old dated.now.entry dated.now.item) }
{
    match &dated.item {
        Item::Event { app, event } => event_fires(alloc, *app, dated.key, event, net),
        Item::Client(client) => client_fires(alloc, config, now, client.get(), net),
        Item::Server(server) => {
            let own = server.get();
            let item = ServerItem::MomentCame { moment: now };
            pass_server_at(alloc, own.app.host, own.event, item, net)
        }
    }
}

fn all_fired(
    alloc: Global,
    config: &Config,
    now: u64,
    items: &BTreeMap<DueKey, Dated>,
    net: &mut Net<Session>,
) -> Result<(), NoMemory>
    ensures { OnOk result
        (net.new
        ≡ fold (λ net d. fires config.now now net d.entry d.item) net.old (values items.now)) }
{
    for dated in items.values() {
        fires(alloc, config, now, dated, net)?;
    }
    Ok(())
}

/// Time passes: all that is due at this moment takes place, by due moment, host, serial and the
/// timer's name. The events of sessions are queued, and the timers of transactions pass them.
#[tactic(auto, unfolding(sc_hosts::specs::Ticks::net_after_tick))]
pub fn ticked(
    alloc: Global,
    config: &Config,
    now: u64,
    net: &mut Net<Session>,
) -> Result<(), NoMemory>
    ensures { OnOk result (net.new ≡ net_after_tick as_session config.now now net.old) }
{
    let items = due_items(alloc, now, net)?;
    net.moment = now;
    all_fired(alloc, config, now, &items, net)
}
