//! What passes the transactions of a net and is no message: what they then tell their sessions.

ghost use Rattle.std.specs.Prelude.{◌≡◌, IfOk, OnOk};
ghost use Rattle.sc_value.specs.Lists.{change_nth};
ghost use Rattle.sc_state.specs.declared.queue.Queued.{Queued};
ghost use Rattle.sc_model.specs.Names.{edge_tag};
ghost use Rattle.sc_hosts.specs.Messages.{own_response, without_via};
ghost use Rattle.sc_hosts.specs.Nets.{change_host, queue_for};
ghost use Rattle.sc_hosts.specs.Ticks.{own_telling, passes, told_at};
ghost use Rattle.sc_hosts.specs.Transacting.{pass_server};

use sc_inboxes::edge_response;
use sc_messages::without_via;
use sc_net::pass_client_at;
use sc_parts::{ClientItem, ServerItem};
use sc_state::{Client, Host, Net, Queued, Session};
use sc_terms::Config;
use sc_transact::{is_cancel_client, out_of_client, pass_server};
use sc_value::{NoMemory, Request, Response, Shared};
use sc_wire::queue_for;
use std::alloc::Global;

fn telling(
    alloc: Global,
    config: &Config,
    code: u16,
    reason: &[u8],
    request: &Request,
) -> Result<Response, NoMemory>
    ensures { IfOk result
        (λ r.
        r ≡ without_via (own_response (edge_tag config.now.salt) code reason.now request.now)) }
{
    let response = edge_response(alloc, config, code, reason, request)?;
    without_via(alloc, &response)
}

// What a transaction tells by itself reaches its session without Vias.
#[tactic(auto, unfolding(sc_hosts::specs::Ticks::own_telling))]
fn own_telling(
    alloc: Global,
    config: &Config,
    code: u16,
    reason: &[u8],
    client: &Client,
) -> Result<Shared<Response>, NoMemory>
    ensures { IfOk result (λ r. r ≡ own_telling config.now code reason.now client.now) }
{
    let response = telling(alloc, config, code, reason, client.request.get())?;
    Shared::new(alloc, response)
}

fn tell(
    alloc: Global,
    config: &Config,
    client: &Client,
    reason: &[u8],
    code: u16,
    net: &mut Net<Session>,
) -> Result<(), NoMemory>
    ensures { OnOk result
        (net.new
        ≡ queue_for client.now.app
        (Queued.Response client.now.branch (own_telling config.now code reason.now client.now))
        net.old) }
{
    let response = own_telling(alloc, config, code, reason, client)?;
    let branch = client.branch;
    queue_for(
        alloc,
        client.app,
        Queued::Response { branch, response },
        net,
    )
}

// The transaction of a CANCEL tells nobody anything.
#[tactic(auto, unfolding(sc_hosts::specs::Ticks::told_at))]
fn told_at(
    alloc: Global,
    config: &Config,
    client: &Client,
    reason: &[u8],
    code: Option<u16>,
    net: &mut Net<Session>,
) -> Result<(), NoMemory>
    ensures { OnOk result (net.new ≡ told_at config.now client.now reason.now code net.old) }
{
    let code = match code {
        Some(code) => code,
        None => return Ok(()),
    };
    if is_cancel_client(client) {
        return Ok(());
    }
    tell(alloc, config, client, reason, code, net)
}

/// An item that isn't a message passes a client transaction.
#[tactic(auto, unfolding(sc_hosts::specs::Ticks::passes))]
pub fn passes(
    alloc: Global,
    config: &Config,
    item: ClientItem,
    reason: &[u8],
    client: &Client,
    net: &mut Net<Session>,
) -> Result<(), NoMemory>
    ensures { OnOk result (net.new ≡ passes config.now item reason.now net.old client.now) }
{
    pass_client_at(
        alloc,
        client.app.host,
        client.app,
        client.branch,
        is_cancel_client(client),
        item,
        net,
    )?;
    let code = out_of_client(client, item).tell;
    told_at(alloc, config, client, reason, code, net)
}

#[tactic(auto, using(sc_value::proofs::ListFacts::change_nth_at, sc_value::proofs::ListFacts::change_nth_none))]
fn pass_server_in(
    alloc: Global,
    number: u32,
    event: u64,
    item: ServerItem,
    hosts: &mut [Host<Session>],
) -> Result<(), NoMemory>
    ensures { OnOk result (hosts.new ≡ change_nth number (pass_server event item) hosts.old) }
{
    let at = number as usize;
    if at < hosts.len() {
        return pass_server(alloc, event, item, &mut hosts[at]);
    }
    Ok(())
}

/// An item passes a server transaction of the host of this number.
pub fn pass_server_at(
    alloc: Global,
    number: u32,
    event: u64,
    item: ServerItem,
    net: &mut Net<Session>,
) -> Result<(), NoMemory>
    ensures { OnOk result (net.new ≡ change_host number (pass_server event item) net.old) }
{
    pass_server_in(alloc, number, event, item, &mut net.hosts.items)
}
