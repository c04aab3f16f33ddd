//! Responses that a session gives to send.

ghost use Rattle.std.specs.Prelude.{◌≡◌, IfOk, OnOk};
ghost use Rattle.std.specs.Option.{option_copied};
ghost use Rattle.sc_value.specs.declared.message.Message.{Message};
ghost use Rattle.sc_value.specs.Lists.{change_nth};
ghost use Rattle.sc_model.specs.ServerTransactions.{is_sent};
ghost use Rattle.sc_hosts.specs.Nets.{answered_server, change_host, host_at, respond_by, server_at};
ghost use Rattle.sc_hosts.specs.Transacting.{is_invite_server};
ghost use Rattle.sc_wire.specs.HostChanges.{answered_host};

use crate::wire::{host_at, put};
use sc_parts::ServerItem;
use sc_state::{Host, Net, Server, Session};
use sc_transact::is_invite_server;
use sc_value::{AppId, CloneIn, Message, NoMemory, Response, Shared};
use std::alloc::Global;

#[tactic(auto, unfolding(sc_hosts::specs::Nets::answered_server))]
fn answered_server(
    alloc: Global,
    code: u16,
    now: u64,
    response: &Shared<Response>,
    server: &Server,
) -> Result<Shared<Server>, NoMemory>
    ensures { IfOk result (λ own. own ≡ answered_server code now response.now server.now) }
{
    let last = response.clone_in(alloc)?;
    let mut own = server.clone_in(alloc)?;
    own.last = Some(last);
    own.passed
        .take(ServerItem::AnswerGiven { code, moment: now })?;
    Shared::new(alloc, own)
}

#[tactic(auto, using(crate::proofs::Answering::answered_none))]
fn answered_host(
    alloc: Global,
    event: u64,
    now: u64,
    response: &Shared<Response>,
    host: &mut Host<Session>,
) -> Result<(), NoMemory>
    ensures { OnOk result (host.new ≡ answered_host event now response.now host.old) }
{
    let code = response.get().code;
    let own = match host.server(event) {
        Some(server) => answered_server(alloc, code, now, response, server.get())?,
        None => return host.tidied(alloc),
    };
    host.change_server(alloc, own)
}

#[tactic(auto, using(sc_value::proofs::ListFacts::change_nth_at, sc_value::proofs::ListFacts::change_nth_none))]
fn answered_among(
    alloc: Global,
    number: u32,
    event: u64,
    now: u64,
    response: &Shared<Response>,
    hosts: &mut [Host<Session>],
) -> Result<(), NoMemory>
    ensures { OnOk result
        (hosts.new ≡ change_nth number (answered_host event now response.now) hosts.old) }
{
    let at = number as usize;
    if at < hosts.len() {
        return answered_host(alloc, event, now, response, &mut hosts[at]);
    }
    Ok(())
}

fn answered_at(
    alloc: Global,
    number: u32,
    event: u64,
    response: &Shared<Response>,
    net: &mut Net<Session>,
) -> Result<(), NoMemory>
    ensures { OnOk result
        (net.new ≡ change_host number (answered_host event net.old.moment response.now) net.old) }
{
    answered_among(
        alloc,
        number,
        event,
        net.moment,
        response,
        &mut net.hosts.items,
    )
}

fn response_message(alloc: Global, response: &Shared<Response>) -> Result<Message, NoMemory>
    ensures { IfOk result (λ m. m ≡ Message.Response response.now) }
{
    Ok(Message::Response(response.clone_in(alloc)?))
}

fn lets_go(server: &Server, response: &Response) -> bool
    ensures { result ≡ is_sent (is_invite_server server.now) server.now.passed response.now.code }
{
    server.passed.sends(is_invite_server(server), response.code)
}

// A response goes by its server transaction, where that lets it go.
#[tactic(auto, unfolding(sc_hosts::specs::Nets::respond_by, crate::specs::HostChanges::answered_host))]
fn respond_by(
    alloc: Global,
    number: u32,
    event: u64,
    response: &Shared<Response>,
    server: Option<Shared<Server>>,
    net: &mut Net<Session>,
) -> Result<(), NoMemory>
    ensures { OnOk result (net.new ≡ respond_by number event response.now server net.old) }
{
    let server = match server {
        Some(server) => server,
        None => return Ok(()),
    };
    if !lets_go(server.get(), response.get()) {
        return Ok(());
    }
    let message = response_message(alloc, response)?;
    answered_at(alloc, number, event, response, net)?;
    put(number, server.get().peer, message, None, net)
}

fn server_copy(
    alloc: Global,
    server: Option<&Shared<Server>>,
) -> Result<Option<Shared<Server>>, NoMemory>
    ensures { IfOk result (λ copy. copy ≡ option_copied server.entry) }
{
    match server {
        Some(server) => Ok(Some(server.clone_in(alloc)?)),
        None => Ok(None),
    }
}

#[tactic(auto, unfolding(sc_hosts::specs::Nets::server_at))]
fn server_at(
    alloc: Global,
    event: u64,
    host: Option<&Host<Session>>,
) -> Result<Option<Shared<Server>>, NoMemory>
    ensures { IfOk result (λ server. server ≡ server_at event (option_copied host.entry)) }
{
    match host {
        Some(host) => server_copy(alloc, host.server(event)),
        None => Ok(None),
    }
}

/// A response goes by the server transaction of this event.
pub fn respond(
    alloc: Global,
    app: AppId,
    event: u64,
    response: &Shared<Response>,
    net: &mut Net<Session>,
) -> Result<(), NoMemory>
    ensures { OnOk result
        (net.new
        ≡ respond_by app.host event response.now (server_at event (host_at app.host net.old))
        net.old) }
{
    let server = server_at(alloc, event, host_at(app.host, net))?;
    respond_by(alloc, app.host, event, response, server, net)
}
