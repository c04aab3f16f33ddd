//! CANCELs that a session gives to send (RFC 3261 section 9.1).

ghost use Rattle.std.specs.Prelude.{◌≡◌, false, IfOk, OnOk};
ghost use Rattle.std.specs.List.{find};
ghost use Rattle.std.specs.Option.{option_copied};
ghost use Rattle.sc_value.specs.declared.message.Message.{Message};
ghost use Rattle.sc_value.specs.Lists.{change_nth};
ghost use Rattle.sc_hosts.specs.Messages.{cancel_of};
ghost use Rattle.sc_hosts.specs.Nets.{cancel_by, cancel_for, change_host, client_at, host_at, send_cancel};
ghost use Rattle.sc_hosts.specs.TakingResponses.{cancelling};
ghost use Rattle.sc_hosts.specs.Transacting.{is_client, pass_client};

use sc_messages::cancel_of;
use sc_parts::ClientItem;
use sc_state::{Client, Host, Net, Session};
use sc_take::cancelling;
use sc_transact::{is_invite_client, is_proceeding, out_of_client, pass_client, state_of_client};
use sc_value::{AppId, CloneIn, Message, NoMemory, Shared};
use sc_wire::{host_at, put, with_client_at};
use std::alloc::Global;

fn cancel_message(alloc: Global, client: &Client) -> Result<Message, NoMemory>
    ensures { IfOk result (λ m. m ≡ Message.Request (cancel_of client.now.request)) }
{
    let request = cancel_of(alloc, client.request.get())?;
    Ok(Message::Request(Shared::new(alloc, request)?))
}

// A CANCEL goes with its own client transaction.
#[tactic(auto, unfolding(sc_hosts::specs::Nets::send_cancel))]
fn send_cancel(
    alloc: Global,
    app: AppId,
    client: &Client,
    net: &mut Net<Session>,
) -> Result<(), NoMemory>
    ensures { OnOk result (net.new ≡ send_cancel app client.now net.old) }
{
    let message = cancel_message(alloc, client)?;
    let own = cancelling(alloc, net.moment, client)?;
    with_client_at(alloc, app.host, own, net)?;
    put(app.host, client.peer, message, None, net)
}

#[tactic(auto, using(sc_value::proofs::ListFacts::change_nth_at, sc_value::proofs::ListFacts::change_nth_none))]
fn pass_client_in(
    alloc: Global,
    number: u32,
    app: AppId,
    branch: u64,
    cancelling: bool,
    item: ClientItem,
    hosts: &mut [Host<Session>],
) -> Result<(), NoMemory>
    ensures { OnOk result
        (hosts.new ≡ change_nth number (pass_client app branch cancelling item) hosts.old) }
{
    let at = number as usize;
    if at < hosts.len() {
        return pass_client(alloc, app, branch, cancelling, item, &mut hosts[at]);
    }
    Ok(())
}

/// An item passes a client transaction of the host of this number.
pub fn pass_client_at(
    alloc: Global,
    number: u32,
    app: AppId,
    branch: u64,
    cancelling: bool,
    item: ClientItem,
    net: &mut Net<Session>,
) -> Result<(), NoMemory>
    ensures { OnOk result
        (net.new ≡ change_host number (pass_client app branch cancelling item) net.old) }
{
    pass_client_in(
        alloc,
        number,
        app,
        branch,
        cancelling,
        item,
        &mut net.hosts.items,
    )
}

#[tactic(auto, unfolding(sc_hosts::specs::Nets::cancel_by))]
fn cancel_by(
    alloc: Global,
    app: AppId,
    branch: u64,
    client: &Client,
    net: &mut Net<Session>,
) -> Result<(), NoMemory>
    ensures { OnOk result (net.new ≡ cancel_by app branch client.now net.old) }
{
    let item = ClientItem::CancelAsked { moment: net.moment };
    pass_client_at(alloc, app.host, app, branch, false, item, net)?;
    if out_of_client(client, item).cancel {
        return send_cancel(alloc, app, client, net);
    }
    Ok(())
}

// Only an INVITE is cancelled; where it may go at once alone, only one that is proceeding.
#[tactic(auto, unfolding(sc_hosts::specs::Nets::cancel_for))]
fn cancel_for(
    alloc: Global,
    app: AppId,
    branch: u64,
    at_once: bool,
    client: Option<Shared<Client>>,
    net: &mut Net<Session>,
) -> Result<(), NoMemory>
    ensures { OnOk result (net.new ≡ cancel_for app branch at_once client net.old) }
{
    let client = match client {
        Some(client) => client,
        None => return Ok(()),
    };
    if is_invite_client(client.get())
        && (!at_once || is_proceeding(state_of_client(client.get())))
    {
        return cancel_by(alloc, app, branch, client.get(), net);
    }
    Ok(())
}

fn client_in(
    alloc: Global,
    app: AppId,
    branch: u64,
    host: &Host<Session>,
) -> Result<Option<Shared<Client>>, NoMemory>
    ensures { IfOk result (λ client. client ≡ find (is_client app branch false) host.now.clients) }
{
    match host.client(alloc, app, branch, false)? {
        Some(client) => Ok(Some(client.clone_in(alloc)?)),
        None => Ok(None),
    }
}

#[tactic(auto, unfolding(sc_hosts::specs::Nets::client_at))]
fn client_at(
    alloc: Global,
    app: AppId,
    branch: u64,
    host: Option<&Host<Session>>,
) -> Result<Option<Shared<Client>>, NoMemory>
    ensures { IfOk result (λ client. client ≡ client_at app branch (option_copied host.entry)) }
{
    match host {
        Some(host) => client_in(alloc, app, branch, host),
        None => Ok(None),
    }
}

/// Cancels the INVITE on a branch of the session, at once alone or as soon as it may.
pub fn cancel(
    alloc: Global,
    app: AppId,
    branch: u64,
    at_once: bool,
    net: &mut Net<Session>,
) -> Result<(), NoMemory>
    ensures { OnOk result
        (net.new
        ≡ cancel_for app branch at_once (client_at app branch (host_at app.host net.old))
        net.old) }
{
    let client = client_at(alloc, app, branch, host_at(app.host, net))?;
    cancel_for(alloc, app, branch, at_once, client, net)
}
