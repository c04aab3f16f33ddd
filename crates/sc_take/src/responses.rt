//! Responses that come to a host (RFC 3261 section 17.1.3).

ghost use Rattle.std.specs.Prelude.{◌≡◌, IfOk};
ghost use Rattle.sc_value.specs.declared.message.Message.{Message};
ghost use Rattle.sc_hosts.specs.Messages.{cancel_of, without_via};
ghost use Rattle.sc_hosts.specs.Inboxes.{replying};
ghost use Rattle.sc_hosts.specs.TakingResponses.{cancelling, response_for, response_to, take_provisional, take_response, told_by, with_reply};
ghost use Rattle.sc_hosts.specs.Transacting.{client_for, with_client};
ghost use Rattle.sc_inboxes.specs.TakenParts.{taken_by};

use crate::sharing::share_head;
use sc_inboxes::{Told, asking, is_full_at, queue, quiet};
use sc_messages::{ack_of, cancel_of, without_via};
use sc_parts::{ClientItem, ClientOut};
use sc_state::{Client, ClientPast, Host, Peer, Queued, Session};
use sc_terms::Config;
use sc_transact::{client_for, is_cancel_client, out_of_client, pass_client, with_client};
use sc_value::{CloneIn, NoMemory, Response, Shared};
use std::alloc::Global;

// The response as its session gets it: without the own Via. One from outside was read anew; one of
// another host has the owners of its request already.
fn told_response(alloc: Global, client: &Client, response: &Response) -> Result<Response, NoMemory>
    ensures { IfOk result (λ r. r ≡ without_via response.now) }
{
    let mut copy = without_via(alloc, response)?;
    match client.peer {
        Peer::Outside(_) => share_head(alloc, client.request.get(), &mut copy.head),
        Peer::Inside(_) | Peer::Nowhere => {}
    }
    Ok(copy)
}

// A provisional response finds no room in a full inbox, and the answer to a CANCEL tells nobody
// anything.
#[tactic(auto, unfolding(sc_hosts::specs::TakingResponses::take_provisional, sc_hosts::specs::Inboxes::without_answer))]
fn told(
    alloc: Global,
    now: u64,
    client: &Client,
    response: &Response,
    count: u64,
    host: &mut Host<Session>,
) -> Result<Told, NoMemory>
    ensures { IfOk result
        (λ t. take_provisional now client.now response.now count host.old ≡ taken_by host.new t) }
{
    if is_cancel_client(client) || (response.code <= 199 && is_full_at(client.app.serial, host)) {
        return Ok(quiet(count));
    }
    let response = Shared::new(alloc, told_response(alloc, client, response)?)?;
    let event = Queued::Response {
        branch: client.branch,
        response,
    };
    queue(alloc, client.app.serial, now, event, count, host)
}

#[tactic(auto, unfolding(sc_hosts::specs::TakingResponses::told_by, sc_hosts::specs::Inboxes::without_answer))]
fn told_by(
    alloc: Global,
    code: Option<u16>,
    now: u64,
    client: &Client,
    response: &Response,
    count: u64,
    host: &mut Host<Session>,
) -> Result<Told, NoMemory>
    ensures { IfOk result
        (λ t. told_by code now client.now response.now count host.old ≡ taken_by host.new t) }
{
    match code {
        Some(_) => told(alloc, now, client, response, count, host),
        None => Ok(quiet(count)),
    }
}

/// The client transaction of a CANCEL.
#[tactic(auto, unfolding(sc_hosts::specs::TakingResponses::cancelling))]
pub fn cancelling(alloc: Global, now: u64, client: &Client) -> Result<Client, NoMemory>
    ensures { IfOk result (λ c. c ≡ cancelling now client.now) }
{
    let request = Shared::new(alloc, cancel_of(alloc, client.request.get())?)?;
    Ok(Client {
        app: client.app,
        branch: client.branch,
        peer: client.peer,
        request,
        sent: now,
        passed: ClientPast::new(alloc, false, now),
    })
}

// A CANCEL that waited.
fn cancel_with(
    alloc: Global,
    now: u64,
    client: &Client,
    told: Told,
    host: &mut Host<Session>,
) -> Result<Told, NoMemory>
    ensures { IfOk result
        (λ t.
        replying client.now.peer (Message.Request (cancel_of client.now.request))
        (taken_by (with_client (cancelling now client.now) host.old) told)
        ≡ taken_by host.new t) }
{
    let request = cancel_of(alloc, client.request.get())?;
    with_client(alloc, cancelling(alloc, now, client)?, host)?;
    asking(alloc, client.peer, request, told)
}

// An ACK to a final response other than 2xx, or a CANCEL that waited.
#[tactic(auto, unfolding(sc_hosts::specs::TakingResponses::with_reply))]
fn with_reply(
    alloc: Global,
    out: ClientOut,
    now: u64,
    client: &Client,
    response: &Response,
    told: Told,
    host: &mut Host<Session>,
) -> Result<Told, NoMemory>
    ensures { IfOk result
        (λ t.
        with_reply out now client.now response.now (taken_by host.old told)
        ≡ taken_by host.new t) }
{
    if out.ack {
        let request = ack_of(alloc, client.request.get(), response)?;
        return asking(alloc, client.peer, request, told);
    }
    if out.cancel {
        return cancel_with(alloc, now, client, told, host);
    }
    Ok(told)
}

#[tactic(auto, unfolding(sc_hosts::specs::TakingResponses::response_for))]
fn response_for(
    alloc: Global,
    now: u64,
    client: &Client,
    response: &Response,
    count: u64,
    host: &mut Host<Session>,
) -> Result<Told, NoMemory>
    ensures { IfOk result
        (λ t. response_for now client.now response.now count host.old ≡ taken_by host.new t) }
{
    let item = ClientItem::ResponseCame {
        code: response.code,
        moment: now,
    };
    let out = out_of_client(client, item);
    pass_client(
        alloc,
        client.app,
        client.branch,
        is_cancel_client(client),
        item,
        host,
    )?;
    let told = told_by(alloc, out.tell, now, client, response, count, host)?;
    with_reply(alloc, out, now, client, response, told, host)
}

#[tactic(auto, unfolding(sc_hosts::specs::TakingResponses::response_to, sc_hosts::specs::Inboxes::without_answer))]
fn response_to(
    alloc: Global,
    now: u64,
    client: Option<Shared<Client>>,
    response: &Response,
    count: u64,
    host: &mut Host<Session>,
) -> Result<Told, NoMemory>
    ensures { IfOk result
        (λ t. response_to now client response.now count host.old ≡ taken_by host.new t) }
{
    match client {
        Some(client) => response_for(alloc, now, client.get(), response, count, host),
        None => Ok(quiet(count)),
    }
}

fn found_client(
    alloc: Global,
    config: &Config,
    epoch: u32,
    from: Peer,
    response: &Response,
    host: &Host<Session>,
) -> Result<Option<Shared<Client>>, NoMemory>
    ensures { IfOk result
        (λ client. client ≡ client_for config.now.salt epoch from response.now host.now) }
{
    match client_for(alloc, config.salt.as_bytes(), epoch, from, response, host)? {
        Some(client) => Ok(Some(client.clone_in(alloc)?)),
        None => Ok(None),
    }
}

/// A response that belongs to no client transaction is dropped.
#[tactic(auto, unfolding(sc_hosts::specs::TakingResponses::take_response))]
pub fn take_response(
    alloc: Global,
    config: &Config,
    epoch: u32,
    from: Peer,
    now: u64,
    response: &Response,
    count: u64,
    host: &mut Host<Session>,
) -> Result<Told, NoMemory>
    ensures { IfOk result
        (λ t.
        take_response config.now epoch from now response.now count host.old
        ≡ taken_by host.new t) }
{
    let client = found_client(alloc, config, epoch, from, response, host)?;
    response_to(alloc, now, client, response, count, host)
}
