//! Requests that a session gives to send.

ghost use Rattle.std.specs.Prelude.{◌≡◌, ◌++◌, [], IfOk, OnOk};
ghost use Rattle.sc_value.specs.declared.message.Message.{Message};
ghost use Rattle.sc_state.specs.declared.queue.Queued.{Queued};
ghost use Rattle.sc_model.specs.Names.{edge_tag};
ghost use Rattle.sc_hosts.specs.Messages.{own_response, without_via};
ghost use Rattle.sc_hosts.specs.Nets.{begin_by, leave, leave_for, send_to, tell_own, with_routes};
ghost use Rattle.sc_hosts.specs.Words.{does_not_exist, not_found, unavailable};

use crate::destinations::destination;
use crate::wire::{put, queue_for, with_client_at};
use sc_inboxes::edge_response;
use sc_messages::without_via;
use sc_parts::Choice;
use sc_state::{Client, ClientPast, Net, Note, Peer, Queued, Session};
use sc_terms::Config;
use sc_transact::is_invite;
use sc_value::{
    Address, AppId, CloneIn, List, Message, NoMemory, Place, Request, Response, Shared,
};
use std::alloc::Global;

fn own_answer(
    alloc: Global,
    config: &Config,
    code: u16,
    reason: &[u8],
    request: &Request,
) -> Result<Shared<Response>, NoMemory>
    ensures { IfOk result
        (λ r. r ≡ own_response (edge_tag config.now.salt) code reason.now request.now) }
{
    Shared::new(alloc, edge_response(alloc, config, code, reason, request)?)
}

fn own_telling(
    alloc: Global,
    config: &Config,
    branch: u64,
    code: u16,
    reason: &[u8],
    request: &Request,
) -> Result<Queued, NoMemory>
    ensures { IfOk result
        (λ e.
        e
        ≡ Queued.Response branch
        (without_via (own_response (edge_tag config.now.salt) code reason.now request.now))) }
{
    let response = own_answer(alloc, config, code, reason, request)?;
    let response = Shared::new(alloc, without_via(alloc, response.get())?)?;
    Ok(Queued::Response { branch, response })
}

// The host answers its own request, which goes nowhere.
#[tactic(auto, unfolding(sc_hosts::specs::Nets::tell_own))]
fn tell_own(
    alloc: Global,
    config: &Config,
    app: AppId,
    branch: u64,
    code: u16,
    reason: &[u8],
    request: &Request,
    net: &mut Net<Session>,
) -> Result<(), NoMemory>
    ensures { OnOk result
        (net.new ≡ tell_own config.now app branch code reason.now request.now net.old) }
{
    let event = own_telling(alloc, config, branch, code, reason, request)?;
    queue_for(alloc, app, event, net)
}

#[tactic(auto, unfolding(sc_hosts::specs::Words::does_not_exist))]
pub fn tell_unknown(
    alloc: Global,
    config: &Config,
    app: AppId,
    branch: u64,
    request: &Request,
    net: &mut Net<Session>,
) -> Result<(), NoMemory>
    ensures { OnOk result
        (net.new ≡ tell_own config.now app branch 481 does_not_exist request.now net.old) }
{
    tell_own(
        alloc,
        config,
        app,
        branch,
        481,
        b"Call/Transaction Does Not Exist",
        request,
        net,
    )
}

#[tactic(auto, unfolding(sc_hosts::specs::Words::not_found))]
fn tell_not_found(
    alloc: Global,
    config: &Config,
    app: AppId,
    branch: u64,
    request: &Request,
    net: &mut Net<Session>,
) -> Result<(), NoMemory>
    ensures { OnOk result
        (net.new ≡ tell_own config.now app branch 404 not_found request.now net.old) }
{
    tell_own(alloc, config, app, branch, 404, b"Not Found", request, net)
}

#[tactic(auto, unfolding(sc_hosts::specs::Words::unavailable))]
fn tell_unavailable(
    alloc: Global,
    config: &Config,
    app: AppId,
    branch: u64,
    request: &Request,
    net: &mut Net<Session>,
) -> Result<(), NoMemory>
    ensures { OnOk result
        (net.new ≡ tell_own config.now app branch 503 unavailable request.now net.old) }
{
    tell_own(
        alloc,
        config,
        app,
        branch,
        503,
        b"Service Unavailable",
        request,
        net,
    )
}

fn new_client(
    alloc: Global,
    app: AppId,
    branch: u64,
    peer: Peer,
    request: &Shared<Request>,
    sent: u64,
) -> Result<Client, NoMemory>
    ensures { IfOk result
        (λ c.
        c
        ≡ record {
          app = app;
          branch = branch;
          peer = peer;
          request = request.now;
          sent = sent;
          passed = [];
        }) }
{
    let passed = ClientPast::new(alloc, is_invite(request.get()), sent);
    let request = request.clone_in(alloc)?;
    Ok(Client {
        app,
        branch,
        peer,
        request,
        sent,
        passed,
    })
}

/// A request as a message.
pub fn request_message(alloc: Global, request: &Shared<Request>) -> Result<Message, NoMemory>
    ensures { IfOk result (λ m. m ≡ Message.Request request.now) }
{
    Ok(Message::Request(request.clone_in(alloc)?))
}

/// A request goes with its client transaction.
#[tactic(auto, unfolding(sc_hosts::specs::Nets::send_to))]
pub fn send_to(
    alloc: Global,
    app: AppId,
    branch: u64,
    peer: Peer,
    noted: Option<Note>,
    request: &Shared<Request>,
    net: &mut Net<Session>,
) -> Result<(), NoMemory>
    ensures { OnOk result (net.new ≡ send_to app branch peer noted request.now net.old) }
{
    let client = new_client(alloc, app, branch, peer, request, net.moment)?;
    let message = request_message(alloc, request)?;
    with_client_at(alloc, app.host, client, net)?;
    put(app.host, peer, message, noted, net)
}

#[tactic(auto, unfolding(sc_hosts::specs::Nets::leave_for))]
fn leave_for(
    alloc: Global,
    config: &Config,
    app: AppId,
    branch: u64,
    request: &Shared<Request>,
    place: Option<Place>,
    net: &mut Net<Session>,
) -> Result<(), NoMemory>
    ensures { OnOk result (net.new ≡ leave_for config.now app branch request.now place net.old) }
{
    match place {
        Some(place) => send_to(alloc, app, branch, Peer::Outside(place), None, request, net),
        None => tell_unavailable(alloc, config, app, branch, request.get(), net),
    }
}

/// A request leaves.
#[tactic(auto, unfolding(sc_hosts::specs::Nets::leave))]
pub fn leave(
    alloc: Global,
    config: &Config,
    app: AppId,
    branch: u64,
    request: &Shared<Request>,
    net: &mut Net<Session>,
) -> Result<(), NoMemory>
    ensures { OnOk result (net.new ≡ leave config.now app branch request.now net.old) }
{
    let place = destination(config, request.get());
    leave_for(alloc, config, app, branch, request, place, net)
}

fn put_copies(alloc: Global, routes: &[Address], out: &mut List<Address>) -> Result<(), NoMemory>
    ensures { OnOk result (out.new ≡ out.old ++ routes.now) }
{
    for route in routes {
        out.push(route.clone_in(alloc)?)?;
    }
    Ok(())
}

fn all_routes(
    alloc: Global,
    routes: &[Address],
    behind: &[Address],
) -> Result<List<Address>, NoMemory>
    ensures { IfOk result (λ l. l ≡ routes.now ++ behind.now) }
{
    let mut all = List::new(alloc);
    put_copies(alloc, routes, &mut all)?;
    put_copies(alloc, behind, &mut all)?;
    Ok(all)
}

fn set_route(request: &mut Request, routes: List<Address>)
    ensures { request.new
        ≡ record request.old { head = record request.old.head { route = routes } } }
{
    request.head.route = routes;
}

fn with_routes(
    alloc: Global,
    routes: &[Address],
    request: &Request,
) -> Result<Shared<Request>, NoMemory>
    ensures { IfOk result (λ r. r ≡ with_routes routes.now request.now) }
{
    let all = all_routes(alloc, routes, request.head.route.as_slice())?;
    let mut copy = request.clone_in(alloc)?;
    set_route(&mut copy, all);
    Shared::new(alloc, copy)
}

/// An initial request goes where the router says.
#[tactic(auto, unfolding(sc_hosts::specs::Nets::begin_by))]
pub fn begin_by(
    alloc: Global,
    config: &Config,
    app: AppId,
    branch: u64,
    request: &Shared<Request>,
    choice: Choice,
    net: &mut Net<Session>,
) -> Result<(), NoMemory>
    ensures { OnOk result (net.new ≡ begin_by config.now app branch request.now choice net.old) }
{
    match choice {
        Choice::App {
            host,
            order,
            region,
            subscriber,
            popped,
        } => {
            let noted = Note {
                order,
                region,
                subscriber,
                popped,
            };
            send_to(
                alloc,
                app,
                branch,
                Peer::Inside(host),
                Some(noted),
                request,
                net,
            )
        }
        Choice::Send(routes) => {
            let routed = with_routes(alloc, routes.as_slice(), request.get())?;
            leave(alloc, config, app, branch, &routed, net)
        }
        Choice::Onward => leave(alloc, config, app, branch, request, net),
        Choice::NotFound => tell_not_found(alloc, config, app, branch, request.get(), net),
    }
}
