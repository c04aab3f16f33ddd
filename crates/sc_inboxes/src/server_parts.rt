//! Server transactions that begin, and the 100 by which an INVITE is answered at once (RFC 3261
//! section 17.2.1).

ghost use Rattle.std.specs.Prelude.{◌≡◌, [], None, IfOk, OnOk};
ghost use Rattle.sc_value.specs.Lists.{change_first};
ghost use Rattle.sc_hosts.specs.Messages.{trying_response};
ghost use Rattle.sc_hosts.specs.Taking.{server_after_trying, with_server, with_trying};
ghost use Rattle.sc_hosts.specs.Transacting.{is_server};
ghost use Rattle.sc_hosts.specs.Words.{trying};
ghost use Rattle.sc_inboxes.specs.TakenParts.{taken_by};

use crate::told::{Told, replying};
use sc_messages::trying_response;
use sc_parts::ServerItem;
use sc_state::{Host, Peer, Server, ServerPast, Session};
use sc_transact::{is_ack, is_invite};
use sc_value::{AppId, CloneIn, Message, NoMemory, Request, Response, Shared, Text};
use std::alloc::Global;

fn new_server(
    alloc: Global,
    app: AppId,
    event: u64,
    peer: Peer,
    tag: Text,
    request: &Shared<Request>,
) -> Result<Shared<Server>, NoMemory>
    ensures { IfOk result
        (λ s.
        s
        ≡ record {
          app = app;
          event = event;
          peer = peer;
          tag = tag;
          request = request.now;
          passed = [];
          last = None;
        }) }
{
    let passed = ServerPast::new(alloc, is_invite(request.get()));
    let request = request.clone_in(alloc)?;
    let server = Server {
        app,
        event,
        peer,
        tag,
        request,
        passed,
        last: None,
    };
    Shared::new(alloc, server)
}

/// The server transaction of a request that was queued; an ACK has none.
#[tactic(auto, unfolding(sc_hosts::specs::Taking::with_server))]
pub fn with_server(
    alloc: Global,
    app: AppId,
    event: u64,
    peer: Peer,
    tag: Text,
    request: &Shared<Request>,
    host: &mut Host<Session>,
) -> Result<(), NoMemory>
    ensures { OnOk result (host.new ≡ with_server app event peer tag request.now host.old) }
{
    if is_ack(request.get()) {
        return Ok(());
    }
    let server = new_server(alloc, app, event, peer, tag, request)?;
    host.push_server(server)
}

// The 100 that answers a request, with its first owner.
#[tactic(auto, unfolding(sc_hosts::specs::Words::trying))]
fn trying(alloc: Global, request: &Request) -> Result<Shared<Response>, NoMemory>
    ensures { IfOk result (λ r. r ≡ trying_response trying request.now) }
{
    match trying_response(alloc, b"Trying", request) {
        Ok(response) => Shared::new(alloc, response),
        Err(NoMemory) => Err(NoMemory),
    }
}

// The transaction of this request with the 100 that was made for it.
#[tactic(auto, unfolding(sc_hosts::specs::Taking::server_after_trying))]
fn tried(
    alloc: Global,
    _request: &Request,
    response: &Shared<Response>,
    now: u64,
    server: &Server,
) -> Result<Shared<Server>, NoMemory>
    requires { response.now ≡ trying_response trying _request.now }
    ensures { IfOk result (λ own. own ≡ server_after_trying _request.now now server.now) }
{
    let last = response.clone_in(alloc)?;
    let mut own = server.clone_in(alloc)?;
    own.last = Some(last);
    own.passed.take(ServerItem::AnswerGiven {
        code: 100,
        moment: now,
    })?;
    Shared::new(alloc, own)
}

#[tactic(auto, using(crate::proofs::HostUses::tried_none, crate::proofs::HostUses::tried_found))]
fn try_in(
    alloc: Global,
    event: u64,
    request: &Request,
    response: &Shared<Response>,
    now: u64,
    host: &mut Host<Session>,
) -> Result<(), NoMemory>
    requires { response.now ≡ trying_response trying request.now }
    ensures { OnOk result
        (host.new
        ≡ record host.old {
          servers = change_first (is_server event) (server_after_trying request.now now) host.old.servers;
        }) }
{
    let own = match host.server(event) {
        Some(server) => tried(alloc, request, response, now, server.get())?,
        None => return Ok(()),
    };
    host.set_server(own)
}

/// An INVITE is answered 100 at once.
#[tactic(auto, unfolding(sc_hosts::specs::Taking::with_trying))]
pub fn with_trying(
    alloc: Global,
    from: Peer,
    now: u64,
    request: &Request,
    told: Told,
    host: &mut Host<Session>,
) -> Result<Told, NoMemory>
    ensures { IfOk result
        (λ t. with_trying from now request.now (taken_by host.old told) ≡ taken_by host.new t) }
{
    if !is_invite(request) {
        return Ok(told);
    }
    let response = trying(alloc, request)?;
    try_in(alloc, told.count, request, &response, now, host)?;
    Ok(replying(from, Message::Response(response), told))
}
