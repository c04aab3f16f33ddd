//! Requests that belong to a live transaction: CANCEL, ACK, and what comes again (RFC 3261 sections
//! 9.2 and 17.2.3).

ghost use Rattle.std.specs.Prelude.{◌≡◌, if◌then◌else◌, IfOk};
ghost use Rattle.std.specs.Option.{option_copied};
ghost use Rattle.sc_parts.specs.declared.transactions.ServerItem.{ServerItem};
ghost use Rattle.sc_state.specs.declared.queue.Queued.{Queued};
ghost use Rattle.sc_state.specs.Hosts.{Host};
ghost use Rattle.sc_state.specs.declared.session.Session.{Session};
ghost use Rattle.sc_hosts.specs.Messages.{own_response};
ghost use Rattle.sc_hosts.specs.Inboxes.{queue, without_answer};
ghost use Rattle.sc_hosts.specs.Taking.{again_if, server_for, take_cancel, take_repeated};
ghost use Rattle.sc_hosts.specs.Transacting.{has_final, pass_server};
ghost use Rattle.sc_hosts.specs.Words.{ok};
ghost use Rattle.sc_inboxes.specs.TakenParts.{taken_by};

use sc_inboxes::{Told, answering, queue, quiet, replying};
use sc_messages::own_response;
use sc_parts::ServerItem;
use sc_state::{Host, Peer, Queued, Server, Session};
use sc_transact::{
    acked_server, cancelled_server, has_final, is_ack, is_cancel, is_invite_server, pass_server,
    repeated_server,
};
use sc_value::{CloneIn, Message, NoMemory, Request, Response, Shared};
use std::alloc::Global;

#[tactic(auto, unfolding(sc_hosts::specs::Inboxes::without_answer))]
fn tell_cancelled(
    alloc: Global,
    now: u64,
    server: &Server,
    count: u64,
    host: &mut Host<Session>,
) -> Result<Told, NoMemory>
    ensures { IfOk result
        (λ t.
        (if has_final server.now then without_answer host.old count
        else queue server.now.app.serial now (Queued.Cancelled server.now.event) count host.old)
        ≡ taken_by host.new t) }
{
    if has_final(server) {
        return Ok(quiet(count));
    }
    let event = Queued::Cancelled {
        event: server.event,
    };
    queue(alloc, server.app.serial, now, event, count, host)
}

#[tactic(auto, unfolding(sc_hosts::specs::Words::ok))]
fn ok_response(alloc: Global, server: &Server, request: &Request) -> Result<Response, NoMemory>
    ensures { IfOk result (λ r. r ≡ own_response server.now.tag 200 ok request.now) }
{
    own_response(alloc, server.tag.as_bytes(), 200, b"OK", request)
}

/// A CANCEL is answered 200, and the session is told where its INVITE has no final response.
#[tactic(auto, unfolding(sc_hosts::specs::Taking::take_cancel))]
pub fn cancelled(
    alloc: Global,
    from: Peer,
    now: u64,
    server: &Server,
    request: &Request,
    count: u64,
    host: &mut Host<Session>,
) -> Result<Told, NoMemory>
    ensures { IfOk result
        (λ t. take_cancel from now server.now request.now count host.old ≡ taken_by host.new t) }
{
    let response = ok_response(alloc, server, request)?;
    let told = tell_cancelled(alloc, now, server, count, host)?;
    answering(alloc, from, response, told)
}

#[tactic(auto, unfolding(sc_hosts::specs::Taking::last_again, sc_hosts::specs::Taking::again_if, sc_hosts::specs::Inboxes::without_answer))]
fn last_again(alloc: Global, server: &Server, again: bool, count: u64) -> Result<Told, NoMemory>
    ensures { IfOk result
        (λ t.
        (host : Host Session) → again_if again server.now (without_answer host count) ≡ taken_by host t) }
{
    if !again {
        return Ok(quiet(count));
    }
    match &server.last {
        Some(response) => {
            let message = Message::Response(response.clone_in(alloc)?);
            Ok(replying(server.peer, message, quiet(count)))
        }
        None => Ok(quiet(count)),
    }
}

/// A request that comes again gets the last answer again, where its transaction does that.
#[tactic(auto, unfolding(sc_hosts::specs::Taking::take_repeated))]
pub fn repeated(
    alloc: Global,
    server: &Server,
    count: u64,
    host: &mut Host<Session>,
) -> Result<Told, NoMemory>
    ensures { IfOk result (λ t. take_repeated server.now count host.old ≡ taken_by host.new t) }
{
    let again = server.passed.repeats(is_invite_server(server));
    pass_server(alloc, server.event, ServerItem::RequestAgain, host)?;
    last_again(alloc, server, again, count)
}

/// An ACK passes its transaction.
#[tactic(auto, unfolding(sc_hosts::specs::Inboxes::without_answer))]
pub fn acked(
    alloc: Global,
    server: &Server,
    count: u64,
    host: &mut Host<Session>,
) -> Result<Told, NoMemory>
    ensures { IfOk result
        (λ t.
        without_answer (pass_server server.now.event ServerItem.AckCame host.old) count
        ≡ taken_by host.new t) }
{
    pass_server(alloc, server.event, ServerItem::AckCame, host)?;
    Ok(quiet(count))
}

/// The server transaction that a request belongs to, None where it belongs to none.
#[tactic(auto, unfolding(sc_hosts::specs::Taking::server_for))]
pub fn server_for<'a>(
    alloc: Global,
    from: Peer,
    request: &Request,
    host: &'a Host<Session>,
) -> Result<Option<&'a Shared<Server>>, NoMemory>
    ensures { IfOk result
        (λ found. option_copied found ≡ server_for from request.now host.entry.now) }
{
    if is_cancel(request) {
        return cancelled_server(alloc, from, request, host);
    }
    if is_ack(request) {
        return acked_server(alloc, from, request, host);
    }
    repeated_server(alloc, from, request, host)
}
