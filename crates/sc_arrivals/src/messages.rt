//! Requests and responses as messages that a host takes or that go outside.

ghost use Rattle.std.specs.Prelude.{◌≡◌, IfOk, OnOk};
ghost use Rattle.sc_value.specs.declared.message.Message.{Message};
ghost use Rattle.sc_model.specs.Names.{edge_tag};
ghost use Rattle.sc_hosts.specs.Histories.{as_session};
ghost use Rattle.sc_hosts.specs.Messages.{bad_response, own_response};
ghost use Rattle.sc_hosts.specs.Arrivals.{taken_at};

use sc_inboxes::edge_response;
use sc_messages::bad_response;
use sc_net::taken_at;
use sc_parts::Setup;
use sc_state::{Net, Note, Session};
use sc_terms::Config;
use sc_value::{Answerable, CloneIn, Message, NoMemory, Place, Request, Shared, Text};
use std::alloc::Global;

/// A response that no session gives, as a message.
pub fn edge_message(
    alloc: Global,
    config: &Config,
    code: u16,
    reason: &[u8],
    request: &Request,
) -> Result<Message, NoMemory>
    ensures { IfOk result
        (λ m.
        m
        ≡ Message.Response
        (own_response (edge_tag config.now.salt) code reason.now request.now)) }
{
    let response = edge_response(alloc, config, code, reason, request)?;
    Ok(Message::Response(Shared::new(alloc, response)?))
}

/// The 400 to a text that is no message (RFC 3261 section 21.4.1), as a message.
pub fn bad_message(alloc: Global, salt: &Text, heads: &Answerable) -> Result<Message, NoMemory>
    ensures { IfOk result (λ m. m ≡ Message.Response (bad_response salt.now heads.now)) }
{
    let response = bad_response(alloc, salt, heads)?;
    Ok(Message::Response(Shared::new(alloc, response)?))
}

/// The host of this number takes a request from outside, where there is one.
pub fn take_request(
    alloc: Global,
    setup: &Setup,
    from: Place,
    noted: &Option<Note>,
    request: &Shared<Request>,
    number: u32,
    net: &mut Net<Session>,
) -> Result<(), NoMemory>
    ensures { OnOk result
        (net.new
        ≡ taken_at as_session setup.now from noted.now (Message.Request request.now) number
        net.old) }
{
    let message = Message::Request(request.clone_in(alloc)?);
    taken_at(alloc, setup, from, noted, &message, number, net)
}
