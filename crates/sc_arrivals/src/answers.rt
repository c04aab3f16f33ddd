//! Answers outside any session. An ACK gets none (RFC 3261 section 17.1.1.3).

ghost use Rattle.std.specs.Prelude.{◌≡◌, Some, OnOk};
ghost use Rattle.sc_tokens.specs.Names.{same_bytes};
ghost use Rattle.sc_hosts.specs.Arrivals.{bad_by, edge_answer};
ghost use Rattle.sc_hosts.specs.Words.{does_not_exist, not_found};
ghost use Rattle.sc_model.specs.SessionStates.{ack};

use crate::messages::{bad_message, edge_message};
use sc_state::{Net, Peer, Session};
use sc_terms::Config;
use sc_transact::is_ack;
use sc_value::{Answerable, NoMemory, Place, Request};
use sc_wire::put;
use std::alloc::Global;

#[tactic(auto, unfolding(sc_hosts::specs::Arrivals::edge_answer))]
fn edge_answer(
    alloc: Global,
    config: &Config,
    from: Place,
    code: u16,
    reason: &[u8],
    request: &Request,
    net: &mut Net<Session>,
) -> Result<(), NoMemory>
    ensures { OnOk result
        (net.new ≡ edge_answer config.now from code reason.now request.now net.old) }
{
    if is_ack(request) {
        return Ok(());
    }
    let message = edge_message(alloc, config, code, reason, request)?;
    put(0, Peer::Outside(from), message, None, net)
}

/// 481, as no transaction or session takes the request.
#[tactic(auto, unfolding(sc_hosts::specs::Words::does_not_exist))]
pub fn answer_unknown(
    alloc: Global,
    config: &Config,
    from: Place,
    request: &Request,
    net: &mut Net<Session>,
) -> Result<(), NoMemory>
    ensures { OnOk result
        (net.new ≡ edge_answer config.now from 481 does_not_exist request.now net.old) }
{
    edge_answer(
        alloc,
        config,
        from,
        481,
        b"Call/Transaction Does Not Exist",
        request,
        net,
    )
}

/// 404, as the router has no application for the request.
#[tactic(auto, unfolding(sc_hosts::specs::Words::not_found))]
pub fn answer_not_found(
    alloc: Global,
    config: &Config,
    from: Place,
    request: &Request,
    net: &mut Net<Session>,
) -> Result<(), NoMemory>
    ensures { OnOk result
        (net.new ≡ edge_answer config.now from 404 not_found request.now net.old) }
{
    edge_answer(alloc, config, from, 404, b"Not Found", request, net)
}

#[tactic(auto, unfolding(sc_model::specs::SessionStates::ack))]
fn is_bad_ack(heads: &Answerable) -> bool
    ensures { result ≡ same_bytes heads.now.cseq.method ack }
{
    heads.cseq.method.as_bytes() == b"ACK".as_slice()
}

/// A text that is no message, but a request that can be answered, gets 400 (RFC 3261 section
/// 21.4.1).
#[tactic(auto, unfolding(sc_hosts::specs::Arrivals::bad_by))]
pub fn answer_bad(
    alloc: Global,
    config: &Config,
    from: Place,
    heads: &Answerable,
    net: &mut Net<Session>,
) -> Result<(), NoMemory>
    ensures { OnOk result (net.new ≡ bad_by config.now from (Some heads.now) net.old) }
{
    if is_bad_ack(heads) {
        return Ok(());
    }
    let message = bad_message(alloc, config.salt.as_text(), heads)?;
    put(0, Peer::Outside(from), message, None, net)
}

/// A text that is no message gets 400 where it can be answered (RFC 3261 section 21.4.1).
#[tactic(auto, unfolding(sc_hosts::specs::Arrivals::bad_by))]
pub fn bad_by(
    alloc: Global,
    config: &Config,
    from: Place,
    heads: &Option<Answerable>,
    net: &mut Net<Session>,
) -> Result<(), NoMemory>
    ensures { OnOk result (net.new ≡ bad_by config.now from heads.now net.old) }
{
    match heads {
        Some(heads) => answer_bad(alloc, config, from, heads, net),
        None => Ok(()),
    }
}
