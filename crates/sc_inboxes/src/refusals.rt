//! Answers without a transaction.

ghost use Rattle.std.specs.Prelude.{◌≡◌, IfOk};
ghost use Rattle.sc_state.specs.Hosts.{Host};
ghost use Rattle.sc_state.specs.declared.session.Session.{Session};
ghost use Rattle.sc_model.specs.Names.{edge_tag};
ghost use Rattle.sc_hosts.specs.Messages.{own_response};
ghost use Rattle.sc_hosts.specs.Taking.{refuse};
ghost use Rattle.sc_hosts.specs.Words.{does_not_exist, unavailable};
ghost use Rattle.sc_inboxes.specs.TakenParts.{taken_by};

use crate::told::{Told, answering, quiet};
use sc_messages::own_response;
use sc_names::edge_tag;
use sc_state::Peer;
use sc_terms::Config;
use sc_transact::is_ack;
use sc_value::{NoMemory, Request, Response, Text};
use std::alloc::Global;

/// A response that no session gives.
pub fn edge_response(
    alloc: Global,
    config: &Config,
    code: u16,
    reason: &[u8],
    request: &Request,
) -> Result<Response, NoMemory>
    ensures { IfOk result
        (λ r. r ≡ own_response (edge_tag config.now.salt) code reason.now request.now) }
{
    let mut tag = Text::new(alloc);
    edge_tag(alloc, config.salt.as_text(), &mut tag)?;
    own_response(alloc, tag.as_bytes(), code, reason, request)
}

// An ACK gets no answer.
#[tactic(auto, unfolding(sc_hosts::specs::Taking::refuse, sc_hosts::specs::Inboxes::without_answer))]
fn refuse(
    alloc: Global,
    config: &Config,
    from: Peer,
    code: u16,
    reason: &[u8],
    request: &Request,
    count: u64,
) -> Result<Told, NoMemory>
    ensures { IfOk result
        (λ t.
        (host : Host Session)
        → refuse config.now from code reason.now request.now count host ≡ taken_by host t) }
{
    if is_ack(request) {
        return Ok(quiet(count));
    }
    let response = edge_response(alloc, config, code, reason, request)?;
    answering(alloc, from, response, quiet(count))
}

/// 481, as no transaction or session takes the request.
#[tactic(auto, unfolding(sc_hosts::specs::Words::does_not_exist))]
pub fn refuse_unknown(
    alloc: Global,
    config: &Config,
    from: Peer,
    request: &Request,
    count: u64,
) -> Result<Told, NoMemory>
    ensures { IfOk result
        (λ t.
        (host : Host Session)
        → refuse config.now from 481 does_not_exist request.now count host ≡ taken_by host t) }
{
    refuse(
        alloc,
        config,
        from,
        481,
        b"Call/Transaction Does Not Exist",
        request,
        count,
    )
}

/// 503, for want of room.
#[tactic(auto, unfolding(sc_hosts::specs::Words::unavailable))]
pub fn refuse_full(
    alloc: Global,
    config: &Config,
    from: Peer,
    request: &Request,
    count: u64,
) -> Result<Told, NoMemory>
    ensures { IfOk result
        (λ t.
        (host : Host Session)
        → refuse config.now from 503 unavailable request.now count host ≡ taken_by host t) }
{
    refuse(
        alloc,
        config,
        from,
        503,
        b"Service Unavailable",
        request,
        count,
    )
}
