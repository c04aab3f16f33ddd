//! Tests of transactions: which one a message belongs to.

ghost use Rattle.std.specs.Prelude.{◌≡◌, false};
ghost use Rattle.std.specs.Option.{option_map_or};
ghost use Rattle.sc_tokens.specs.Names.{same_bytes};
ghost use Rattle.sc_model.specs.Names.{branch_text};
ghost use Rattle.sc_hosts.specs.Transacting.{is_answered_by, is_kin, is_cancelled_by, is_acked_by, is_repeated_by, top_via, branch_of};

use crate::ends::{same_top, takes_from};
use crate::names::is_branch_text;
use sc_book::Probe;
use sc_stages::{branch_of, is_completed, is_over, method_of, same_bytes, top_via};
use sc_state::{Client, Peer, Server, is_invite_server, state_of_client, state_of_server};
use sc_value::{AppId, Request, Response, Via};

/// Whether a response belongs to it (RFC 3261 section 17.1.3).
#[derive(Clone, Copy)]
pub struct Answered<'a> {
    pub salt: &'a [u8],
    pub epoch: u32,
    pub from: Peer,
    pub response: &'a Response,
}

impl Probe<Client> for Answered<'_> {
    ghost passes = { λ p. is_answered_by p.salt.now p.epoch p.from p.response.now };

    fn passes(&self, client: &Client) -> bool {
        is_answered_by(self.salt, self.epoch, self.from, self.response, client)
    }
}

fn is_top_branch(salt: &[u8], epoch: u32, app: AppId, branch: u64, via: &[Via]) -> bool
    ensures { result
        ≡ option_map_or (λ via. same_bytes (branch_of via) (branch_text salt.now epoch app branch))
        (top_via via.now) false }
{
    match top_via(via) {
        Some(via) => is_branch_text(branch_of(via), salt, epoch, app, branch),
        None => false,
    }
}

#[tactic(auto, unfolding(sc_hosts::specs::Transacting::is_answered_by))]
fn is_answered_by(salt: &[u8], epoch: u32, from: Peer, response: &Response, client: &Client) -> bool
    ensures { result ≡ is_answered_by salt.now epoch from response.now client.now }
{
    takes_from(client.peer, from)
        && !is_over(state_of_client(client))
        && method_of(client.request.get()) == response.head.cseq.method.as_bytes()
        && is_top_branch(
            salt,
            epoch,
            client.app,
            client.branch,
            response.head.via.as_slice(),
        )
}

/// Whether a CANCEL is for it (RFC 3261 section 9.2).
#[derive(Clone, Copy)]
pub struct Cancelled<'a> {
    pub from: Peer,
    pub request: &'a Request,
}

impl Probe<Server> for Cancelled<'_> {
    ghost passes = { λ p. is_cancelled_by p.from p.request.now };

    fn passes(&self, server: &Server) -> bool {
        is_kin(self.from, self.request, server) && is_invite_server(server)
    }
}

/// Whether an ACK is for it (RFC 3261 section 17.2.3).
#[derive(Clone, Copy)]
pub struct Acked<'a> {
    pub from: Peer,
    pub request: &'a Request,
}

impl Probe<Server> for Acked<'_> {
    ghost passes = { λ p. is_acked_by p.from p.request.now };

    fn passes(&self, server: &Server) -> bool {
        is_kin(self.from, self.request, server)
            && is_invite_server(server)
            && is_completed(state_of_server(server))
    }
}

/// Whether its request came before.
#[derive(Clone, Copy)]
pub struct Repeated<'a> {
    pub from: Peer,
    pub request: &'a Request,
}

impl Probe<Server> for Repeated<'_> {
    ghost passes = { λ p. is_repeated_by p.from p.request.now };

    fn passes(&self, server: &Server) -> bool {
        is_kin(self.from, self.request, server)
            && same_bytes(method_of(server.request.get()), method_of(self.request))
    }
}

// Whether it is live, and its request has the top Via of this one.
#[tactic(auto, unfolding(sc_hosts::specs::Transacting::is_kin))]
fn is_kin(from: Peer, request: &Request, server: &Server) -> bool
    ensures { result ≡ is_kin from request.now server.now }
{
    takes_from(server.peer, from)
        && !is_over(state_of_server(server))
        && same_top(
            server.request.get().head.via.as_slice(),
            request.head.via.as_slice(),
        )
}
