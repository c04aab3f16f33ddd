//! Tests of transactions.

ghost use Rattle.std.specs.Prelude.{◌≡◌, ◌==◌, ◌||◌, not};
ghost use Rattle.sc_state.specs.Keeping.{kept_client, kept_server, lives_among};
ghost use Rattle.sc_state.specs.Standing.{is_client, is_cancel_client};

use crate::standing::{
    is_cancel_client, is_client, is_invite_client, is_invite_server, state_of_client,
    state_of_server,
};
use crate::{Client, Live, Server, Timed};
use sc_book::{Probe, Rows};
use sc_stages::is_over;
use sc_value::AppId;

/// The client transaction of a session's branch, or of its CANCEL.
#[derive(Clone, Copy)]
pub struct NamedClient {
    pub app: AppId,
    pub branch: u64,
    pub cancelling: bool,
}

impl Probe<Client> for NamedClient {
    ghost passes = { λ p. is_client p.app p.branch p.cancelling };

    fn passes(&self, client: &Client) -> bool {
        is_client(self.app, self.branch, self.cancelling, client)
    }
}

/// What is kept beside these sessions.
#[derive(Drop)]
pub struct KeptClient<'a, S: Timed> {
    pub sessions: &'a Rows<Live<S>>,
}

impl<S: Timed> Probe<Client> for KeptClient<'_, S> {
    ghost passes = { λ p. kept_client p.sessions.now };

    fn passes(&self, client: &Client) -> bool {
        is_kept_client(self.sessions, client)
    }
}

/// What is kept beside these sessions.
#[derive(Drop)]
pub struct KeptServer<'a, S: Timed> {
    pub sessions: &'a Rows<Live<S>>,
}

impl<S: Timed> Probe<Server> for KeptServer<'_, S> {
    ghost passes = { λ p. kept_server p.sessions.now };

    fn passes(&self, server: &Server) -> bool {
        is_kept_server(self.sessions, server)
    }
}

/// What is of another session, or kept beside these.
#[derive(Drop)]
pub struct LeftClient<'a, S: Timed> {
    pub serial: u64,
    pub sessions: &'a Rows<Live<S>>,
}

impl<S: Timed> Probe<Client> for LeftClient<'_, S> {
    ghost passes = { λ p client.
        not (client.app.serial == p.serial) || kept_client p.sessions.now client };

    fn passes(&self, client: &Client) -> bool {
        client.app.serial != self.serial || is_kept_client(self.sessions, client)
    }
}

/// What is of another session, or kept beside these.
#[derive(Drop)]
pub struct LeftServer<'a, S: Timed> {
    pub serial: u64,
    pub sessions: &'a Rows<Live<S>>,
}

impl<S: Timed> Probe<Server> for LeftServer<'_, S> {
    ghost passes = { λ p server.
        not (server.app.serial == p.serial) || kept_server p.sessions.now server };

    fn passes(&self, server: &Server) -> bool {
        server.app.serial != self.serial || is_kept_server(self.sessions, server)
    }
}

#[tactic(auto, using(crate::proofs::KeptLaws::lives_some, crate::proofs::KeptLaws::lives_none))]
fn lives_among<S: Timed>(serial: u64, sessions: &Rows<Live<S>>) -> bool
    ensures { result ≡ lives_among serial sessions.now }
{
    match sessions.find(serial) {
        Some(_) => true,
        None => false,
    }
}

/// Whether the client transaction is kept beside these sessions.
pub fn is_kept_client<S: Timed>(sessions: &Rows<Live<S>>, client: &Client) -> bool
    ensures { result ≡ kept_client sessions.now client.now }
{
    !is_over(state_of_client(client))
        || (is_invite_client(client) && lives_among(client.app.serial, sessions))
}

/// Whether the server transaction is kept beside these sessions.
pub fn is_kept_server<S: Timed>(sessions: &Rows<Live<S>>, server: &Server) -> bool
    ensures { result ≡ kept_server sessions.now server.now }
{
    !is_over(state_of_server(server))
        || (is_invite_server(server) && lives_among(server.app.serial, sessions))
}

/// The test of the client transaction that this one takes the place of.
pub fn same_client(client: &Client) -> NamedClient
    ensures app { result.app ≡ client.now.app }
    ensures branch { result.branch ≡ client.now.branch }
    ensures cancelling { result.cancelling ≡ is_cancel_client client.now }
{
    NamedClient {
        app: client.app,
        branch: client.branch,
        cancelling: is_cancel_client(client),
    }
}
