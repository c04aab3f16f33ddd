//! The state of a transaction, when it is due, and by what it is known.

ghost use Rattle.std.specs.Prelude.{◌≡◌, IfOk};
ghost use Rattle.sc_state.specs.Standing.{is_invite_client, is_cancel_client, is_invite_server, state_of_client, state_of_server, due_of_client, due_of_server, is_same_app, is_client};

use crate::{Client, Server};
use sc_parts::TxnState;
use sc_stages::{is_cancel, is_invite};
use sc_value::{AppId, NoMemory};

/// Whether the client transaction is that of an INVITE.
pub fn is_invite_client(client: &Client) -> bool
    ensures { result ≡ is_invite_client client.now }
{
    is_invite(client.request.get())
}

/// Whether the client transaction is that of a CANCEL.
pub fn is_cancel_client(client: &Client) -> bool
    ensures { result ≡ is_cancel_client client.now }
{
    is_cancel(client.request.get())
}

/// Whether the server transaction is that of an INVITE.
pub fn is_invite_server(server: &Server) -> bool
    ensures { result ≡ is_invite_server server.now }
{
    is_invite(server.request.get())
}

/// The state of a client transaction.
#[tactic(auto, unfolding(crate::specs::Standing::state_of_client))]
pub fn state_of_client(client: &Client) -> TxnState
    ensures { result ≡ state_of_client client.now }
{
    client.passed.state(is_invite_client(client), client.sent)
}

/// The state of a server transaction.
#[tactic(auto, unfolding(crate::specs::Standing::state_of_server))]
pub fn state_of_server(server: &Server) -> TxnState
    ensures { result ≡ state_of_server server.now }
{
    server.passed.state(is_invite_server(server))
}

/// The moment at which the timer that runs is due, None where none runs.
#[tactic(auto, unfolding(crate::specs::Standing::due_of_client))]
pub fn due_of_client(client: &Client) -> Result<Option<u64>, NoMemory>
    ensures { IfOk result (λ due. due ≡ due_of_client client.now) }
{
    client.passed.due(is_invite_client(client), client.sent)
}

/// The moment at which the timer that runs is due, None where none runs.
#[tactic(auto, unfolding(crate::specs::Standing::due_of_server))]
pub fn due_of_server(server: &Server) -> Result<Option<u64>, NoMemory>
    ensures { IfOk result (λ due. due ≡ due_of_server server.now) }
{
    server.passed.due(is_invite_server(server))
}

/// Whether two names of application sessions are the same.
pub fn is_same_app(a: AppId, b: AppId) -> bool
    ensures { result ≡ is_same_app a b }
{
    a.host == b.host && a.serial == b.serial
}

/// Whether it is the client transaction of this session's branch, or of its CANCEL.
#[tactic(auto, unfolding(crate::specs::Standing::is_client))]
pub fn is_client(app: AppId, branch: u64, cancelling: bool, client: &Client) -> bool
    ensures { result ≡ is_client app branch cancelling client.now }
{
    is_same_app(client.app, app)
        && client.branch == branch
        && is_cancel_client(client) == cancelling
}
