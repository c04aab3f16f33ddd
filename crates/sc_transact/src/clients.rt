//! The client transactions of a host.

ghost use Rattle.std.specs.Prelude.{◌≡◌, ℕ, true, false, filter, map, IfOk, OnOk};
ghost use Rattle.std.specs.Option.{option_copied, option_map_or};
ghost use Rattle.sc_value.specs.declared.ids.AppId.{AppId};
ghost use Rattle.sc_tokens.specs.Names.{same_bytes};
ghost use Rattle.sc_model.specs.Names.{branch_text};
ghost use Rattle.sc_state.specs.Groups.{branch_number};
ghost use Rattle.sc_hosts.specs.Transacting.{out_of_client, client_for, client_passed, pass_client, with_client, ringing_branches, top_via, branch_of};
ghost use Rattle.sc_transact.specs.Ringing.{is_ringing};

use crate::names::counted_part;
use crate::probes::Answered;
use sc_parts::{ClientItem, ClientOut};
use sc_stages::{branch_of, top_via};
use sc_state::{Client, Host, Peer, Session, is_invite_client, is_same_app, text_number};
use sc_value::{AppId, CloneIn, List, NoMemory, Response, Shared, Via};
use std::alloc::Global;

/// What the transaction does with an item.
#[tactic(auto, unfolding(sc_hosts::specs::Transacting::out_of_client))]
pub fn out_of_client(client: &Client, item: ClientItem) -> ClientOut
    ensures { result ≡ out_of_client client.now item }
{
    client
        .passed
        .out(is_invite_client(client), client.sent, item)
}

// The number under which the client transaction is found that the top Via's branch names.
#[tactic(auto, using(crate::proofs::ClientUses::numbered))]
fn answered_number(salt: &[u8], epoch: u32, via: &[Via]) -> u64
    ensures { (app : AppId) (branch : ℕ)
        → option_map_or (λ via. same_bytes (branch_of via) (branch_text salt.now epoch app branch))
        (top_via via.now) false ≡ true → result ≡ branch_number app branch }
{
    match top_via(via) {
        Some(via) => text_number(counted_part(branch_of(via), salt, epoch)),
        None => 0,
    }
}

/// The client transaction that a response belongs to (RFC 3261 section 17.1.3), None where it
/// belongs to none.
#[tactic(auto, unfolding(sc_hosts::specs::Transacting::client_for), using(crate::proofs::ClientUses::answered_grouped))]
pub fn client_for<'a>(
    alloc: Global,
    salt: &[u8],
    epoch: u32,
    from: Peer,
    response: &Response,
    host: &'a Host<Session>,
) -> Result<Option<&'a Shared<Client>>, NoMemory>
    ensures { IfOk result
        (λ found.
        option_copied found ≡ client_for salt.now epoch from response.now host.entry.now) }
{
    let group = answered_number(salt, epoch, response.head.via.as_slice());
    let probe = Answered {
        salt,
        epoch,
        from,
        response,
    };
    host.find_client(alloc, group, &probe)
}

#[tactic(auto, unfolding(sc_hosts::specs::Transacting::client_passed))]
fn client_passed(
    alloc: Global,
    item: ClientItem,
    client: &Client,
) -> Result<Shared<Client>, NoMemory>
    ensures { IfOk result (λ own. own ≡ client_passed item client.now) }
{
    let mut own = client.clone_in(alloc)?;
    own.passed.take(item)?;
    Shared::new(alloc, own)
}

/// An item passes the client transaction of this session's branch, or of its CANCEL.
#[tactic(auto, using(crate::proofs::ClientUses::passed_none))]
pub fn pass_client(
    alloc: Global,
    app: AppId,
    branch: u64,
    cancelling: bool,
    item: ClientItem,
    host: &mut Host<Session>,
) -> Result<(), NoMemory>
    ensures { OnOk result (host.new ≡ pass_client app branch cancelling item host.old) }
{
    let own = match host.client(alloc, app, branch, cancelling)? {
        Some(client) => client_passed(alloc, item, client.get())?,
        None => return host.tidied(alloc),
    };
    host.change_client(alloc, own)?;
    Ok(())
}

/// One client transaction more.
pub fn with_client(alloc: Global, client: Client, host: &mut Host<Session>) -> Result<(), NoMemory>
    ensures { OnOk result (host.new ≡ with_client client host.old) }
{
    let client = Shared::new(alloc, client)?;
    host.push_client(client)
}

#[tactic(auto, unfolding(crate::specs::Ringing::is_ringing))]
fn is_ringing(app: AppId, client: &Client) -> bool
    ensures { result ≡ is_ringing app client.now }
{
    is_same_app(client.app, app) && is_invite_client(client) && client.passed.has_provisional()
}

fn ringing_in(alloc: Global, app: AppId, clients: &[Shared<Client>]) -> Result<List<u64>, NoMemory>
    ensures { IfOk result
        (λ branches.
        branches ≡ map (λ client. client.branch) (filter (is_ringing app) clients.now)) }
{
    let mut branches = List::new(alloc);
    for client in clients {
        if is_ringing(app, client.get()) {
            branches.push(client.get().branch)?;
        }
    }
    Ok(branches)
}

/// The branches of a session whose INVITE has had a provisional response.
#[tactic(auto, using(crate::proofs::ClientUses::ringing_within), unfolding(sc_hosts::specs::Transacting::ringing_branches))]
pub fn ringing_branches(
    alloc: Global,
    app: AppId,
    host: &Host<Session>,
) -> Result<List<u64>, NoMemory>
    ensures { IfOk result (λ branches. branches ≡ ringing_branches app host.now) }
{
    let own = host.clients_of(alloc, app.serial)?;
    ringing_in(alloc, app, own.as_slice())
}
