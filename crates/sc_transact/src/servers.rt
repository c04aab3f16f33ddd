//! The server transactions of a host.

ghost use Rattle.std.specs.Prelude.{◌≡◌, IfOk, OnOk};
ghost use Rattle.std.specs.List.{find};
ghost use Rattle.std.specs.Option.{option_copied};
ghost use Rattle.sc_hosts.specs.Transacting.{is_cancelled_by, is_acked_by, is_repeated_by, has_final, server_passed, pass_server};

use crate::probes::{Acked, Cancelled, Repeated};
use sc_parts::ServerItem;
use sc_state::{Host, Peer, Server, Session, via_number};
use sc_value::{CloneIn, NoMemory, Request, Shared};
use std::alloc::Global;

/// Whether a final answer was given.
pub fn has_final(server: &Server) -> bool
    ensures { result ≡ has_final server.now }
{
    server.passed.has_final()
}

/// The INVITE that a CANCEL is for (RFC 3261 section 9.2), None where there is none.
#[tactic(auto, using(crate::proofs::ServerUses::cancelled_grouped))]
pub fn cancelled_server<'a>(
    alloc: Global,
    from: Peer,
    request: &Request,
    host: &'a Host<Session>,
) -> Result<Option<&'a Shared<Server>>, NoMemory>
    ensures { IfOk result
        (λ found.
        option_copied found ≡ find (is_cancelled_by from request.now) host.entry.now.servers) }
{
    let group = via_number(request.head.via.as_slice());
    host.find_server(alloc, group, &Cancelled { from, request })
}

/// The INVITE that an ACK is for (RFC 3261 section 17.2.3), None where there is none.
#[tactic(auto, using(crate::proofs::ServerUses::acked_grouped))]
pub fn acked_server<'a>(
    alloc: Global,
    from: Peer,
    request: &Request,
    host: &'a Host<Session>,
) -> Result<Option<&'a Shared<Server>>, NoMemory>
    ensures { IfOk result
        (λ found.
        option_copied found ≡ find (is_acked_by from request.now) host.entry.now.servers) }
{
    let group = via_number(request.head.via.as_slice());
    host.find_server(alloc, group, &Acked { from, request })
}

/// The transaction of a request that came before, None where it didn't. Where there is none at all
/// the request isn't looked at.
#[tactic(auto, using(crate::proofs::ServerUses::repeated_grouped, crate::proofs::ServerUses::none_repeated))]
pub fn repeated_server<'a>(
    alloc: Global,
    from: Peer,
    request: &Request,
    host: &'a Host<Session>,
) -> Result<Option<&'a Shared<Server>>, NoMemory>
    ensures { IfOk result
        (λ found.
        option_copied found ≡ find (is_repeated_by from request.now) host.entry.now.servers) }
{
    if host.server_count() == 0 {
        return Ok(None);
    }
    let group = via_number(request.head.via.as_slice());
    host.find_server(alloc, group, &Repeated { from, request })
}

#[tactic(auto, unfolding(sc_hosts::specs::Transacting::server_passed))]
fn server_passed(
    alloc: Global,
    item: ServerItem,
    server: &Server,
) -> Result<Shared<Server>, NoMemory>
    ensures { IfOk result (λ own. own ≡ server_passed item server.now) }
{
    let mut own = server.clone_in(alloc)?;
    own.passed.take(item)?;
    Shared::new(alloc, own)
}

/// An item passes the server transaction of this event.
#[tactic(auto, using(crate::proofs::ServerUses::passed_none))]
pub fn pass_server(
    alloc: Global,
    event: u64,
    item: ServerItem,
    host: &mut Host<Session>,
) -> Result<(), NoMemory>
    ensures { OnOk result (host.new ≡ pass_server event item host.old) }
{
    let own = match host.server(event) {
        Some(server) => server_passed(alloc, item, server.get())?,
        None => return host.tidied(alloc),
    };
    host.change_server(alloc, own)?;
    Ok(())
}
