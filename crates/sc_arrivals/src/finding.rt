//! The first host with the transaction of a message.

ghost use Rattle.std.specs.Prelude.{◌≡◌, IfOk};
ghost use Rattle.sc_hosts.specs.Arrivals.{first_host};
ghost use Rattle.sc_arrivals.specs.HostTests.{claims, awaits};

use sc_state::{Host, Peer, Session};
use sc_take::server_for;
use sc_transact::client_for;
use sc_value::{NoMemory, Place, Request, Response, sum_u32};
use std::alloc::Global;

#[tactic(auto, unfolding(crate::specs::HostTests::claims))]
fn claims(
    alloc: Global,
    from: Place,
    request: &Request,
    host: &Host<Session>,
) -> Result<bool, NoMemory>
    ensures { IfOk result (λ has. has ≡ claims from request.now host.now) }
{
    Ok(server_for(alloc, Peer::Outside(from), request, host)?.is_some())
}

/// The number of the first host with the server transaction of a request (RFC 3261 section 17.2.3),
/// None where there is none.
#[tactic(auto, using(crate::proofs::FirstHosts::claimed_here, crate::proofs::FirstHosts::claimed_later, crate::proofs::FirstHosts::found_nowhere))]
pub fn claiming_host(
    alloc: Global,
    from: Place,
    request: &Request,
    hosts: &[Host<Session>],
) -> Result<Option<u32>, NoMemory>
    ensures { IfOk result (λ number. number ≡ first_host (claims from request.now) 0 hosts.now) }
{
    let mut number: u32 = 0;
    for host in hosts {
        if claims(alloc, from, request, host)? {
            return Ok(Some(number));
        }
        number = sum_u32(number, 1)?;
    }
    Ok(None)
}

#[tactic(auto, unfolding(crate::specs::HostTests::awaits))]
fn awaits(
    alloc: Global,
    salt: &[u8],
    epoch: u32,
    from: Place,
    response: &Response,
    host: &Host<Session>,
) -> Result<bool, NoMemory>
    ensures { IfOk result (λ has. has ≡ awaits salt.now epoch from response.now host.now) }
{
    Ok(client_for(alloc, salt, epoch, Peer::Outside(from), response, host)?.is_some())
}

/// The number of the first host with the client transaction of a response (RFC 3261 section
/// 17.1.3), None where there is none.
#[tactic(auto, using(crate::proofs::FirstHosts::awaited_here, crate::proofs::FirstHosts::awaited_later, crate::proofs::FirstHosts::found_nowhere))]
pub fn awaiting_host(
    alloc: Global,
    salt: &[u8],
    epoch: u32,
    from: Place,
    response: &Response,
    hosts: &[Host<Session>],
) -> Result<Option<u32>, NoMemory>
    ensures { IfOk result
        (λ number. number ≡ first_host (awaits salt.now epoch from response.now) 0 hosts.now) }
{
    let mut number: u32 = 0;
    for host in hosts {
        if awaits(alloc, salt, epoch, from, response, host)? {
            return Ok(Some(number));
        }
        number = sum_u32(number, 1)?;
    }
    Ok(None)
}
