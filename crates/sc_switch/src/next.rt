//! The event that is lent out next.

ghost use Rattle.std.specs.Prelude.{◌≡◌, None, Some, IfOk};
ghost use Rattle.sc_runs.specs.Next.{earlier};
ghost use Rattle.sc_hosts.specs.Transacting.{is_same_app};
ghost use Rattle.sc_leases.specs.Leases.{is_leased, next_free};
ghost use Rattle.sc_switch.specs.Offering.{better, leased_at, with_host, with_hosts};

use crate::readied::Readied;
use sc_servlets::Lease;
use sc_state::{Host, Session};
use sc_transact::is_same_app;
use sc_value::{AppId, List, NoMemory, sum_u32};
use std::alloc::Global;
use std::marker::Model;

/// An event that waits, by the name of its session and its number.
#[derive(Clone, Copy, Debug, PartialEq, Eq)]
pub struct Next {
    pub app: AppId,
    pub number: u64,
}

impl Model for Next {
    ghost use Rattle.sc_runs.specs.Next.{Next};

    ghost Value = { Next };

    ghost view = { λ n. record { app = n.app; number = n.number } };

    ghost inverse = { λ n. record { app = n.app; number = n.number } };
}

/// Whether the session has a live lease.
#[tactic(auto, unfolding(sc_leases::specs::Leases::is_leased))]
pub fn is_leased(kept: &[Lease], app: AppId) -> bool
    ensures { result ≡ is_leased kept.now app }
{
    kept.iter().any(|lease| is_same_app(lease.app, app))
}

/// The event with the lowest number among the first ones of the sessions without a lease.
/// `NoMemory` too where a step's changes aren't settled yet.
#[tactic(auto, using(crate::proofs::Nexts::next_of_hosts))]
pub fn next_free(alloc: Global, net: &Readied, kept: &[Lease]) -> Result<Option<Next>, NoMemory>
    ensures { IfOk result (λ next. next ≡ next_free net.now kept.now) }
{
    next_among(alloc, net.get().hosts.as_slice(), kept)
}

#[tactic(auto, using(crate::proofs::Nexts::with_later, crate::proofs::Nexts::with_none))]
fn next_among(
    alloc: Global,
    hosts: &[Host<Session>],
    kept: &[Lease],
) -> Result<Option<Next>, NoMemory>
    ensures { IfOk result (λ next. next ≡ with_hosts kept.now 0 None hosts.now) }
{
    let mut best = None;
    let mut number: u32 = 0;
    for host in hosts {
        best = with_host(alloc, kept, number, best, host)?;
        number = sum_u32(number, 1)?;
    }
    Ok(best)
}

// The sessions of a host that have a live lease.
#[tactic(auto, unfolding(crate::specs::Offering::leased_at))]
fn leased_at(alloc: Global, kept: &[Lease], number: u32) -> Result<List<u64>, NoMemory>
    ensures { IfOk result (λ serials. serials ≡ leased_at number kept.now) }
{
    let mut serials = List::new(alloc);
    for lease in kept {
        if lease.app.host == number {
            serials.push(lease.app.serial)?;
        }
    }
    Ok(serials)
}

#[tactic(auto, using(crate::proofs::Nexts::host_next, crate::proofs::Nexts::host_none))]
fn with_host(
    alloc: Global,
    kept: &[Lease],
    number: u32,
    best: Option<Next>,
    host: &Host<Session>,
) -> Result<Option<Next>, NoMemory>
    ensures { IfOk result (λ next. next ≡ with_host kept.now number best host.now) }
{
    let leased = leased_at(alloc, kept, number)?;
    match host.next_but(leased.as_slice())? {
        Some((event, serial)) => {
            let app = AppId {
                host: number,
                serial,
            };
            Ok(Some(better(best, Next { app, number: event })))
        }
        None => Ok(best),
    }
}

#[tactic(auto, unfolding(crate::specs::Offering::better, sc_runs::specs::Next::earlier))]
fn better(best: Option<Next>, next: Next) -> Next
    ensures { better best next ≡ Some result }
{
    match best {
        Some(best) => {
            if next.number < best.number {
                next
            } else {
                best
            }
        }
        None => next,
    }
}
