//! Live sessions and the events that wait in them.

ghost use Rattle.std.specs.Prelude.{◌≡◌, ◌==◌, length, if◌then◌else◌, IfOk, OnOk};
ghost use Rattle.std.specs.Option.{option_copied};
ghost use Rattle.sc_value.specs.Lists.{change_first};
ghost use Rattle.sc_hosts.specs.Inboxes.{is_full, is_full_at, is_live, live_in, queue, with_event};
ghost use Rattle.sc_inboxes.specs.TakenParts.{taken_by};

use crate::told::{Told, quiet};
use sc_state::{Host, Live, Queued, Session, Waiting};
use sc_value::{CloneIn, NoMemory, Shared, sum};
use std::alloc::Global;

/// The session of this number, None where it doesn't live.
pub fn live_in(serial: u64, host: &Host<Session>) -> Option<&Shared<Live<Session>>>
    ensures { option_copied result ≡ live_in serial host.entry.now }
{
    host.live(serial)
}

fn since_with(now: u64, live: &Live<Session>) -> u64
    ensures { result ≡ (if length live.now.inbox == 0 then now else live.now.since) }
{
    if live.inbox.is_empty() {
        now
    } else {
        live.since
    }
}

#[tactic(auto, unfolding(sc_hosts::specs::Inboxes::with_event))]
fn with_event(
    alloc: Global,
    number: u64,
    now: u64,
    event: Queued,
    live: &Live<Session>,
) -> Result<Shared<Live<Session>>, NoMemory>
    ensures { IfOk result (λ own. own ≡ with_event number now event live.now) }
{
    let mut own = live.clone_in(alloc)?;
    own.since = since_with(now, live);
    own.inbox.push(Waiting { number, event })?;
    Shared::new(alloc, own)
}

#[tactic(auto, using(crate::proofs::HostUses::queued_none, crate::proofs::HostUses::queued_found))]
fn queue_in(
    alloc: Global,
    serial: u64,
    number: u64,
    now: u64,
    event: Queued,
    host: &mut Host<Session>,
) -> Result<(), NoMemory>
    ensures { OnOk result
        (host.new
        ≡ record host.old {
          sessions = change_first (is_live serial) (with_event number now event)
              host.old.sessions;
        }) }
{
    let own = match host.live(serial) {
        Some(live) => with_event(alloc, number, now, event, live.get())?,
        None => return Ok(()),
    };
    host.set_live(own)
}

/// Queues an event where its session lives; else it is dropped.
#[tactic(auto, unfolding(sc_hosts::specs::Inboxes::queue, sc_hosts::specs::Inboxes::without_answer))]
pub fn queue(
    alloc: Global,
    serial: u64,
    now: u64,
    event: Queued,
    count: u64,
    host: &mut Host<Session>,
) -> Result<Told, NoMemory>
    ensures { IfOk result (λ t. queue serial now event count host.old ≡ taken_by host.new t) }
{
    if live_in(serial, host).is_none() {
        drop(event);
        return Ok(quiet(count));
    }
    let number = sum(count, 1)?;
    queue_in(alloc, serial, number, now, event, host)?;
    Ok(quiet(number))
}

/// Whether as many events wait as may.
#[tactic(auto, unfolding(sc_hosts::specs::Inboxes::is_full))]
pub fn is_full(live: &Live<Session>) -> bool
    ensures { result ≡ is_full live.now }
{
    64 <= live.inbox.len()
}

/// Whether as many events wait as may for the session of this number; no, where it doesn't live.
#[tactic(auto, unfolding(sc_hosts::specs::Inboxes::is_full_at))]
pub fn is_full_at(serial: u64, host: &Host<Session>) -> bool
    ensures { result ≡ is_full_at serial host.now }
{
    match live_in(serial, host) {
        Some(live) => is_full(live.get()),
        None => false,
    }
}
