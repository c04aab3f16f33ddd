//! Leases that are out, and the turns that are made of them.

ghost use Rattle.std.specs.Prelude.{◌≡◌, IfOk};

use sc_servlets::{Catalogue, Done, Lease};
use sc_terms::View;
use sc_value::{CloneIn, Discard, List, NoMemory, Shared, Text};
use std::alloc::Global;
use std::collections::VecDeque;

/// The lease is the last one that is out.
pub fn kept(lease: Lease, out: &mut VecDeque<Lease>) -> Result<(), NoMemory> {
    match out.push_back(lease) {
        Ok(()) => Ok(()),
        Err(refused) => {
            refused.value.discard();
            Err(NoMemory)
        }
    }
}

/// The lease is the first one that is out.
pub fn put_back(lease: Lease, out: &mut VecDeque<Lease>) -> Result<(), NoMemory> {
    match out.push_front(lease) {
        Ok(()) => Ok(()),
        Err(refused) => {
            refused.value.discard();
            Err(NoMemory)
        }
    }
}

/// The turn that the catalogue's kind makes of a lease, None where it has no such kind.
pub fn made_by(alloc: Global, apps: &Catalogue, lease: Lease) -> Option<Done> {
    if lease.kind < apps.kinds.len() {
        return Some(apps.react(alloc, lease));
    }
    lease.discard();
    None
}

/// The lease of a turn that was refused.
pub fn after_refusal(done: Done) -> Lease {
    let Done { lease, calls, .. } = done;
    drop(calls);
    lease
}

/// A copy of the first lease that is out, None where there is none.
pub fn copied(alloc: Global, out: &VecDeque<Lease>) -> Result<Option<Lease>, NoMemory> {
    match out.front() {
        Some(lease) => Ok(Some(lease.clone_in(alloc)?)),
        None => Ok(None),
    }
}

/// The lease with another parameter in its view.
pub fn forged(alloc: Global, lease: Lease) -> Result<Lease, NoMemory> {
    match forged_view(alloc, lease.shown.get()) {
        Ok(shown) => Ok(showing(lease, shown)),
        Err(NoMemory) => {
            lease.discard();
            Err(NoMemory)
        }
    }
}

fn forged_params(alloc: Global) -> Result<List<Text>, NoMemory> {
    let mut params = List::new(alloc);
    params.push(Text::from_slice(alloc, b"forged")?)?;
    Ok(params)
}

fn forged_view(alloc: Global, view: &View) -> Result<Shared<View>, NoMemory>
    ensures moment { IfOk result (λ forged. forged.now ≡ view.entry.now.now) }
    ensures counter { IfOk result (λ forged. forged.counter ≡ view.entry.now.counter) }
    ensures requests { IfOk result (λ forged. forged.next_request ≡ view.entry.now.next_request) }
    ensures timers { IfOk result (λ forged. forged.next_timer ≡ view.entry.now.next_timer) }
    ensures sessions { IfOk result (λ forged. forged.sessions ≡ view.entry.now.sessions) }
{
    let params = forged_params(alloc)?;
    let mut view = view.clone_in(alloc)?;
    view.params = params;
    Shared::new(alloc, view)
}

fn showing(lease: Lease, shown: Shared<View>) -> Lease
    requires moment { shown.now ≡ lease.shown.now }
    requires counter { shown.counter ≡ lease.shown.counter }
    requires requests { shown.next_request ≡ lease.shown.next_request }
    requires timers { shown.next_timer ≡ lease.shown.next_timer }
    requires sessions { shown.sessions ≡ lease.shown.sessions }
{
    let Lease {
        number,
        app,
        kind,
        event_number,
        shown: _,
        event,
    } = lease;
    Lease {
        number,
        app,
        kind,
        event_number,
        shown,
        event,
    }
}

/// The lease with this number.
pub fn numbered(lease: Lease, number: u64) -> Lease {
    let Lease {
        number: _,
        app,
        kind,
        event_number,
        shown,
        event,
    } = lease;
    Lease {
        number,
        app,
        kind,
        event_number,
        shown,
        event,
    }
}
