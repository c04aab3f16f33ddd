//! Putting a whole text, and the end of a call.

ghost use Rattle.std.specs.Prelude.{◌≡◌, [], true, None, IfSome, is_some};
ghost use Rattle.sc_edge.specs.Faults.{Rose};
ghost use Rattle.sc_hosts.specs.Histories.{as_session};
ghost use Rattle.sc_hosts.specs.Runs.{IsLawful};
ghost use Rattle.sc_replay.specs.Putting.{IsPut};
ghost use Rattle.sc_switch.specs.Standing.{whole};

use sc_edge::{Sink, put_all};
use sc_journal::Journal;
use sc_switch::{Ran, Status, Switch};
use sc_value::Text;
use std::alloc::Global;

/// Puts all bytes of a text. After a failure the sink took a part from their front.
#[tactic(auto, unfolding(crate::specs::Putting::IsPut))]
pub fn put_whole<K: Sink>(text: &Text, out: &mut K) -> Status
    ensures { IsPut (Rose (K.faults out.old) (K.faults out.new)) (K.took out.old) (K.took out.new)
        text.now result }
{
    match put_all(out, text.as_bytes()) {
        Ok(()) => Status::Done,
        Err(_) => Status::Write,
    }
}

/// The end of a call that has no journal.
pub fn ended(status: Status) -> Ran
    ensures status { result.status ≡ status }
    ensures journal { result.journal ≡ None }
    ensures epoch { result.epoch ≡ 0 }
    ensures began { result.began ≡ 0 }
{
    Ran {
        status,
        epoch: 0,
        began: 0,
        journal: None,
    }
}

/// The end of a run for which no switch could be made: its journal is empty.
pub fn not_started(alloc: Global) -> Ran
    ensures status { result.status ≡ Status.NoMemory }
    ensures journal { IfSome result.journal (λ journal. journal.items ≡ []) }
    ensures some { is_some result.journal ≡ true }
    ensures epoch { result.epoch ≡ 0 }
    ensures began { result.began ≡ 0 }
{
    Ran {
        status: Status::NoMemory,
        epoch: 0,
        began: 0,
        journal: Some(Journal::new(alloc, 1_000_000, 67_108_864)),
    }
}

/// The end of a run on this switch: its journal is kept.
pub fn run_ended(status: Status, switch: Switch) -> Ran
    ensures status { result.status ≡ status }
    ensures journal { IfSome result.journal (λ journal. journal.items ≡ switch.journal) }
    ensures some { is_some result.journal ≡ true }
    ensures lawful { IsLawful as_session switch.setup switch.epoch switch.began (whole switch) }
    ensures epoch { result.epoch ≡ 0 }
    ensures began { result.began ≡ 0 }
{
    switch.show_laws();
    Ran {
        status,
        epoch: 0,
        began: 0,
        journal: Some(switch.into_journal()),
    }
}
