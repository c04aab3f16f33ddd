//! Putting steps into a sink.

ghost use Rattle.std.specs.Prelude.{◌≡◌, ◌≤◌, ◌<◌, Err, OnOk, OnErr, Some, length, slice_get};
ghost use Rattle.sc_edge.specs.Faults.{Rose};
ghost use Rattle.sc_edge.specs.Taking.{Takes, TakesPart};
ghost use Rattle.sc_recording.specs.StepTexts.{epoch_text, step_text, steps_text};

use sc_edge::{Sink, put_all};
use sc_journal::Journal;
use sc_recording::{epoch_text, step_text};
use sc_terms::Step;
use sc_value::{NoMemory, Text};
use std::alloc::Global;

/// Why a recording isn't whole.
#[derive(Clone, Copy, Debug, PartialEq, Eq)]
pub enum Unrecorded {
    /// Want of memory.
    NoMemory,
    /// The sink failed.
    Failed,
}

/// Puts the steps of a journal, one after the other.
///
/// # Errors
///
/// `Failed` only where the sink counted a fault, and `NoMemory`; the sink then took a part from the
/// front of the steps' text.
pub fn put_steps<K: Sink>(
    alloc: Global,
    journal: &Journal<Step>,
    out: &mut K,
) -> Result<(), Unrecorded>
    ensures later { K.faults out.old ≤ K.faults out.new }
    ensures ok { OnOk result
        (Takes (K.took out.old) (K.took out.new) (steps_text journal.now.items)) }
    ensures failed { result ≡ Err Unrecorded.Failed → Rose (K.faults out.old) (K.faults out.new) }
    ensures part { OnErr result
        (TakesPart (K.took out.old) (K.took out.new) (steps_text journal.now.items)) }
{
    for at in 0..journal.len() {
        put_step(alloc, step_at(journal, at), out)?;
    }
    Ok(())
}

/// The step of this place, from 0.
#[tactic(auto, using(crate::proofs::StepLists::is_there))]
fn step_at(journal: &Journal<Step>, at: u64) -> &Step
    requires { at < length journal.now.items }
    ensures { slice_get journal.now.items at ≡ Some result.now }
{
    match journal.get(at) {
        Some(step) => step,
        None => unreachable!(),
    }
}

/// Puts a step.
fn put_step<K: Sink>(alloc: Global, step: &Step, out: &mut K) -> Result<(), Unrecorded>
    ensures later { K.faults out.old ≤ K.faults out.new }
    ensures ok { OnOk result (Takes (K.took out.old) (K.took out.new) (step_text step.now)) }
    ensures failed { result ≡ Err Unrecorded.Failed → Rose (K.faults out.old) (K.faults out.new) }
    ensures part { OnErr result (TakesPart (K.took out.old) (K.took out.new) (step_text step.now)) }
{
    match step_text(alloc, step) {
        Ok(text) => put_text(&text, out),
        Err(NoMemory) => Err(Unrecorded::NoMemory),
    }
}

/// Puts the line that ends an epoch.
///
/// # Errors
///
/// As of `put_steps`.
pub fn put_epoch<K: Sink>(
    alloc: Global,
    number: u32,
    began: u64,
    out: &mut K,
) -> Result<(), Unrecorded>
    ensures later { K.faults out.old ≤ K.faults out.new }
    ensures ok { OnOk result (Takes (K.took out.old) (K.took out.new) (epoch_text number began)) }
    ensures failed { result ≡ Err Unrecorded.Failed → Rose (K.faults out.old) (K.faults out.new) }
    ensures part { OnErr result
        (TakesPart (K.took out.old) (K.took out.new) (epoch_text number began)) }
{
    match epoch_text(alloc, number, began) {
        Ok(text) => put_text(&text, out),
        Err(NoMemory) => Err(Unrecorded::NoMemory),
    }
}

/// Puts all bytes of a text.
fn put_text<K: Sink>(text: &Text, out: &mut K) -> Result<(), Unrecorded>
    ensures later { K.faults out.old ≤ K.faults out.new }
    ensures ok { OnOk result (Takes (K.took out.old) (K.took out.new) text.now) }
    ensures failed { OnErr result (Rose (K.faults out.old) (K.faults out.new)) }
    ensures part { OnErr result (TakesPart (K.took out.old) (K.took out.new) text.now) }
{
    match put_all(out, text.as_bytes()) {
        Ok(()) => Ok(()),
        Err(_) => Err(Unrecorded::Failed),
    }
}
