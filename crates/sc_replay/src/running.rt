//! Running a script on a new switch, and writing what it sent.

ghost use Rattle.std.specs.Prelude.{◌≡◌, [], map, option_map, IfErr, OnOk};
ghost use Rattle.sc_servlets.specs.Stated.{both_charters};
ghost use Rattle.sc_edge.specs.Faults.{Rose};
ghost use Rattle.sc_edge.specs.Taking.{Takes};
ghost use Rattle.sc_hosts.specs.Histories.{as_session};
ghost use Rattle.sc_runs.specs.Following.{Follows};
ghost use Rattle.sc_runs.specs.Outputs.{output};
ghost use Rattle.sc_model.specs.Settings.{IsSetup};
ghost use Rattle.sc_follow.specs.Leading.{IsNew};
ghost use Rattle.sc_follow.specs.Moving.{IsUntaken};
ghost use Rattle.sc_replay.specs.Running.{IsCutShort, IsUnput, IsPutWithoutEnd};

use crate::writing::{WriteRefused, put_output, put_sent};
use sc_edge::Sink;
use sc_follow::follow;
use sc_servlets::Catalogue;
use sc_switch::{StepRefused, Switch};
use sc_terms::Line;
use std::alloc::Global;

/// Why the output of a run isn't whole.
#[derive(Clone, Copy, Debug, PartialEq, Eq)]
pub enum RunRefused {
    /// A step was due that the journal had no room for.
    JournalFull,
    /// Want of memory.
    NoMemory,
    /// The sink failed.
    Write,
}

/// Runs the lines of a script on a switch that took no step, and puts what it sent: the records of
/// all messages and the last line.
///
/// # Errors
///
/// `JournalFull` where a step was due that the journal had no room for: the records are then put
/// without the last line. `Write` only where the sink counted a fault, and `NoMemory`: the sink
/// then took a part from the front of the output.
pub fn drive<K: Sink>(
    alloc: Global,
    switch: &mut Switch,
    lines: &[Line],
    apps: &Catalogue,
    out: &mut K,
) -> Result<(), RunRefused>
    requires new { IsNew switch.old }
    requires right { IsSetup switch.old.setup }
    requires kinds { switch.old.setup.kinds
        ≡ map
        (λ k.
        both_charters (stated (k.servlet.vtable, k.servlet.value))
        (option_map (λ l. listens (l.vtable, l.value)) k.listener)) apps.now.kinds }
    ensures setup { switch.new.setup ≡ switch.old.setup }
    ensures epoch { switch.new.epoch ≡ 0 }
    ensures began { switch.new.began ≡ 0 }
    ensures handed { switch.new.handed ≡ [] }
    ensures follows { OnOk result
        (Follows as_session switch.old.setup lines.now switch.new.journal) }
    ensures takes { OnOk result
        (Takes (K.took out.old) (K.took out.new)
        (output as_session switch.old.setup switch.new.journal)) }
    ensures cut { IfErr result
        (λ cause.
        IsCutShort switch.old.setup lines.now (Rose (K.faults out.old) (K.faults out.new))
        (K.took out.old) (K.took out.new) switch.new.journal cause) }
{
    match follow(alloc, switch, lines, apps) {
        Ok(()) => put_whole(alloc, switch, out),
        Err(StepRefused::JournalFull { .. }) => Err(put_cut(alloc, switch, out)),
        Err(StepRefused::NoMemory) => Err(RunRefused::NoMemory),
    }
}

/// Puts the whole output.
#[tactic(auto, unfolding(crate::specs::Running::IsUnput))]
fn put_whole<K: Sink>(alloc: Global, switch: &mut Switch, out: &mut K) -> Result<(), RunRefused>
    requires epoch { switch.old.epoch ≡ 0 }
    requires began { switch.old.began ≡ 0 }
    requires untaken { IsUntaken switch.old }
    ensures same { switch.new ≡ record switch.old { left = switch.new.left } }
    ensures ok { OnOk result
        (Takes (K.took out.old) (K.took out.new)
        (output as_session switch.old.setup switch.old.journal)) }
    ensures err { IfErr result
        (λ cause.
        IsUnput (Rose (K.faults out.old) (K.faults out.new)) (K.took out.old) (K.took out.new)
        (output as_session switch.old.setup switch.old.journal) cause) }
{
    match put_output(alloc, switch, out) {
        Ok(()) => Ok(()),
        Err(WriteRefused::Failed) => Err(RunRefused::Write),
        Err(WriteRefused::NoMemory) => Err(RunRefused::NoMemory),
    }
}

/// Puts the records alone, after a run that found no room in the journal.
fn put_cut<K: Sink>(alloc: Global, switch: &mut Switch, out: &mut K) -> RunRefused
    requires epoch { switch.old.epoch ≡ 0 }
    requires began { switch.old.began ≡ 0 }
    requires untaken { IsUntaken switch.old }
    ensures same { switch.new ≡ record switch.old { left = switch.new.left } }
    ensures put { IsPutWithoutEnd switch.old.setup (Rose (K.faults out.old) (K.faults out.new))
        (K.took out.old) (K.took out.new) switch.old.journal result }
{
    match put_sent(alloc, switch, out) {
        Ok(()) => RunRefused::JournalFull,
        Err(WriteRefused::Failed) => RunRefused::JournalFull,
        Err(WriteRefused::NoMemory) => RunRefused::NoMemory,
    }
}
