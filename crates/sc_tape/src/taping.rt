//! Serving with a recorder.

ghost use Rattle.std.specs.Prelude.{◌≡◌, ◌++◌, [], Some, map, option_map, string_bytes};
ghost use Rattle.sc_edge.specs.Edges.{CountsOn};
ghost use Rattle.sc_edge.specs.Faults.{Rose};
ghost use Rattle.sc_edge.specs.Telling.{IsTold};
ghost use Rattle.sc_recorder.specs.Recorded.{told_text};
ghost use Rattle.sc_serve.specs.Served.{ServesWords, served_names};
ghost use Rattle.sc_servlets.specs.Stated.{both_charters};
ghost use Rattle.sc_tape.specs.Taped.{IsTaped, kept_text, status_after};

use sc_edge::{Clock, Edge, Gate, Notice, Orders, Shelf, Sink};
use sc_journal::Journal;
use sc_recorder::{Recorder, Unrecorded};
use sc_serve::serve;
use sc_servlets::Catalogue;
use sc_switch::{Ran, Status};
use sc_terms::Step;
use std::alloc::Global;
use std::cell::Cell;
use std::sync::Wait;
use std::thread::Threads;

/// How a run ended that was recorded, and what it was given.
pub struct Taped<N, K> {
    /// How it ended: `Write` where the sink failed, `NoMemory` where there was no memory for the
    /// text of a step, else as the run itself did.
    pub status: Status,
    /// The notice that was told all of it.
    pub notice: N,
    /// The sink that has the recording.
    pub out: K,
}

/// Serves as [`serve`], and puts the recording of the run into a sink that has taken nothing yet:
/// the steps of each epoch and the line of its end, as they are handed on, and at the end the steps
/// that the journal has left. After the first failure nothing more is put, and the flag is set.
///
/// The sink took the whole recording, but at `Write` and `NoMemory`, where it took a part from its
/// front.
pub fn serve_recorded<
    R: Threads + Wait + Sync,
    F: Shelf,
    E: Edge,
    G: Gate,
    T: Clock,
    O: Orders,
    N: Notice<Journal<Step>>,
    K: Sink,
>(
    rt: &R,
    alloc: Global,
    words: &[String],
    shelf: &mut F,
    edge: &mut E,
    gate: &G,
    clock: &mut T,
    orders: &mut O,
    notice: N,
    out: K,
    over: &Cell<bool>,
    apps: &Catalogue,
) -> Taped<N, K>
    requires { IsTold (K.took out) [] }
    ensures taped { IsTaped
        (λ told ran.
        ServesWords (served_names (map string_bytes words.now)) apps.now.names
        (map
        (λ k.
        both_charters (stated (k.servlet.vtable, k.servlet.value))
        (option_map (λ l. listens (l.vtable, l.value)) k.listener)) apps.now.kinds)
        (λ name. F.holds shelf.old name) (Rose (F.faults shelf.old) (F.faults shelf.new))
        (E.state edge.old) (E.state edge.new) (Some []) told
        ((T.asked clock.old, T.comes clock.old), (O.asked orders.old, O.comes orders.old))
        ((T.asked clock.new, T.comes clock.new), (O.asked orders.new, O.comes orders.new)) ran)
        result.status (K.took result.out) }
    ensures later { CountsOn (E.state edge.old) (E.state edge.new) }
{
    let mut recorder = Recorder::new(alloc, notice, out, over);
    let ran = serve(
        rt,
        alloc,
        words,
        shelf,
        edge,
        gate,
        clock,
        orders,
        &mut recorder,
        apps,
    );
    let Ran {
        status,
        epoch: _,
        began: _,
        journal,
    } = ran;
    keep_rest(&mut recorder, journal);
    let cause = recorder.cause();
    let (notice, out) = recorder.into_parts();
    Taped {
        status: status_after(cause, status),
        notice,
        out,
    }
}

/// Puts what the journal has left, where there is one.
#[tactic(auto, using(crate::proofs::TapeLaws::kept_none, crate::proofs::TapeLaws::kept_some))]
fn keep_rest<N: Notice<Journal<Step>>, K: Sink>(
    recorder: &mut Recorder<'_, N, K>,
    journal: Option<Journal<Step>>,
)
    ensures { told_text recorder.new.told ≡ told_text recorder.old.told ++ kept_text journal }
{
    if let Some(journal) = journal {
        recorder.record(journal);
    }
}

/// The status of a run whose recording failed so, or didn't.
#[tactic(auto, unfolding(crate::specs::Taped::status_after))]
fn status_after(cause: Option<Unrecorded>, status: Status) -> Status
    ensures { result ≡ status_after cause status }
{
    match cause {
        Some(Unrecorded::Failed) => Status::Write,
        Some(Unrecorded::NoMemory) => Status::NoMemory,
        None => status,
    }
}
