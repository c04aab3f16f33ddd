//! The command `serve`.

ghost use Rattle.std.specs.Prelude.{◌≡◌, map, option_map, string_bytes, IfErr, OnOk};
ghost use Rattle.sc_servlets.specs.Stated.{both_charters};
ghost use Rattle.sc_edge.specs.Edges.{CountsOn};
ghost use Rattle.sc_edge.specs.Faults.{Rose};
ghost use Rattle.sc_hosts.specs.Histories.{as_session};
ghost use Rattle.sc_hosts.specs.Runs.{IsLawful};
ghost use Rattle.sc_switch.specs.Standing.{whole};
ghost use Rattle.sc_serve.specs.Running.{HasItems, status_of_stop};
ghost use Rattle.sc_serve.specs.Served.{ServesWords, served_names};

use crate::beginning::{Begun, begin};
use crate::running::{run, run_beside};
use crate::server::Server;
use crate::stop::Stop;
use sc_edge::{Clock, Edge, Gate, Notice, Orders, Shelf};
use sc_journal::Journal;
use sc_rounds::Core;
use sc_servlets::Catalogue;
use sc_switch::{Ran, Status};
use sc_terms::Step;
use std::alloc::Global;
use std::sync::Wait;
use std::thread::Threads;

/// Serves the connections of an edge. The words are `serve CONFIG DAR`, the names of two texts on
/// the shelf, which are read in this order: the configuration, and the routing table for its
/// applications. The run goes on until the edge answers `Closed`, or as many connections have ended
/// as `stop_after` says and none is open. It may wait for ever.
///
/// A round polls the edge once and makes a step of each message that is whole (RFC 3261 section
/// 18.3), takes one order, asks the clock, lends out up to 64 turns, takes up to 64 that were made,
/// and puts what was sent to each place once. It doesn't poll where a turn is due already, but for
/// one round in 16. An order withdraws the session that it names, where it names the epoch that
/// runs and the session lives there; any other does nothing. Once a step was taken the notice is
/// told what lives: after a round where as many steps were taken since it was told last as
/// application sessions live; and where there was nothing to do and no turn is lent out, once for
/// each moment of the clock, but once a second where more than 256 sessions live, and at the end.
/// Where the setting `record` names a file, the steps that are kept are handed on after a round at
/// whose end the clock is at least 1,000 ms past the last hand-on, or past 0.
///
/// Where the setting `epoch_steps` isn't 0, an epoch ends once it has that many steps and no
/// session and no transaction lives: before the next step that is a message, a text that is none, a
/// loss or a later moment, and before the call answers `Done`. The epoch of number 4,294,967,295
/// doesn't end.
///
/// The turns that are lent out are made by as many threads as the settings' `workers` says, 1 to
/// 32. Each passes the gate before it calls a servlet. The rounds begin with the first of these
/// threads, or after 2 seconds without one; they make a turn themselves, and pass no gate, where no
/// thread has begun or the queue of turns is full. All these threads have ended when the call
/// returns.
///
/// The status says how it ended:
///
/// - `Done`: all that came was heard, no event waits, and all that was sent was put, but for what
///   went to places that failed. Each place that gave what is no message was closed, as often as it
///   gave it. The last listing that the notice was told is that of the last step.
/// - `Usage`: the words have another form.
/// - `Config`, `Dar`: the configuration is refused; it is accepted, and the routing table is
///   refused.
/// - `JournalFull`: a step was due that the journal had no room for.
/// - `Edge`: only where the edge counted a fault of its listener.
/// - `Read`: only where the shelf's count of faults rose in this call.
/// - `NoMemory`: want of memory, at any place.
///
/// The journal is there exactly where words and settings were accepted: it is that of the last
/// epoch, without the steps that the notice was handed. Else the edge wasn't asked and the notice
/// was told nothing.
pub fn serve<
    R: Threads + Wait + Sync,
    F: Shelf,
    E: Edge,
    G: Gate,
    T: Clock,
    O: Orders,
    N: Notice<Journal<Step>>,
>(
    rt: &R,
    alloc: Global,
    words: &[String],
    shelf: &mut F,
    edge: &mut E,
    gate: &G,
    clock: &mut T,
    orders: &mut O,
    notice: &mut N,
    apps: &Catalogue,
) -> Ran
    ensures serves { ServesWords (served_names (map string_bytes words.now)) apps.now.names
        (map
        (λ k.
        both_charters (stated (k.servlet.vtable, k.servlet.value))
        (option_map (λ l. listens (l.vtable, l.value)) k.listener)) apps.now.kinds)
        (λ name. F.holds shelf.old name) (Rose (F.faults shelf.old) (F.faults shelf.new))
        (E.state edge.old) (E.state edge.new) (N.noted notice.old) (N.noted notice.new)
        ((T.asked clock.old, T.comes clock.old), (O.asked orders.old, O.comes orders.old))
        ((T.asked clock.new, T.comes clock.new), (O.asked orders.new, O.comes orders.new)) result }
    ensures later { CountsOn (E.state edge.old) (E.state edge.new) }
{
    match begin(alloc, words, shelf, apps) {
        Ok(
            Begun {
                mut server,
                workers,
            },
        ) => {
            let ended = run_beside(
                rt,
                workers,
                &mut server,
                edge,
                gate,
                clock,
                orders,
                notice,
                apps,
            );
            finish(server, status_after(ended))
        }
        Err(ran) => ran,
    }
}

/// Serves as [`serve`] without workers: it makes each turn itself. What it does then rests on the
/// answers of the edge, the clock and the orders alone.
pub fn serve_alone<R: Wait, F: Shelf, E: Edge, T: Clock, O: Orders, N: Notice<Journal<Step>>>(
    rt: &R,
    alloc: Global,
    words: &[String],
    shelf: &mut F,
    edge: &mut E,
    clock: &mut T,
    orders: &mut O,
    notice: &mut N,
    apps: &Catalogue,
) -> Ran
    ensures serves { ServesWords (served_names (map string_bytes words.now)) apps.now.names
        (map
        (λ k.
        both_charters (stated (k.servlet.vtable, k.servlet.value))
        (option_map (λ l. listens (l.vtable, l.value)) k.listener)) apps.now.kinds)
        (λ name. F.holds shelf.old name) (Rose (F.faults shelf.old) (F.faults shelf.new))
        (E.state edge.old) (E.state edge.new) (N.noted notice.old) (N.noted notice.new)
        ((T.asked clock.old, T.comes clock.old), (O.asked orders.old, O.comes orders.old))
        ((T.asked clock.new, T.comes clock.new), (O.asked orders.new, O.comes orders.new)) result }
    ensures later { CountsOn (E.state edge.old) (E.state edge.new) }
{
    match begin(alloc, words, shelf, apps) {
        Ok(Begun { mut server, .. }) => {
            let mut seat = None;
            let ended = run(
                rt,
                &mut server,
                &mut seat,
                edge,
                clock,
                orders,
                notice,
                apps,
            );
            finish(server, status_after(ended))
        }
        Err(ran) => ran,
    }
}

/// The end of a run: its journal is that of the last epoch.
fn finish(server: Server, status: Status) -> Ran
    ensures status { result.status ≡ status }
    ensures epoch { result.epoch ≡ server.core.switch.epoch }
    ensures began { result.began ≡ server.core.switch.began }
    ensures journal { HasItems result.journal server.core.switch.journal }
    ensures lawful { IsLawful as_session server.core.switch.setup server.core.switch.epoch
        server.core.switch.began (whole server.core.switch) }
{
    let Server { core, .. } = server;
    let Core { switch, .. } = core;
    let _ = switch.journal();
    Ran {
        status,
        epoch: switch.epoch(),
        began: switch.began(),
        journal: Some(switch.into_journal()),
    }
}

/// The status of a run that ended so.
fn status_after(ended: Result<(), Stop>) -> Status
    ensures done { OnOk ended (result ≡ Status.Done) }
    ensures stopped { IfErr ended (λ cause. result ≡ status_of_stop cause) }
{
    match ended {
        Ok(()) => Status::Done,
        Err(Stop::JournalFull) => Status::JournalFull,
        Err(Stop::Edge) => Status::Edge,
        Err(Stop::NoMemory) => Status::NoMemory,
    }
}
