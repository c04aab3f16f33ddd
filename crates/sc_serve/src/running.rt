//! The run of a server, by itself or beside its workers.

ghost use Rattle.std.specs.Prelude.{◌≡◌, length, true, IfErr, OnOk, OnErr};
ghost use Rattle.std.specs.List.{All};
ghost use Rattle.sc_edge.specs.Edges.{CountsOn};
ghost use Rattle.sc_board.specs.Boards.{IsOf, MayWork, jobs_of};
ghost use Rattle.sc_serve.specs.Running.{Blames, FinishesOn, HaltsOn, IsDueAt};

use crate::rounds::round;
use crate::server::Server;
use crate::stop::Stop;
use sc_board::{Board, BoardPass, beside_crew};
use sc_edge::{Clock, Edge, Gate, Notice, Orders};
use sc_journal::Journal;
use sc_lending::{Seat, await_at, dismiss_at};
use sc_rounds::end_epoch;
use sc_servlets::Catalogue;
use sc_terms::{Step, Within};
use sc_value::NoMemory;
use std::sync::Wait;
use std::thread::Threads;

/// The board has room for so many jobs, and for one more of each worker.
const ROOM: usize = 64;

/// How many milliseconds a server without work waits at most, until it asks its edge, the clock and
/// orders again. What comes to the edge ends the wait.
const REST: u64 = 20;

/// How many milliseconds it waits at most for a turn that is lent out, until it asks its edge again.
const SHORT_REST: u64 = 1;

/// Runs a server beside so many workers, which make turns.
///
/// # Errors
///
/// As of `run`, and `NoMemory` where there is none for the board.
pub fn run_beside<
    R: Threads + Wait + Sync,
    E: Edge,
    G: Gate,
    T: Clock,
    O: Orders,
    N: Notice<Journal<Step>>,
>(
    rt: &R,
    workers: Within<1, 32>,
    server: &mut Server,
    edge: &mut E,
    gate: &G,
    clock: &mut T,
    orders: &mut O,
    notice: &mut N,
    apps: &Catalogue,
) -> Result<(), Stop>
    ensures ok { OnOk result
        (FinishesOn server.old server.new (E.state edge.old) (E.state edge.new) (N.noted notice.old)
        (N.noted notice.new)
        ((T.asked clock.old, T.comes clock.old), (O.asked orders.old, O.comes orders.old))
        ((T.asked clock.new, T.comes clock.new), (O.asked orders.new, O.comes orders.new))) }
    ensures err { OnErr result
        (HaltsOn server.old server.new (E.state edge.old) (E.state edge.new) (N.noted notice.old)
        (N.noted notice.new)
        ((T.asked clock.old, T.comes clock.old), (O.asked orders.old, O.comes orders.old))
        ((T.asked clock.new, T.comes clock.new), (O.asked orders.new, O.comes orders.new))) }
    ensures due { IfErr result (λ cause. IsDueAt server.new.core.switch cause) }
    ensures later { CountsOn (E.state edge.old) (E.state edge.new) }
    ensures blames { IfErr result (λ cause. Blames (E.state edge.old) (E.state edge.new) cause) }
{
    let workers = workers.get() as usize;
    let alloc = server.core.alloc;
    match Board::new(alloc, ROOM + workers, apps.kinds.len()) {
        Ok((board, mut pass)) => match board.passes(alloc, &mut pass, workers) {
            Ok(passes) => run_at(
                rt, &board, pass, passes, server, edge, gate, clock, orders, notice, apps,
            ),
            Err(NoMemory) => Err(Stop::NoMemory),
        },
        Err(NoMemory) => Err(Stop::NoMemory),
    }
}

/// Runs a server at a board, of which this is the first pass, beside a worker for each of the
/// others.
fn run_at<
    R: Threads + Wait + Sync,
    E: Edge,
    G: Gate,
    T: Clock,
    O: Orders,
    N: Notice<Journal<Step>>,
>(
    rt: &R,
    board: &Board,
    pass: BoardPass,
    passes: Vec<BoardPass>,
    server: &mut Server,
    edge: &mut E,
    gate: &G,
    clock: &mut T,
    orders: &mut O,
    notice: &mut N,
    apps: &Catalogue,
) -> Result<(), Stop>
    requires pass { IsOf board.now pass }
    requires first { (jobs_of pass).first ≡ true }
    requires kinds { (jobs_of pass).kinds ≡ length apps.now.kinds }
    requires last { (jobs_of pass).last ≡ 0 }
    requires passes { All (MayWork board.now (length apps.now.kinds)) passes.items }
    ensures ok { OnOk result
        (FinishesOn server.old server.new (E.state edge.old) (E.state edge.new) (N.noted notice.old)
        (N.noted notice.new)
        ((T.asked clock.old, T.comes clock.old), (O.asked orders.old, O.comes orders.old))
        ((T.asked clock.new, T.comes clock.new), (O.asked orders.new, O.comes orders.new))) }
    ensures err { OnErr result
        (HaltsOn server.old server.new (E.state edge.old) (E.state edge.new) (N.noted notice.old)
        (N.noted notice.new)
        ((T.asked clock.old, T.comes clock.old), (O.asked orders.old, O.comes orders.old))
        ((T.asked clock.new, T.comes clock.new), (O.asked orders.new, O.comes orders.new))) }
    ensures due { IfErr result (λ cause. IsDueAt server.new.core.switch cause) }
    ensures later { CountsOn (E.state edge.old) (E.state edge.new) }
    ensures blames { IfErr result (λ cause. Blames (E.state edge.old) (E.state edge.new) cause) }
{
    let alloc = server.core.alloc;
    let workers = passes.len();
    let mut seat = Some(Seat::new(board, pass, apps.kinds.len()));
    let mut here = || -> Result<(), Stop>
        ensures ok { OnOk result
            (FinishesOn server.entry.now server.exit.now (E.state edge.entry.now)
            (E.state edge.exit.now) (N.noted notice.entry.now) (N.noted notice.exit.now) (
              (T.asked clock.entry.now, T.comes clock.entry.now),
              (O.asked orders.entry.now, O.comes orders.entry.now),
            ) (
              (T.asked clock.exit.now, T.comes clock.exit.now),
              (O.asked orders.exit.now, O.comes orders.exit.now),
            )) }
        ensures err { OnErr result
            (HaltsOn server.entry.now server.exit.now (E.state edge.entry.now)
            (E.state edge.exit.now) (N.noted notice.entry.now) (N.noted notice.exit.now) (
              (T.asked clock.entry.now, T.comes clock.entry.now),
              (O.asked orders.entry.now, O.comes orders.entry.now),
            ) (
              (T.asked clock.exit.now, T.comes clock.exit.now),
              (O.asked orders.exit.now, O.comes orders.exit.now),
            )) }
        ensures due { IfErr result (λ cause. IsDueAt server.exit.now.core.switch cause) }
        ensures later { CountsOn (E.state edge.entry.now) (E.state edge.exit.now) }
        ensures blames { IfErr result
            (λ cause. Blames (E.state edge.entry.now) (E.state edge.exit.now) cause) }
    {
        run_for(
            rt, workers, server, &mut seat, edge, clock, orders, notice, apps,
        )
    };
    let (_, ended) = beside_crew(rt, alloc, board, passes, gate, apps, &mut here);
    ended
}

/// Runs a server that has so many workers, and ends their work.
fn run_for<R: Wait, E: Edge, T: Clock, O: Orders, N: Notice<Journal<Step>>>(
    rt: &R,
    workers: usize,
    server: &mut Server,
    seat: &mut Option<Seat<'_>>,
    edge: &mut E,
    clock: &mut T,
    orders: &mut O,
    notice: &mut N,
    apps: &Catalogue,
) -> Result<(), Stop>
    ensures ok { OnOk result
        (FinishesOn server.old server.new (E.state edge.old) (E.state edge.new) (N.noted notice.old)
        (N.noted notice.new)
        ((T.asked clock.old, T.comes clock.old), (O.asked orders.old, O.comes orders.old))
        ((T.asked clock.new, T.comes clock.new), (O.asked orders.new, O.comes orders.new))) }
    ensures err { OnErr result
        (HaltsOn server.old server.new (E.state edge.old) (E.state edge.new) (N.noted notice.old)
        (N.noted notice.new)
        ((T.asked clock.old, T.comes clock.old), (O.asked orders.old, O.comes orders.old))
        ((T.asked clock.new, T.comes clock.new), (O.asked orders.new, O.comes orders.new))) }
    ensures due { IfErr result (λ cause. IsDueAt server.new.core.switch cause) }
    ensures later { CountsOn (E.state edge.old) (E.state edge.new) }
    ensures blames { IfErr result (λ cause. Blames (E.state edge.old) (E.state edge.new) cause) }
{
    await_at(rt, seat);
    let ended = run(rt, server, seat, edge, clock, orders, notice, apps);
    dismiss_at(rt, seat, workers);
    ended
}

/// Makes rounds until the run is over. After a round in which nothing came, was lent, was taken or
/// was put it rests.
///
/// # Errors
///
/// As of `round`.
pub fn run<R: Wait, E: Edge, T: Clock, O: Orders, N: Notice<Journal<Step>>>(
    rt: &R,
    server: &mut Server,
    seat: &mut Option<Seat<'_>>,
    edge: &mut E,
    clock: &mut T,
    orders: &mut O,
    notice: &mut N,
    apps: &Catalogue,
) -> Result<(), Stop>
    ensures ok { OnOk result
        (FinishesOn server.old server.new (E.state edge.old) (E.state edge.new) (N.noted notice.old)
        (N.noted notice.new)
        ((T.asked clock.old, T.comes clock.old), (O.asked orders.old, O.comes orders.old))
        ((T.asked clock.new, T.comes clock.new), (O.asked orders.new, O.comes orders.new))) }
    ensures err { OnErr result
        (HaltsOn server.old server.new (E.state edge.old) (E.state edge.new) (N.noted notice.old)
        (N.noted notice.new)
        ((T.asked clock.old, T.comes clock.old), (O.asked orders.old, O.comes orders.old))
        ((T.asked clock.new, T.comes clock.new), (O.asked orders.new, O.comes orders.new))) }
    ensures due { IfErr result (λ cause. IsDueAt server.new.core.switch cause) }
    ensures later { CountsOn (E.state edge.old) (E.state edge.new) }
    ensures blames { IfErr result (λ cause. Blames (E.state edge.old) (E.state edge.new) cause) }
{
    for _ in rt.forever() {
        match round(rt, server, seat, edge, clock, orders, notice, apps) {
            Ok(true) => {}
            Ok(false) => {
                if server.is_done() {
                    end_epoch(&mut server.core, notice);
                    return Ok(());
                }
                rest(rt, server, seat, edge);
            }
            Err(stop) => return Err(stop),
        }
    }
    unreachable!()
}

/// A server that has nothing to do waits until something comes to the edge, or, where a turn is lent
/// out, until it is brought, for a short time in either case where it has no seat.
fn rest<R: Wait, E: Edge>(rt: &R, server: &Server, seat: &Option<Seat<'_>>, edge: &mut E)
    ensures { E.state edge.new ≡ E.state edge.old }
{
    if server.core.switch.leases() == 0 {
        edge.rest(REST);
    } else if let Some(seat) = seat {
        seat.await_result(rt, SHORT_REST);
    } else {
        edge.rest(SHORT_REST);
    }
}
