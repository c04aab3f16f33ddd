//! The work of one thread: it takes jobs, makes their turns and brings the results.

ghost use Rattle.std.specs.Prelude.{◌≡◌, ◌<◌, IfSome, IfNone, Some, length, map, option_map};
ghost use Rattle.sc_servlets.specs.Stated.{both_charters};
ghost use Rattle.sc_servlets.specs.declared.lease.Lease.{Lease};
ghost use Rattle.sc_servlets.specs.declared.done.Done.{Done};
ghost use Rattle.sc_board.specs.Boards.{HasWorked, IsMadeBy, IsOf, MayMake, MayWork, jobs_of, results_of};
ghost use Rattle.sc_board.specs.JobRules.{Took, in_hand, without};
ghost use Rattle.sc_board.specs.ResultRules.{after_bring};

use crate::bell::Bell;
use crate::{Board, BoardPass, Job};
use sc_edge::Gate;
use sc_servlets::{Catalogue, Done, Lease};
use std::alloc::Global;
use std::sync::Wait;
use std::thread;

/// How often a worker looks for a job before it sleeps.
const LOOKS: u32 = 4;

/// How long it sleeps at most before it looks again, in milliseconds.
const NAP: u64 = 500;

/// How long it sleeps where there is no room for a result, in milliseconds.
const ROOM_NAP: u64 = 1;

/// Passes the gate, and makes the turn of a lease.
pub fn make_turn<G: Gate>(alloc: Global, gate: &G, apps: &Catalogue, lease: Lease) -> Done
    requires { lease.kind < length apps.now.kinds }
    ensures lease { result.lease ≡ lease }
    ensures made { IsMadeBy
        (map
        (λ k.
        both_charters (stated (k.servlet.vtable, k.servlet.value))
        (option_map (λ l. listens (l.vtable, l.value)) k.listener)) apps.now.kinds) result }
{
    gate.pass(lease.app, lease.event_number);
    apps.react(alloc, lease)
}

/// Takes jobs, makes the turn of each lease behind the gate, and brings its result, until it takes
/// a stop. While there is no job it sleeps.
pub fn work<R: Wait, G: Gate>(
    rt: &R,
    alloc: Global,
    board: &Board,
    pass: BoardPass,
    gate: &G,
    apps: &Catalogue,
) -> BoardPass
    requires { MayWork board.now (length apps.now.kinds) pass }
    ensures { HasWorked board.now
        (IsMadeBy
        (map
        (λ k.
        both_charters (stated (k.servlet.vtable, k.servlet.value))
        (option_map (λ l. listens (l.vtable, l.value)) k.listener)) apps.now.kinds)) 1 pass
        result }
{
    work_by(
        rt,
        board,
        pass,
        &|lease: Lease| -> Done
            requires { lease.kind < length apps.now.kinds }
            ensures lease { result.lease ≡ lease }
            ensures made { IsMadeBy
                (map
                (λ k.
                both_charters (stated (k.servlet.vtable, k.servlet.value))
                (option_map (λ l. listens (l.vtable, l.value)) k.listener))
                apps.entry.now.kinds) result }
        { make_turn(alloc, gate, apps, lease) },
    )
}

/// Works by a function that makes turns.
pub fn work_by<R: Wait, F: Fn(Lease) -> Done>(
    rt: &R,
    board: &Board,
    mut pass: BoardPass,
    make: &F,
) -> BoardPass
    requires pass { MayMake board.now (F.pre make.now) pass }
    requires same { (lease : Lease) (done : Done) → F.post make.now lease done
        → done.lease ≡ lease }
    ensures { HasWorked board.now (λ done. F.post make.now done.lease done) 1 pass result }
{
    board.begun.wake_all();
    for _ in rt.forever() {
        match next_job(rt, board, &mut pass) {
            Job::Turn(lease) => turn(rt, board, &mut pass, make, lease),
            Job::Stop => return pass,
        }
    }
    unreachable!()
}

/// Makes a turn, and brings its result.
fn turn<R: Wait, F: Fn(Lease) -> Done>(
    rt: &R,
    board: &Board,
    pass: &mut BoardPass,
    make: &F,
    lease: Lease,
)
    requires pass { IsOf board.now pass.old
        × (in_hand lease.number (jobs_of pass.old).hand ≡ Some lease) }
    requires make { F.pre make.now lease }
    requires same { (done : Done) → F.post make.now lease done → done.lease ≡ lease }
    ensures pass { IsOf board.now pass.new }
    ensures jobs { jobs_of pass.new
        ≡ record (jobs_of pass.old) { hand = without lease.number (jobs_of pass.old).hand } }
    ensures results { (done : Done) × (done.lease ≡ lease) × F.post make.now lease done
        × (results_of pass.new ≡ after_bring (results_of pass.old) done) }
{
    let done = make(lease);
    bring(rt, board, pass, done);
}

/// Brings a result. Where there is no room it waits until there is.
fn bring<R: Wait>(rt: &R, board: &Board, pass: &mut BoardPass, mut done: Done)
    requires { IsOf board.now pass.old
        × (in_hand done.lease.number (jobs_of pass.old).hand ≡ Some done.lease) }
    ensures pass { IsOf board.now pass.new }
    ensures jobs { jobs_of pass.new
        ≡ record (jobs_of pass.old) { hand = without done.lease.number (jobs_of pass.old).hand } }
    ensures results { results_of pass.new ≡ after_bring (results_of pass.old) done }
{
    let pause = Bell::new();
    for _ in rt.forever() {
        match board.bring_as(rt, pass, done) {
            Ok(()) => return,
            Err(back) => done = back,
        }
        pause.sleep(rt, 0, ROOM_NAP);
    }
    unreachable!()
}

/// Takes the next job. Where there is none it sleeps until one is posted.
fn next_job<R: Wait>(rt: &R, board: &Board, pass: &mut BoardPass) -> Job
    requires { IsOf board.now pass.old }
    ensures pass { IsOf board.now pass.new }
    ensures results { results_of pass.new ≡ results_of pass.old }
    ensures taken { Took (jobs_of pass.old) result (jobs_of pass.new) }
{
    for _ in rt.forever() {
        let seen = board.posted.rings();
        if let Some(job) = look(rt, board, pass) {
            return job;
        }
        board.posted.sleep(rt, seen, NAP);
    }
    unreachable!()
}

/// Looks for a job some times.
fn look<R: Wait>(rt: &R, board: &Board, pass: &mut BoardPass) -> Option<Job>
    requires { IsOf board.now pass.old }
    ensures pass { IsOf board.now pass.new }
    ensures results { results_of pass.new ≡ results_of pass.old }
    ensures some { IfSome result (λ job. Took (jobs_of pass.old) job (jobs_of pass.new)) }
    ensures none { IfNone result (jobs_of pass.new ≡ jobs_of pass.old) }
{
    for _ in 0..LOOKS {
        if let Some(job) = board.take_as(rt, pass) {
            return Some(job);
        }
        thread::yield_now();
    }
    None
}
