//! A thread for each worker, beside the rounds.

ghost use Rattle.std.specs.Prelude.{◌≡◌, ◌<◌, IfOk, IfSome, IsSomeAnd, length, map, option_map};
ghost use Rattle.std.specs.List.{All};
ghost use Rattle.sc_servlets.specs.Stated.{both_charters};
ghost use Rattle.sc_servlets.specs.declared.lease.Lease.{Lease};
ghost use Rattle.sc_servlets.specs.declared.done.Done.{Done};
ghost use Rattle.sc_board.specs.Boards.{HasWorked, HaveWorked, IsMadeBy, MayMake, MayWork};

use crate::working::work_by;
use crate::{Board, BoardPass, make_turn};
use sc_edge::Gate;
use sc_servlets::{Catalogue, Done, Lease};
use sc_value::NoMemory;
use std::alloc::Global;
use std::sync::Wait;
use std::thread::{self, Threads};

/// Works in as many threads as there are passes, until each took a stop, and gives the passes back
/// in their order. Where no thread can be made, one works after another.
///
/// It ends only where a stop is posted for each pass, and where what the workers still bring has
/// room or is collected.
///
/// # Errors
///
/// `NoMemory` for want of memory. Some passes may then be lost before they worked.
pub fn crew<R: Threads + Wait + Sync, G: Gate>(
    rt: &R,
    alloc: Global,
    board: &Board,
    passes: Vec<BoardPass>,
    gate: &G,
    apps: &Catalogue,
) -> Result<Vec<BoardPass>, NoMemory>
    requires { All (MayWork board.now (length apps.now.kinds)) passes.items }
    ensures { IfOk result
        (λ ended.
        HaveWorked board.now
        (IsMadeBy
        (map
        (λ k.
        both_charters (stated (k.servlet.vtable, k.servlet.value))
        (option_map (λ l. listens (l.vtable, l.value)) k.listener)) apps.now.kinds))
        passes.items ended.items) }
{
    crew_by(
        rt,
        board,
        passes,
        &|lease: Lease| -> Done
            requires { lease.kind < length apps.now.kinds }
            ensures lease { result.lease ≡ lease }
            ensures made { IsMadeBy
                (map
                (λ k.
                both_charters (stated (k.servlet.vtable, k.servlet.value))
                (option_map (λ l. listens (l.vtable, l.value)) k.listener))
                apps.entry.now.kinds) result }
        { make_turn(alloc, gate, apps, lease) },
    )
}

fn crew_by<R: Threads + Wait + Sync, F: Fn(Lease) -> Done + Sync>(
    rt: &R,
    board: &Board,
    passes: Vec<BoardPass>,
    make: &F,
) -> Result<Vec<BoardPass>, NoMemory>
    requires passes { All (MayMake board.now (F.pre make.now)) passes.items }
    requires same { (lease : Lease) (done : Done) → F.post make.now lease done
        → done.lease ≡ lease }
    ensures { IfOk result
        (λ ended.
        HaveWorked board.now (λ done. F.post make.now done.lease done) passes.items ended.items) }
{
    let ended = thread::map_vec(
        rt,
        passes,
        &|pass: BoardPass| -> BoardPass
            requires { MayMake board.now (F.pre make.now) pass
                × ((lease : Lease) (done : Done) → F.post make.now lease done
                → done.lease ≡ lease) }
            ensures { HasWorked board.entry.now (λ done. F.post make.entry.now done.lease done) 1
                pass result }
        { work_by(rt, board, pass, make) },
    )?;
    Ok(ended)
}

/// A crew beside the rounds: works in as many threads as there are passes, until each took a stop,
/// and calls `here` in this thread, once. Where no thread can be made, `here` is called first.
///
/// It ends only where `here`, before it ends, posts a stop for each pass, and leaves room for what
/// the workers still bring: where the board has room for a result of each worker, it is enough that
/// `here` takes out the jobs that are left and collects, and then posts the stops.
///
/// # Errors
///
/// The crew's answer is `NoMemory` for want of memory. Some passes may then be lost before they
/// worked.
pub fn beside_crew<R: Threads + Wait + Sync, G: Gate, X, H: FnMut() -> X>(
    rt: &R,
    alloc: Global,
    board: &Board,
    passes: Vec<BoardPass>,
    gate: &G,
    apps: &Catalogue,
    here: &mut H,
) -> (Result<Vec<BoardPass>, NoMemory>, X)
    requires passes { All (MayWork board.now (length apps.now.kinds)) passes.items }
    requires here { H.pre here.old }
    ensures passes { IfOk result.0
        (λ ended.
        HaveWorked board.now
        (IsMadeBy
        (map
        (λ k.
        both_charters (stated (k.servlet.vtable, k.servlet.value))
        (option_map (λ l. listens (l.vtable, l.value)) k.listener)) apps.now.kinds))
        passes.items ended.items) }
    ensures here { H.step here.old result.1 here.new }
{
    beside_by(
        rt,
        board,
        passes,
        &|lease: Lease| -> Done
            requires { lease.kind < length apps.now.kinds }
            ensures lease { result.lease ≡ lease }
            ensures made { IsMadeBy
                (map
                (λ k.
                both_charters (stated (k.servlet.vtable, k.servlet.value))
                (option_map (λ l. listens (l.vtable, l.value)) k.listener))
                apps.entry.now.kinds) result }
        { make_turn(alloc, gate, apps, lease) },
        here,
    )
}

fn beside_by<R: Threads + Wait + Sync, F: Fn(Lease) -> Done + Sync, X, H: FnMut() -> X>(
    rt: &R,
    board: &Board,
    passes: Vec<BoardPass>,
    make: &F,
    here: &mut H,
) -> (Result<Vec<BoardPass>, NoMemory>, X)
    requires passes { All (MayMake board.now (F.pre make.now)) passes.items }
    requires same { (lease : Lease) (done : Done) → F.post make.now lease done
        → done.lease ≡ lease }
    requires here { H.pre here.old }
    ensures passes { IfOk result.0
        (λ ended.
        HaveWorked board.now (λ done. F.post make.now done.lease done) passes.items ended.items) }
    ensures here { H.step here.old result.1 here.new }
{
    let mut left = Some(passes);
    let mut there = || -> Result<Vec<BoardPass>, NoMemory>
        requires left { IsSomeAnd left (λ all. All (MayMake board.now (F.pre make.now)) all.items) }
        requires same { (lease : Lease) (done : Done) → F.post make.now lease done
            → done.lease ≡ lease }
        ensures { IfSome left.entry
            (λ all.
            IfOk result
            (λ ended.
            HaveWorked board.entry.now (λ done. F.post make.entry.now done.lease done)
            all.items ended.items)) }
    {
        match left.take() {
            Some(all) => crew_by(rt, board, all, make),
            None => unreachable!(),
        }
    };
    thread::join_mut(rt, &mut there, here)
}
