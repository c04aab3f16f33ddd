//! The command `serve` over sockets.

use sc_edge::{FileShelf, ListOrders, NoNotice, OpenGate};
use sc_replay::Status;
use sc_serve::{listening_at, serve};
use sc_servlets::Catalogue;
use sc_sockets::{MioEdge, WallClock};
use sc_value::List;
use std::sync::Wait;
use std::thread::Threads;

/// Serves the connections of the address that the settings name, without a console. `threads` is
/// the runtime as that by which a call may begin threads and wait for ever.
pub fn serve_sockets<W: Threads + Wait + Sync>(
    rt: &HostRuntime,
    threads: &W,
    words: &[String],
    shelf: &mut FileShelf<HostRuntime>,
    apps: &Catalogue,
) -> Status {
    let alloc = rt.alloc();
    let Ok(mut clock) = WallClock::new(rt) else {
        return Status::Edge;
    };
    let mut edge = match listening_at(alloc, words, shelf, apps) {
        Some(at) => MioEdge::new_or_deaf(rt, alloc, at.ip, at.port),
        None => MioEdge::deaf(rt, alloc),
    };
    let mut orders = ListOrders::new(List::new(alloc));
    serve(
        threads,
        alloc,
        words,
        shelf,
        &mut edge,
        &OpenGate,
        &mut clock,
        &mut orders,
        &mut NoNotice,
        apps,
    )
    .status
}
