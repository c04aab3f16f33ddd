//! The command `serve` over sockets.

use crate::operating::operate;
use crate::recording::{RecordingFile, begun, recording_of};
use sc_console::Operator;
use sc_desk::{Desk, DeskOrders};
use sc_edge::{FileShelf, Notice, OpenGate, Orders};
use sc_journal::Journal;
use sc_limit::{Stream, fitting, room_of};
use sc_recorder::ClosingEdge;
use sc_replay::Status;
use sc_serve::{listening_at, serve};
use sc_servlets::Catalogue;
use sc_sockets::{MioEdge, WallClock};
use sc_tape::{Taped, serve_recorded};
use sc_terms::Step;
use sc_value::{NoMemory, Text, write_u64};
use sc_watch::{Watch, WatchNotice};
use std::alloc::Global;
use std::cell::Cell;
use std::io::Write;
use std::sync::{Arc, Wait};
use std::thread::{self, Threads};

/// So many orders wait at most until a server takes them.
const ROOM: usize = 64;

/// Serves the connections of the address that the settings name, and answers the lines of standard
/// input beside it. Standard error has a line once it listens. Where the system's clock can't be
/// read, or the address can't be listened at, the status is `Edge`. `threads` is the runtime as
/// that by which a call may begin threads and wait for ever.
pub fn serve_connections<W: Threads + Wait + Copy + Send + Sync + 'static>(
    rt: &HostRuntime,
    threads: &W,
    words: &[String],
    shelf: &mut FileShelf<HostRuntime>,
    apps: &Catalogue,
) -> Status {
    serve_watched(rt, threads, words, shelf, apps).unwrap_or(Status::NoMemory)
}

/// Serves with an order desk, and with a watch that the console reads.
fn serve_watched<W: Threads + Wait + Copy + Send + Sync + 'static>(
    rt: &HostRuntime,
    threads: &W,
    words: &[String],
    shelf: &mut FileShelf<HostRuntime>,
    apps: &Catalogue,
) -> Result<Status, NoMemory> {
    let alloc = rt.alloc();
    let (desk, mut taker) = Desk::new(alloc, ROOM)?;
    let poster = desk.split(&mut taker)?;
    let desk = Arc::new(alloc, desk)?;
    let theirs = Arc::try_clone(&desk)?;
    let (watch, mut readings) = Watch::new(threads, alloc, 1)?;
    let operator = readings
        .items
        .pop()
        .map(|reading| Operator::new(theirs, poster, reading));
    let mut orders = DeskOrders::new(threads, &*desk, taker);
    let notice = WatchNotice::new(threads, watch);
    let (status, notice) = serve_told(
        rt,
        threads,
        words,
        shelf,
        operator,
        &mut orders,
        notice,
        apps,
    );
    notice.into_watch().end(threads);
    Ok(status)
}

/// Serves, and writes the recording that the settings name, where they name one.
fn serve_told<
    W: Threads + Wait + Copy + Send + Sync + 'static,
    O: Orders,
    N: Notice<Journal<Step>>,
>(
    rt: &HostRuntime,
    threads: &W,
    words: &[String],
    shelf: &mut FileShelf<HostRuntime>,
    operator: Option<Operator>,
    orders: &mut O,
    notice: N,
    apps: &Catalogue,
) -> (Status, N) {
    match recording_of(rt.alloc(), words, shelf, apps) {
        Some(name) => match begun(rt, &name) {
            Some(file) => serve_edge(
                rt,
                threads,
                words,
                shelf,
                operator,
                orders,
                notice,
                Some(file),
                apps,
            ),
            None => (Status::Write, notice),
        },
        None => serve_edge(
            rt, threads, words, shelf, operator, orders, notice, None, apps,
        ),
    }
}

/// Serves the connections of the address that the settings name, and records it where there is a
/// file for that. The console begins once it listens.
fn serve_edge<
    W: Threads + Wait + Copy + Send + Sync + 'static,
    O: Orders,
    N: Notice<Journal<Step>>,
>(
    rt: &HostRuntime,
    threads: &W,
    words: &[String],
    shelf: &mut FileShelf<HostRuntime>,
    operator: Option<Operator>,
    orders: &mut O,
    notice: N,
    file: Option<RecordingFile>,
    apps: &Catalogue,
) -> (Status, N) {
    let alloc = rt.alloc();
    let Ok(mut clock) = WallClock::new(rt) else {
        return (Status::Edge, notice);
    };
    let edge = match listening_at(alloc, words, shelf, apps) {
        Some(at) => {
            let mut edge = MioEdge::new_or_deaf(rt, alloc, at.ip, at.port);
            edge.set_reuse(at.reuse);
            edge
        }
        None => MioEdge::deaf(rt, alloc),
    };
    if tell_listening(rt, &edge) {
        begin_console(rt, threads, operator);
    }
    match file {
        Some(file) => tape(
            threads, alloc, words, shelf, edge, &mut clock, orders, notice, file, apps,
        ),
        None => run(
            threads, alloc, words, shelf, edge, &mut clock, orders, notice, apps,
        ),
    }
}

/// Serves an edge.
fn run<W: Threads + Wait + Sync, O: Orders, N: Notice<Journal<Step>>>(
    threads: &W,
    alloc: Global,
    words: &[String],
    shelf: &mut FileShelf<HostRuntime>,
    mut edge: MioEdge<HostRuntime>,
    clock: &mut WallClock<'_, HostRuntime>,
    orders: &mut O,
    mut notice: N,
    apps: &Catalogue,
) -> (Status, N) {
    let ran = serve(
        threads,
        alloc,
        words,
        shelf,
        &mut edge,
        &OpenGate,
        clock,
        orders,
        &mut notice,
        apps,
    );
    (ran.status, notice)
}

/// Serves an edge and records it, until the recording can't be written.
fn tape<W: Threads + Wait + Sync, O: Orders, N: Notice<Journal<Step>>>(
    threads: &W,
    alloc: Global,
    words: &[String],
    shelf: &mut FileShelf<HostRuntime>,
    edge: MioEdge<HostRuntime>,
    clock: &mut WallClock<'_, HostRuntime>,
    orders: &mut O,
    notice: N,
    file: RecordingFile,
    apps: &Catalogue,
) -> (Status, N) {
    let over = Cell::new(false);
    let mut edge = ClosingEdge::new(edge, &over);
    let Taped {
        status,
        notice,
        out: _,
    } = serve_recorded(
        threads, alloc, words, shelf, &mut edge, &OpenGate, clock, orders, notice, file, &over,
        apps,
    );
    (status, notice)
}

/// Begins the thread of the console, which isn't waited for: it ends with standard input, or with
/// the program. Where no thread can be made there is no console.
fn begin_console<W: Threads + Wait + Copy + Send + 'static>(
    rt: &HostRuntime,
    threads: &W,
    operator: Option<Operator>,
) {
    if let Some(mut operator) = operator {
        let host = *rt;
        let wait = *threads;
        let _ = thread::spawn(threads, move || operate(&host, &wait, &mut operator));
    }
}

/// Writes the line that says where the program listens, as far as there is room for it on standard
/// error. Whether it listens.
fn tell_listening(rt: &HostRuntime, edge: &MioEdge<HostRuntime>) -> bool {
    if let Ok(at) = edge.local_address() {
        let ip = at.0;
        let mut line = Text::new(rt.alloc());
        if write_listening(ip, at.1, &mut line).is_ok() {
            let room = room_of(rt, Stream::Errors);
            let _ = rt.stderr().write_all(fitting(room, line.as_bytes()));
        }
        return true;
    }
    false
}

/// Appends `sipd: listening A.B.C.D:PORT` and a line feed.
fn write_listening(ip: [u8; 4], port: u16, out: &mut Text) -> Result<(), NoMemory> {
    out.append(b"sipd: listening ")?;
    write_u64(u64::from(ip[0]), out)?;
    out.append(b".")?;
    write_u64(u64::from(ip[1]), out)?;
    out.append(b".")?;
    write_u64(u64::from(ip[2]), out)?;
    out.append(b".")?;
    write_u64(u64::from(ip[3]), out)?;
    out.append(b":")?;
    write_u64(u64::from(port), out)?;
    out.append(b"\n")
}
