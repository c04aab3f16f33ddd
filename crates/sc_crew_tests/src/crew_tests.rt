//! The server beside two workers: what each connection is answered, in whatever order the turns are
//! made.

use crate::kinds::{catalogue, catalogue_of};
use crate::meeting::Meeting;
use sc_edge::{Gate, KeepNotice, ListClock, ListOrders, MemEdge, MemShelf, OpenGate};
use sc_serve::serve;
use sc_serve_rows::Come::{Back, End, Fault, Front};
use sc_serve_rows::Letter::{First, Second};
use sc_serve_rows::{
    Come, EMPTY, Row, clock_for, edge_of, orders_of, shelf_of, table_text, tell_status, tell_took,
    words_of,
};
use sc_servlets::{Catalogue, SipServlet};
use sc_switch::Ran;
use sc_value::{AppId, NoMemory, Place, Text};
use std::alloc::Global;
use std::process::Abort;
use std::sync::atomic::{AtomicU64, Ordering};
use std::sync::{Arc, Wait};
use std::test::Fail;
use std::thread;
use std::thread::Threads;

/// Two requests in two pieces each, and the end of each connection.
const COMING: [Come; 6] = [
    Front(1, First, 100),
    Front(2, Second, 100),
    Back(1, First, 100),
    Back(2, Second, 100),
    End(1),
    End(2),
];

/// The same with a fault of the edge behind them.
const FAULTY: [Come; 7] = [
    Front(1, First, 100),
    Front(2, Second, 100),
    Back(1, First, 100),
    Back(2, Second, 100),
    End(1),
    End(2),
    Fault,
];

const ANSWERED: &[u8] = b"Done\nc1 200 of c1 by 0-1;\nc2 200 of c2 by 0-2;\n";

// What a run beside two workers ends with, and what each connection took.
fn told<R: Threads + Wait + Sync, G: Gate>(
    rt: &R,
    alloc: Global,
    coming: &'static [Come],
    gate: &G,
    apps: &Catalogue,
) -> Result<Text, Fail> {
    let row = Row { coming, ..EMPTY };
    let mut edge = edge_of(alloc, &row)?;
    let ended = ended(rt, alloc, &row, &mut edge, gate, apps)?;
    with_took(alloc, ended, &edge)
}

fn with_took(alloc: Global, ended: Text, edge: &MemEdge) -> Result<Text, Fail> {
    let mut told = ended;
    for number in 1..=2 {
        tell_took(number, &edge.took(alloc, Place::Back(number))?, &mut told)?;
    }
    Ok(told)
}

// What the run of a row ends with.
fn ended<R: Threads + Wait + Sync, G: Gate>(
    rt: &R,
    alloc: Global,
    row: &Row,
    edge: &mut MemEdge,
    gate: &G,
    apps: &Catalogue,
) -> Result<Text, Fail> {
    let words = words_of(alloc, &["serve", "config", "dar"])?;
    let mut shelf = shelf_of(alloc, b"workers = 2\n", table_text(), 0)?;
    ended_over(
        rt,
        alloc,
        words.as_slice(),
        &mut shelf,
        row,
        edge,
        gate,
        apps,
    )
}

fn ended_over<R: Threads + Wait + Sync, G: Gate>(
    rt: &R,
    alloc: Global,
    words: &[String],
    shelf: &mut MemShelf,
    row: &Row,
    edge: &mut MemEdge,
    gate: &G,
    apps: &Catalogue,
) -> Result<Text, Fail> {
    let mut clock = clock_for(alloc, row)?;
    let mut orders = orders_of(alloc, &[])?;
    ended_at(
        rt,
        alloc,
        words,
        shelf,
        edge,
        gate,
        &mut clock,
        &mut orders,
        apps,
    )
}

fn ended_at<R: Threads + Wait + Sync, G: Gate>(
    rt: &R,
    alloc: Global,
    words: &[String],
    shelf: &mut MemShelf,
    edge: &mut MemEdge,
    gate: &G,
    clock: &mut ListClock,
    orders: &mut ListOrders,
    apps: &Catalogue,
) -> Result<Text, Fail> {
    let mut notice = KeepNotice::new(alloc);
    let ran = serve(
        rt,
        alloc,
        words,
        shelf,
        edge,
        gate,
        clock,
        orders,
        &mut notice,
        apps,
    );
    line_of(alloc, &ran)
}

fn line_of(alloc: Global, ran: &Ran) -> Result<Text, Fail> {
    let mut told = Text::new(alloc);
    tell_status(&ran.status, &mut told)?;
    told.append(b"\n")?;
    Ok(told)
}

// Whether a word is set, which may take a million looks at it.
fn is_set(word: &AtomicU64, wanted: u64) -> bool {
    for _ in 0..1_000_000 {
        if word.load(Ordering::SeqCst) == wanted {
            return true;
        }
        thread::yield_now();
    }
    false
}

#[test]
fn two_workers(rt: HostRuntime) -> Result<(), Fail> {
    let alloc = rt.alloc();
    let apps = catalogue(alloc)?;
    let told = told(&rt, alloc, &COMING, &OpenGate, &apps)?;
    assert!(&rt; told.as_bytes() == ANSWERED, "{told}");
    Ok(())
}

#[test]
fn a_fault_of_the_edge(rt: HostRuntime) -> Result<(), Fail> {
    let alloc = rt.alloc();
    let apps = catalogue(alloc)?;
    let told = told(&rt, alloc, &FAULTY, &OpenGate, &apps)?;
    assert!(&rt; told.as_bytes().starts_with(b"Edge\n"), "{told}");
    Ok(())
}

// A gate that holds the turn of the first session until that of the second has passed.
#[derive(Drop)]
struct Holding {
    passed: AtomicU64,
    tired: AtomicU64,
}

impl Gate for Holding {
    fn pass(&self, app: AppId, _event: u64) {
        if app.serial == 2 {
            self.passed.store(1, Ordering::SeqCst);
            return;
        }
        if !is_set(&self.passed, 1) {
            self.tired.store(1, Ordering::SeqCst);
        }
    }
}

#[test]
fn a_gate_that_holds_a_turn(rt: HostRuntime) -> Result<(), Fail> {
    let alloc = rt.alloc();
    let apps = catalogue(alloc)?;
    let gate = Holding {
        passed: AtomicU64::new(0),
        tired: AtomicU64::new(0),
    };
    let told = told(&rt, alloc, &COMING, &gate, &apps)?;
    assert!(&rt; told.as_bytes() == ANSWERED, "{told}");
    assert!(&rt;
        gate.tired.load(Ordering::SeqCst) == 0,
        "the second turn never passed"
    );
    Ok(())
}

fn meeting_kind(alloc: Global, word: &Arc<AtomicU64>) -> Result<Catalogue, Fail> {
    let word = Arc::try_clone(word)?;
    let servlet: Box<dyn SipServlet> = Box::new(alloc, Meeting { word })?;
    match Text::from_slice(alloc, b"answer") {
        Ok(name) => catalogue_of(alloc, name, servlet),
        Err(NoMemory) => {
            drop(servlet);
            Err(Fail::new("no memory for a name"))
        }
    }
}

#[test]
fn turns_that_meet(rt: HostRuntime) -> Result<(), Fail> {
    let alloc = rt.alloc();
    let word = Arc::new(alloc, AtomicU64::new(0))?;
    let apps = meeting_kind(alloc, &word)?;
    let told = told(&rt, alloc, &COMING, &OpenGate, &apps)?;
    assert!(&rt; told.as_bytes() == ANSWERED, "{told}");
    assert!(&rt; word.load(Ordering::SeqCst) == 2, "a turn met no other");
    Ok(())
}
