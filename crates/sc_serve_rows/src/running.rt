//! Running the rows of a table.

use crate::outside::{clock_of, edge_of, orders_of, shelf_of, table_text, words_of};
use crate::rows::Row;
use crate::telling::{tell_edge, tell_noted, tell_ran};
use sc_apps::Answers;
use sc_edge::{KeepNotice, ListClock, ListOrders, MemEdge, MemShelf};
use sc_serve::serve_alone;
use sc_servlets::Catalogue;
use sc_switch::{Journal, Ran};
use sc_terms::Step;
use sc_value::{NoMemory, Text};
use std::alloc::Global;
use std::sync::Wait;
use std::test::Fail;

/// The clock of a row.
pub fn clock_for(alloc: Global, row: &Row) -> Result<ListClock, Fail> {
    match clock_of(alloc, row.moments)? {
        Some(clock) => Ok(clock),
        None => Err(Fail::new("a moment is too late")),
    }
}

// The run alone.
fn run<R: Wait>(
    rt: &R,
    alloc: Global,
    words: &[String],
    shelf: &mut MemShelf,
    edge: &mut MemEdge,
    clock: &mut ListClock,
    orders: &mut ListOrders,
    notice: &mut KeepNotice<Journal<Step>>,
    apps: &Catalogue,
) -> Ran {
    serve_alone(rt, alloc, words, shelf, edge, clock, orders, notice, apps)
}

// The lines of a run.
fn told_of(
    alloc: Global,
    ran: &Ran,
    edge: &MemEdge,
    notice: &KeepNotice<Journal<Step>>,
) -> Result<Text, Fail> {
    let mut told = Text::new(alloc);
    tell_ran(ran, &mut told)?;
    tell_edge(alloc, edge, &mut told)?;
    tell_noted(notice.noted(), &mut told)?;
    Ok(told)
}

/// The lines that are told of a row over this shelf, with these words.
pub fn told_over<R: Wait>(
    rt: &R,
    alloc: Global,
    words: &[String],
    shelf: &mut MemShelf,
    apps: &Catalogue,
    row: &Row,
) -> Result<Text, Fail> {
    let mut edge = edge_of(alloc, row)?;
    let mut clock = clock_for(alloc, row)?;
    let mut orders = orders_of(alloc, row.orders)?;
    let mut notice = KeepNotice::new(alloc);
    let ran = run(
        rt,
        alloc,
        words,
        shelf,
        &mut edge,
        &mut clock,
        &mut orders,
        &mut notice,
        apps,
    );
    told_of(alloc, &ran, &edge, &notice)
}

/// Each row tells what it is to tell, with the kind `answer` alone; a failure names the row.
pub fn hold<R: Wait>(rt: &R, alloc: Global, rows: &[Row]) -> Result<(), Fail> {
    let name = match Text::from_slice(alloc, b"answer") {
        Ok(name) => name,
        Err(NoMemory) => return Err(Fail::new("no memory for a name")),
    };
    let mut apps = Catalogue::new(alloc);
    match apps.add(name, Box::new(alloc, Answers)?, None) {
        Ok(()) => hold_with(rt, alloc, rows, &apps),
        Err(_) => Err(Fail::new("the kind is refused")),
    }
}

fn hold_with<R: Wait>(rt: &R, alloc: Global, rows: &[Row], apps: &Catalogue) -> Result<(), Fail> {
    let words = words_of(alloc, &["serve", "config", "dar"])?;
    for row in rows {
        let mut shelf = shelf_of(alloc, row.settings, table_text(), 0)?;
        let told = told_over(rt, alloc, words.as_slice(), &mut shelf, apps, row)?;
        if told.as_bytes() != row.told {
            return Err(Fail::new(format_args!("{}: {told}", row.name)));
        }
    }
    Ok(())
}
