//! The outside of a case in memory.

use crate::letters::{Letter, text_of};
use crate::rows::{Come, Row};
use sc_edge::{Item, ListClock, ListOrders, MemEdge, MemShelf, Order, Polled, Share};
use sc_value::{List, NoMemory, Place, Text};
use std::alloc::Global;

// How many bytes, closes and failed puts an edge has room for.
const ROOM: usize = 4_096;

fn listening() -> &'static [u8] {
    b"listen = \"127.0.0.1:5060\"\ndomain = \"home.test\"\nsalt = \"s1\"\n"
}

fn application() -> &'static [u8] {
    b"\n[[app]]\nname = \"a0\"\nkind = \"answer\"\n"
}

/// The routing table of the cases.
pub fn table_text() -> &'static [u8] {
    b"OPTIONS: (\"a0\", \"DAR:From\", \"NEUTRAL\", \"\", \"NO_ROUTE\", \"0\")\nINVITE: (\"a0\", \"DAR:From\", \"NEUTRAL\", \"\", \"NO_ROUTE\", \"0\")\n"
}

/// The configuration with these lines more.
fn settings_text(alloc: Global, more: &[u8]) -> Result<Text, NoMemory> {
    let mut text = Text::from_slice(alloc, listening())?;
    text.append(more)?;
    text.append(application())?;
    Ok(text)
}

/// A shelf of a configuration with these lines more and of this table, whose read of this number
/// fails; 0 for none.
pub fn shelf_of(
    alloc: Global,
    more: &[u8],
    table: &[u8],
    failing: u64,
) -> Result<MemShelf, NoMemory> {
    let mut items = List::new(alloc);
    items.push(Item {
        name: Text::from_slice(alloc, b"config")?,
        bytes: settings_text(alloc, more)?,
    })?;
    items.push(Item {
        name: Text::from_slice(alloc, b"dar")?,
        bytes: Text::from_slice(alloc, table)?,
    })?;
    Ok(MemShelf::new(alloc, items, only(alloc, failing)?))
}

/// The words of a command line.
pub fn words_of(alloc: Global, words: &[&str]) -> Result<Vec<String>, NoMemory> {
    let mut made = Vec::new(alloc);
    for word in words {
        made.push(String::from_str(alloc, word)?)?;
    }
    Ok(made)
}

// The list of this number alone.
fn only(alloc: Global, number: u64) -> Result<List<u64>, NoMemory> {
    let mut numbers = List::new(alloc);
    numbers.push(number)?;
    Ok(numbers)
}

fn bytes(alloc: Global, number: u64, bytes: &[u8]) -> Result<Polled, NoMemory> {
    Ok(Polled::Bytes(Place::Back(number), Text::from_slice(alloc, bytes)?))
}

fn both(alloc: Global, number: u64, first: Letter, second: Letter) -> Result<Polled, NoMemory> {
    let mut text = Text::from_slice(alloc, text_of(first))?;
    text.append(text_of(second))?;
    Ok(Polled::Bytes(Place::Back(number), text))
}

fn polled(alloc: Global, come: Come) -> Result<Polled, NoMemory> {
    match come {
        Come::All(number, letter) => bytes(alloc, number, text_of(letter)),
        Come::Front(number, letter, count) => bytes(alloc, number, front(text_of(letter), count)),
        Come::Back(number, letter, count) => bytes(alloc, number, back(text_of(letter), count)),
        Come::Both(number, first, second) => both(alloc, number, first, second),
        Come::End(number) => Ok(Polled::End(Place::Back(number))),
        Come::Failed(number) => Ok(Polled::Failed(Place::Back(number))),
        Come::NotYet => Ok(Polled::NotYet),
        Come::Fault => Ok(Polled::Fault),
    }
}

fn front(text: &'static [u8], count: usize) -> &'static [u8] {
    &text[..count.min(text.len())]
}

fn back(text: &'static [u8], count: usize) -> &'static [u8] {
    &text[count.min(text.len())..]
}

fn coming_of(alloc: Global, coming: &[Come]) -> Result<List<Polled>, NoMemory> {
    let mut all = List::new(alloc);
    for come in coming {
        all.push(polled(alloc, *come)?)?;
    }
    Ok(all)
}

fn shares_of(alloc: Global, share: Share, count: u64) -> Result<List<Share>, NoMemory> {
    let mut shares = List::new(alloc);
    for _ in 0..count {
        shares.push(share)?;
    }
    Ok(shares)
}

/// The edge of a row.
pub fn edge_of(alloc: Global, row: &Row) -> Result<MemEdge, NoMemory> {
    MemEdge::new(
        alloc,
        coming_of(alloc, row.coming)?,
        shares_of(alloc, row.share, row.shares)?,
        only(alloc, row.failing)?,
        ROOM,
    )
}

/// The clock of these moments; None where one of them is too late.
pub fn clock_of(alloc: Global, moments: &[u64]) -> Result<Option<ListClock>, NoMemory> {
    let mut all = List::new(alloc);
    for moment in moments {
        all.push(*moment)?;
    }
    Ok(ListClock::new(all))
}

/// These orders.
pub fn orders_of(alloc: Global, orders: &[Option<Order>]) -> Result<ListOrders, NoMemory> {
    let mut all = List::new(alloc);
    for order in orders {
        all.push(*order)?;
    }
    Ok(ListOrders::new(all))
}
