//! One run of a script of two calls.

use sc_edge::{Item, MemShelf, MemSink};
use sc_replay::{Status, replay};
use sc_servlets::{Catalogue, SipServlet};
use sc_value::{List, NoMemory, Text};
use std::alloc::Global;
use std::test::Fail;

// Each text stands in a function, whose value no proof goes into.
fn settings_text() -> &'static [u8] {
    b"listen = \"127.0.0.1:5060\"\ndomain = \"home.test\"\nsalt = \"s1\"\n\n[[app]]\nname = \"a0\"\nkind = \"answer\"\n"
}

fn table_text() -> &'static [u8] {
    b"OPTIONS: (\"a0\", \"DAR:From\", \"NEUTRAL\", \"\", \"NO_ROUTE\", \"0\")\n"
}

fn script_text() -> &'static [u8] {
    b"in c1 217\nOPTIONS sip:alice@home.test SIP/2.0\r\nVia: SIP/2.0/TCP 127.0.0.1:5090;branch=z9hG4bKa1\r\nMax-Forwards: 70\r\nFrom: <sip:bob@home.test>;tag=b1\r\nTo: <sip:alice@home.test>\r\nCall-ID: c1\r\nCSeq: 1 OPTIONS\r\nContent-Length: 0\r\n\r\n\nrun\nin c1 217\nOPTIONS sip:alice@home.test SIP/2.0\r\nVia: SIP/2.0/TCP 127.0.0.1:5090;branch=z9hG4bKa2\r\nMax-Forwards: 70\r\nFrom: <sip:bob@home.test>;tag=b1\r\nTo: <sip:alice@home.test>\r\nCall-ID: c2\r\nCSeq: 1 OPTIONS\r\nContent-Length: 0\r\n\r\n\nrun\nend\n"
}

/// The catalogue of the kind `answer`.
pub fn catalogue(alloc: Global, servlet: Box<dyn SipServlet>) -> Result<Catalogue, Fail> {
    match Text::from_slice(alloc, b"answer") {
        Ok(name) => catalogue_of(alloc, name, servlet),
        Err(NoMemory) => {
            drop(servlet);
            Err(Fail::new("no memory for a name"))
        }
    }
}

fn catalogue_of(
    alloc: Global,
    name: Text,
    servlet: Box<dyn SipServlet>,
) -> Result<Catalogue, Fail> {
    let mut apps = Catalogue::new(alloc);
    match apps.add(name, servlet, None) {
        Ok(()) => Ok(apps),
        Err(_) => Err(Fail::new("the kind is refused")),
    }
}

fn item(alloc: Global, name: &[u8], bytes: &[u8]) -> Result<Item, NoMemory> {
    let name = Text::from_slice(alloc, name)?;
    let bytes = Text::from_slice(alloc, bytes)?;
    Ok(Item { name, bytes })
}

fn items(alloc: Global) -> Result<List<Item>, NoMemory> {
    let mut items = List::new(alloc);
    items.push(item(alloc, b"config", settings_text())?)?;
    items.push(item(alloc, b"dar", table_text())?)?;
    items.push(item(alloc, b"script", script_text())?)?;
    Ok(items)
}

fn words(alloc: Global) -> Result<Vec<String>, NoMemory> {
    let mut words = Vec::new(alloc);
    for word in ["replay", "config", "dar", "script"] {
        words.push(String::from_str(alloc, word)?)?;
    }
    Ok(words)
}

// The list of this number alone.
fn only(alloc: Global, number: u64) -> Result<List<u64>, NoMemory> {
    let mut numbers = List::new(alloc);
    numbers.push(number)?;
    Ok(numbers)
}

/// How a run ended, whether it has a journal, of how many steps, and what the sink took.
#[derive(Drop)]
pub struct Left {
    pub ended: &'static [u8],
    pub steps: Option<u64>,
    pub took: Text,
    pub faults: u64,
}

fn name_of(status: &Status) -> &'static [u8] {
    match status {
        Status::Done => b"Done",
        Status::Read => b"Read",
        Status::Write => b"Write",
        _ => b"another",
    }
}

/// The run in which the read and the put of these numbers, from 1, fail. A put takes at most 16
/// bytes.
pub fn run(alloc: Global, apps: &Catalogue, read: u64, put: u64) -> Result<Left, Fail> {
    let words = words(alloc)?;
    let mut shelf = MemShelf::new(alloc, items(alloc)?, only(alloc, read)?);
    let mut sink = MemSink::new(alloc, 65_536, only(alloc, put)?)?.with_most(16);
    let ran = replay(alloc, words.as_slice(), &mut shelf, apps, &mut sink);
    Ok(Left {
        ended: name_of(&ran.status),
        steps: ran.journal.as_ref().map(|journal| journal.len()),
        took: Text::from_slice(alloc, sink.bytes())?,
        faults: shelf.faults().saturating_add(sink.faults()),
    })
}
