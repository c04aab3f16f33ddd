//! How often the notice is told what lives, as more and more sessions live.

use crate::kinds::catalogue;
use sc_edge::{KeepNotice, Listing, MemEdge, Noted, Polled};
use sc_serve::serve_alone;
use sc_serve_rows::{EMPTY, clock_for, orders_of, shelf_of, table_text, words_of};
use sc_switch::Journal;
use sc_terms::Step;
use sc_value::{List, NoMemory, Place, Text, write_u64};
use std::alloc::Global;
use std::process::Abort;
use std::sync::Wait;
use std::test::Fail;

/// How many calls come, one a round.
const CALLS: u64 = 25;

// The INVITE of the call of this number.
fn invite(alloc: Global, number: u64) -> Result<Text, NoMemory> {
    let mut text = Text::from_slice(
        alloc,
        b"INVITE sip:bob@127.0.0.1:5070 SIP/2.0\r\n\
          Via: SIP/2.0/TCP 127.0.0.1:5090;branch=z9hG4bKa",
    )?;
    write_u64(number, &mut text)?;
    text.append(
        b"\r\n\
          Max-Forwards: 70\r\n\
          From: <sip:alice@home.test>;tag=a\r\n\
          To: <sip:bob@home.test>\r\n\
          Call-ID: c",
    )?;
    write_u64(number, &mut text)?;
    text.append(
        b"\r\n\
          CSeq: 1 INVITE\r\n\
          Contact: <sip:alice@127.0.0.1:5090>\r\n\
          Content-Length: 0\r\n\
          \r\n",
    )?;
    Ok(text)
}

fn calls(alloc: Global) -> Result<List<Polled>, NoMemory> {
    let mut all = List::new(alloc);
    for number in 1..=CALLS {
        all.push(Polled::Bytes(Place::Back(1), invite(alloc, number)?))?;
    }
    Ok(all)
}

// What is told of the calls, in order.
fn told<R: Wait>(rt: &R, alloc: Global) -> Result<KeepNotice<Journal<Step>>, Fail> {
    let apps = catalogue(alloc)?;
    let words = words_of(alloc, &["serve", "config", "dar"])?;
    let mut shelf = shelf_of(alloc, b"", table_text(), 0)?;
    let mut edge = MemEdge::new(
        alloc,
        calls(alloc)?,
        List::new(alloc),
        List::new(alloc),
        65_536,
    )?;
    let mut clock = clock_for(alloc, &EMPTY)?;
    let mut orders = orders_of(alloc, &[])?;
    let mut notice = KeepNotice::new(alloc);
    let _ = serve_alone(
        rt,
        alloc,
        words.as_slice(),
        &mut shelf,
        &mut edge,
        &mut clock,
        &mut orders,
        &mut notice,
        &apps,
    );
    Ok(notice)
}

fn listing_of(noted: &Noted<Journal<Step>>) -> Option<&Listing> {
    match noted {
        Noted::List(listing) => Some(listing),
        _ => None,
    }
}

// How many listings there are, and the steps and live sessions of the last one.
fn count(noted: &[Noted<Journal<Step>>]) -> (u64, u64, usize) {
    let mut found: (u64, u64, usize) = (0, 0, 0);
    for one in noted {
        if let Some(listing) = listing_of(one) {
            let (count, _, _) = found;
            found = (count.saturating_add(1), listing.steps, listing.live.len());
        }
    }
    found
}

fn list<R: Wait + Abort>(rt: &R, alloc: Global) -> Result<(), Fail> {
    let notice = told(rt, alloc)?;
    match notice.noted() {
        Some(noted) => {
            let found = count(noted);
            assert!(rt;
                found == (6, 50, 25),
                "{} listings, the last of {} steps and {} sessions",
                found.0,
                found.1,
                found.2
            );
            Ok(())
        }
        None => Err(Fail::new("no room for a note")),
    }
}

// Each call makes two steps and lives on. A listing comes once as many steps were taken as sessions
// live: after the calls 1, 2, 4, 8 and 16, and after the last step.
#[test]
fn listings(rt: HostRuntime) -> Result<(), Fail> {
    list(&rt, rt.alloc())
}
