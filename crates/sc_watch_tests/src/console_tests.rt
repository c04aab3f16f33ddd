//! What the console answers.

use sc_console::{Console, Operator};
use sc_desk::Desk;
use sc_edge::Listing;
use sc_value::{AppId, List, NoMemory, Text};
use sc_watch::Watch;
use std::alloc::Global;
use std::process::Abort;
use std::sync::{Arc, Wait};
use std::test::Fail;

/// The listing of epoch 0 with 3 steps, in which 0-1 lives.
fn listing(alloc: Global) -> Result<Listing, NoMemory> {
    let mut live = List::new(alloc);
    live.push(AppId { host: 0, serial: 1 })?;
    Ok(Listing {
        epoch: 0,
        steps: 3,
        live,
        waiting: 0,
    })
}

/// What the console writes on these lines, over a desk with room for one order.
fn answered<R: Wait + Abort>(
    rt: &R,
    alloc: Global,
    lines: &[&[u8]],
    answers: &[Console],
) -> Result<Text, Fail> {
    let (desk, mut taker) = Desk::new(alloc, 1)?;
    let poster = desk.split(&mut taker)?;
    let desk = Arc::new(alloc, desk)?;
    let (mut watch, mut readings) = Watch::new(rt, alloc, 1)?;
    let put = match listing(alloc) {
        Ok(listing) => watch.put(rt, listing).is_ok(),
        Err(_) => false,
    };
    let mut out = Text::new(alloc);
    let mut right = put;
    if let Some(reading) = readings.items.pop() {
        let mut operator = Operator::new(desk, poster, reading);
        for (line, answer) in lines.iter().zip(answers) {
            right = right && operator.answer(rt, line, &mut out) == Ok(*answer);
        }
    }
    watch.end(rt);
    assert!(rt; right, "{out}");
    Ok(out)
}

#[test]
fn list_writes_what_lives(rt: HostRuntime) -> Result<(), Fail> {
    let out = answered(&rt, rt.alloc(), &[b"list"], &[Console::Listed])?;
    assert_eq!(&rt; out.as_bytes(), b"list 0 3 1 0\napp 0 1\n".as_slice());
    Ok(())
}

#[test]
fn drop_is_posted_or_finds_the_desk_full(rt: HostRuntime) -> Result<(), Fail> {
    let out = answered(
        &rt,
        rt.alloc(),
        &[
            b"drop 0 1",
            b"drop 0 1",
            b"drop x",
            b"list 0",
            b"",
            b"drop 0 01",
            b"drop 0 1 ",
        ],
        &[
            Console::Posted,
            Console::Full,
            Console::Unknown,
            Console::Unknown,
            Console::Unknown,
            Console::Unknown,
            Console::Unknown,
        ],
    )?;
    assert_eq!(&rt; out.as_bytes(), b"posted\nfull\n?\n?\n?\n?\n?\n".as_slice());
    Ok(())
}
