//! What a reading gives, in one thread and beside the writer's.

use sc_edge::{Listing, Notice};
use sc_value::{AppId, List, NoMemory};
use sc_watch::{Reading, Watch, WatchNotice};
use std::alloc::Global;
use std::sync::Wait;
use std::test::Fail;
use std::thread::{Threads, join};

/// So many listings are put beside a reader.
const PUTS: u64 = 1_000;

fn listing(alloc: Global, epoch: u32, steps: u64, live: &[AppId]) -> Result<Listing, NoMemory> {
    let mut apps = List::new(alloc);
    for app in live {
        apps.push(*app)?;
    }
    Ok(Listing {
        epoch,
        steps,
        live: apps,
        waiting: 0,
    })
}

#[test]
fn a_listing_that_was_put_is_read(rt: HostRuntime) -> Result<(), Fail> {
    let app = AppId { host: 0, serial: 1 };
    let (mut watch, mut readings) = Watch::new(&rt, rt.alloc(), 1)?;
    let put = match listing(rt.alloc(), 0, 3, &[app]) {
        Ok(listing) => watch.put(&rt, listing),
        Err(_) => Err(NoMemory),
    };
    let note = watch.tell();
    let read = match readings.items.pop() {
        Some(mut reading) => {
            reading.learn(note);
            reading.read(&rt).ok()
        }
        None => None,
    };
    watch.end(&rt);
    put?;
    match read {
        Some(read) => {
            assert_eq!(&rt; (read.epoch, read.steps, read.waiting), (0, 3, 0));
            assert_eq!(&rt; read.live.as_slice(), [app].as_slice());
        }
        None => return Err(Fail::new("nothing was read")),
    }
    Ok(())
}

/// Puts listings of rising steps.
fn put_all<R: Wait>(alloc: Global, notice: &mut WatchNotice<R>) {
    for steps in 1..=PUTS {
        if let Ok(listing) = listing(alloc, 0, steps, &[]) {
            Notice::<u64>::list(notice, listing);
        }
    }
}

/// Reads until the last listing is shown: whether none had fewer steps than one that was read
/// before it.
fn rises<R: Wait>(rt: &R, reading: Reading) -> bool {
    let mut reading = reading;
    let mut last = 0;
    for _ in rt.forever() {
        match reading.read(rt) {
            Ok(listing) if listing.steps < last => return false,
            Ok(listing) if listing.steps == PUTS => return true,
            Ok(listing) => last = listing.steps,
            Err(_) => return false,
        }
    }
    unreachable!()
}

/// A reader beside the writer.
fn read_beside<R: Threads + Wait + Sync>(
    rt: &R,
    alloc: Global,
    watch: Watch,
    reading: Reading,
) -> bool {
    let mut notice = WatchNotice::new(rt, watch);
    let (_, right) = join(
        rt,
        || put_all(alloc, &mut notice),
        move || rises(rt, reading),
    );
    notice.into_watch().end(rt);
    right
}

#[test]
fn no_reading_goes_back(rt: HostRuntime) -> Result<(), Fail> {
    let (watch, mut readings) = Watch::new(&rt, rt.alloc(), 1)?;
    let right = match readings.items.pop() {
        Some(reading) => read_beside(&rt, rt.alloc(), watch, reading),
        None => {
            watch.end(&rt);
            false
        }
    };
    assert!(&rt; right);
    Ok(())
}

#[test]
fn a_listing_that_is_before_the_last_is_left_out(rt: HostRuntime) -> Result<(), Fail> {
    let (watch, mut readings) = Watch::new(&rt, rt.alloc(), 1)?;
    let mut notice = WatchNotice::new(&rt, watch);
    if let Ok(later) = listing(rt.alloc(), 1, 2, &[]) {
        Notice::<u64>::list(&mut notice, later);
    }
    if let Ok(earlier) = listing(rt.alloc(), 0, 9, &[]) {
        Notice::<u64>::list(&mut notice, earlier);
    }
    let read = match readings.items.pop() {
        Some(mut reading) => reading.read(&rt).ok(),
        None => None,
    };
    notice.into_watch().end(&rt);
    match read {
        Some(read) => assert_eq!(&rt; (read.epoch, read.steps), (1, 2)),
        None => return Err(Fail::new("nothing was read")),
    }
    Ok(())
}
