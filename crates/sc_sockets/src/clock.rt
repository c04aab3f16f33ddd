//! The time of a running server.

ghost use Rattle.std.specs.Prelude.{◌≤◌, ◌^◌};

use crate::counts::counted;
use sc_edge::Clock;
use std::io;
use std::marker::Model;
use std::time::{self, Instant};

// Moments are multiples of so many milliseconds.
const GRAIN: u64 = 100;

// The last moment that a clock may tell.
const LAST: u64 = 1 << 63;

/// The time since the clock was made, in milliseconds, from the system's clock that never goes
/// back. It is rounded down to whole tenths of a second, so that a server where nothing happens
/// sees ten moments in a second and not a thousand. What waits 500 ms is due after 400 to 600 ms: a
/// moment may be up to 100 ms early where the wait begins, and up to 100 ms late where it ends.
/// Where the system's clock can't be read the clock stands still.
#[derive(Drop)]
pub struct WallClock<'a, R> {
    rt: &'a R,
    began: Instant,
    last: u64,
    asked: u64,
}

// A contract sees how often it was asked.
impl<'a, R> Model for WallClock<'a, R> {
    ghost use Rattle.std.specs.Prelude.{ℕ};

    ghost Value = { ℕ };

    ghost view = { λ s. s.asked };
}

// The milliseconds at the grain, at most the last moment.
fn moment_of(millis: u128) -> u64
    ensures { result ≤ 2 ^ 63 }
{
    let millis = u64::try_from(millis).unwrap_or(LAST).min(LAST);
    millis - millis % GRAIN
}

impl<'a, R: time::Clock> WallClock<'a, R> {
    /// A clock that begins now, at 0. It fails where the system's clock can't be read.
    pub fn new(rt: &'a R) -> io::Result<WallClock<'a, R>> {
        Ok(WallClock {
            rt,
            began: Instant::now(rt)?,
            last: 0,
            asked: 0,
        })
    }

    // The milliseconds since it began.
    fn read(&self) -> u64
        ensures { result ≤ 2 ^ 63 }
    {
        match self.began.elapsed(self.rt) {
            Ok(since) => moment_of(since.as_millis()),
            Err(_) => self.last.min(LAST),
        }
    }
}

impl<R: time::Clock> Clock for WallClock<'_, R> {
    ghost use Rattle.std.specs.Prelude.{None};

    ghost asked = { λ s. s };

    ghost comes = { λ _ _. None };

    fn now(&mut self) -> u64 {
        self.asked = counted(self.asked);
        self.last = self.read();
        self.last
    }
}
