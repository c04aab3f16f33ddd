//! A word to sleep on until another thread has done something.

use std::sync::Wait;
use std::sync::atomic::{AtomicU64, Ordering};
use std::time::Duration;

/// How often it has been rung. It carries nothing: no rule speaks of it, so who wakes has to look
/// for what came.
#[derive(Drop)]
pub struct Bell {
    rings: AtomicU64,
    /// How many sleep on it, or are about to.
    sleepers: AtomicU64,
}

impl Bell {
    /// A bell that was not rung.
    pub fn new() -> Bell {
        Bell {
            rings: AtomicU64::new(0),
            sleepers: AtomicU64::new(0),
        }
    }

    /// How often it has been rung.
    pub fn rings(&self) -> u64 {
        self.rings.load(Ordering::SeqCst)
    }

    /// Rings it, and wakes one of those that sleep. Where none does the system isn't asked: who is
    /// about to sleep counts itself before it looks whether it was rung.
    pub fn wake_one(&self) {
        self.rings.fetch_add(1, Ordering::SeqCst);
        if self.sleepers.load(Ordering::SeqCst) > 0 {
            self.rings.wake_one();
        }
    }

    /// Rings it, and wakes all that sleep.
    pub fn wake_all(&self) {
        self.rings.fetch_add(1, Ordering::SeqCst);
        self.rings.wake_all();
    }

    /// Sleeps until it is rung, so many milliseconds at most, and not at all where it was rung since
    /// `seen` rings. It may wake for no reason.
    pub fn sleep<R: Wait>(&self, rt: &R, seen: u64, millis: u64) {
        self.sleepers.fetch_add(1, Ordering::SeqCst);
        self.rings.park_timeout(
            rt,
            (seen & 0xffff_ffff) as u32,
            Duration::from_millis(millis),
        );
        self.sleepers.fetch_sub(1, Ordering::SeqCst);
    }
}
