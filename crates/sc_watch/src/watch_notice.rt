ghost use Rattle.std.specs.Prelude.{◌≡◌, None};

use crate::Watch;
use crate::reading::{is_before, note_at};
use sc_edge::{Listing, Notice};
use std::sync::Wait;

/// A notice that puts each listing into a watch. It leaves out one that finds no memory, and one
/// that is before the last one that was put, and tells nothing.
pub struct WatchNotice<'a, R: Wait> {
    rt: &'a R,
    watch: Watch,
}

impl<'a, R: Wait> WatchNotice<'a, R> {
    pub fn new(rt: &'a R, watch: Watch) -> WatchNotice<'a, R>
        ensures { result.watch ≡ watch }
    {
        WatchNotice { rt, watch }
    }

    /// Ends it, and gives the watch back.
    pub fn into_watch(self) -> Watch
        ensures { result ≡ self.entry.watch }
    {
        let WatchNotice { rt: _, watch } = self;
        watch
    }
}

impl<'a, R: Wait, J: Drop> Notice<J> for WatchNotice<'a, R> {
    ghost noted = { λ _. None };

    fn step(&mut self, _count: u64) {}

    fn epoch(&mut self, _number: u32, _began: u64, _journal: J) {}

    fn list(&mut self, listing: Listing) {
        if !is_before(note_at(&listing), self.watch.tell()) {
            let _ = self.watch.put(self.rt, listing);
        }
    }

    fn part(&mut self, _journal: J) {}
}
