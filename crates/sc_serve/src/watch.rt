//! When a server ends.

use crate::stop::Stop;
use sc_rounds::Came;
use sc_value::{List, NoMemory, Place, same_place};
use std::alloc::Global;

/// What a server remembers of its connections.
#[derive(Drop)]
pub struct Watch {
    /// After so many connections that ended the server ends; 0 for never.
    stop_after: u64,
    /// How many ended.
    ended: u64,
    /// The connections that gave or took bytes and haven't ended; kept only where `stop_after`
    /// isn't 0.
    open: List<Place>,
    /// Nothing comes any more from anywhere.
    closed: bool,
}

impl Watch {
    pub fn new(alloc: Global, stop_after: u64) -> Watch {
        Watch {
            stop_after,
            ended: 0,
            open: List::new(alloc),
            closed: false,
        }
    }

    /// Nothing comes any more.
    pub fn close(&mut self) {
        self.closed = true;
    }

    /// The connection gave or took bytes.
    pub fn note_open(&mut self, place: Place) -> Result<(), NoMemory> {
        if self.stop_after > 0 && !self.is_open(place) {
            self.open.push(place)?;
        }
        Ok(())
    }

    /// The edge told that the connection ended or failed, which it tells once of each. That of a
    /// peer counts though it gave and took nothing.
    pub fn note_end(&mut self, place: Place) {
        if matches!(place, Place::Back(_)) || self.is_open(place) {
            self.count_end(place);
        }
    }

    /// The connection failed at a put, or was closed. One that ended before doesn't count again.
    pub fn note_loss(&mut self, place: Place) {
        if self.is_open(place) {
            self.count_end(place);
        }
    }

    fn count_end(&mut self, place: Place) {
        self.ended = self.ended.saturating_add(1);
        self.open.items.retain(|other| !same_place(*other, place));
    }

    fn is_open(&self, place: Place) -> bool {
        self.open
            .as_slice()
            .iter()
            .any(|other| same_place(*other, place))
    }

    /// Whether no more is waited for: nothing comes any more, or enough connections ended and none
    /// is open.
    pub fn is_over(&self) -> bool {
        self.closed
            || (self.stop_after > 0 && self.ended >= self.stop_after && self.open.is_empty())
    }
}
