ghost use Rattle.std.specs.Prelude.{◌≡◌, None, ◌||◌};

use sc_edge::{Edge, Got, Put};
use sc_value::Place;
use std::cell::Cell;

/// An edge over another one that answers `Closed` once a flag is set, so that a server over it goes
/// on until no event waits and all is put, and ends. Until then it is the other one. It tells
/// neither what its polls answered nor its closes.
#[derive(Drop)]
pub struct ClosingEdge<'a, E> {
    edge: E,
    over: &'a Cell<bool>,
    polls: u64,
    is_over: bool,
}

impl<'a, E: Edge> ClosingEdge<'a, E> {
    /// This edge, until the flag is set.
    pub fn new(edge: E, over: &'a Cell<bool>) -> ClosingEdge<'a, E>
        ensures edge { result.edge ≡ edge }
    {
        ClosingEdge {
            edge,
            over,
            polls: 0,
            is_over: false,
        }
    }
}

impl<E: Edge> Edge for ClosingEdge<'_, E> {
    ghost state = { λ s.
        record (E.state s.edge) {
          polls = s.polls;
          polled = None;
          closes = None;
          is_closed = s.is_over || (E.state s.edge).is_closed;
        } };

    fn poll(&mut self, room: &mut [u8]) -> Got {
        self.polls = self.polls.saturating_add(1);
        if self.is_over || self.over.get() {
            self.is_over = true;
            return Got::Closed;
        }
        self.edge.poll(room)
    }

    fn put(&mut self, to: Place, bytes: &[u8]) -> Put {
        self.edge.put(to, bytes)
    }

    fn close(&mut self, at: Place) {
        self.edge.close(at);
    }

    fn rest(&mut self, ms: u64) {
        self.edge.rest(ms);
    }
}
