ghost use Rattle.std.specs.Prelude.{◌≡◌, ◌<◌, length, true, false};
ghost use Rattle.sc_edge.specs.EdgeCalls.{Answers, Ends, IsNoPoll, IsPart, Leaves, Names, PollBlames, PutTells, Shuts, StaysPolled, Took, cut_after};
ghost use Rattle.sc_edge.specs.Edges.{CountsOn, IsWithin, Stands, Stays, is_back};
ghost use Rattle.sc_edge.specs.Faults.{one_more};
ghost use Rattle.sc_edge.specs.Telling.{Notes};
ghost use Rattle.sc_value.specs.Places.{same_place};

use sc_value::{Place, Text};

/// What a poll of an edge gave.
#[derive(Clone, Copy, Debug, PartialEq, Eq)]
pub enum Got {
    /// So many bytes, at least one, came from the place. They stand at the front of the room.
    Bytes(Place, usize),
    /// The place gives nothing more.
    End(Place),
    /// The connection with the place failed; a fault of the place was counted.
    Failed(Place),
    /// Nothing comes any more from anywhere.
    Closed,
    /// Nothing came yet.
    NotYet,
    /// The edge can't listen; a fault of its listener was counted.
    Fault,
}

/// What came to an edge: what a poll answered, with the bytes, or the failure of a put.
#[derive(Drop)]
pub enum Polled {
    /// These bytes came from the place.
    Bytes(Place, Text),
    /// The place gives nothing more.
    End(Place),
    /// The connection with the place failed, at a poll or at a put.
    Failed(Place),
    /// Nothing comes any more from anywhere.
    Closed,
    /// Nothing came yet.
    NotYet,
    /// The edge can't listen.
    Fault,
}

/// What a put to a place of an edge came to.
#[derive(Clone, Copy, Debug, PartialEq, Eq)]
pub enum Put {
    /// The place took so many bytes from the front of the piece, at least one if it isn't empty.
    Wrote(usize),
    /// The place took none yet.
    NotYet,
    /// The place took none, and a fault of it was counted.
    Failed,
}

/// A close of a place, and how many polls came before it.
#[derive(Clone, Copy, Debug, PartialEq, Eq)]
pub struct Closing {
    pub place: Place,
    pub polls: u64,
}

/// The connections with the outside.
pub trait Edge {
    ghost use Rattle.sc_value.specs.declared.ids.Place.{Place};
    ghost use Rattle.sc_edge.specs.Edges.{EdgeState};

    // what it tells and counts
    ghost state: { Self → EdgeState };

    /// What came, at most as many bytes as there is room for; the room isn't empty. After an end, a
    /// failure or a close of a place no poll names it, unless it is an address to which a later put
    /// has connected anew. Once a poll answered `Closed`, each later one does.
    fn poll(&mut self, room: &mut [u8]) -> Got
        requires { 0 < length room.old }
        ensures polls { (state self.new).polls ≡ one_more (state self.old).polls }
        ensures later { CountsOn (state self.old) (state self.new) }
        ensures bound { IsWithin result (length room.new) }
        ensures blames { PollBlames (state self.old) (state self.new) result }
        ensures told { Answers (state self.old) (state self.new) result room.new }
        ensures ended { Ends (state self.old) (state self.new) result }
        ensures named { Names (state self.old) (state self.new) result }
        ensures stays { (place : Place) → Stays (state self.old) (state self.new) place }
        ensures stands { (place : Place) → Stands (state self.old) (state self.new) place }
        ensures closes { (state self.new).closes ≡ (state self.old).closes };

    /// Puts bytes to a place, from the front of the piece. The first put to an address connects to
    /// it, and so does the first after its connection ended, failed or was closed; after an end or
    /// a close that put fails where the last put there that took bytes took only a part of its
    /// piece. A put to a peer's connection that failed or was closed fails. A put that fails is
    /// told in order with what the polls answered, as a failure of its place.
    fn put(&mut self, to: Place, bytes: &[u8]) -> Put
        ensures later { CountsOn (state self.old) (state self.new) }
        ensures bound { IsPart result (length bytes.now) }
        ensures barred { (state self.old).is_barred to ≡ true → result ≡ Put.Failed }
        ensures took { Took (state self.old) (state self.new) to bytes.now result }
        ensures cut { is_back to ≡ false
            → (state self.new).is_cut to
            ≡ cut_after ((state self.old).is_cut to) result (length bytes.now) }
        ensures leaves { Leaves (state self.old) (state self.new) to result }
        ensures stays { (place : Place) → same_place to place ≡ false
            → Stays (state self.old) (state self.new) place }
        ensures stands { (place : Place) → same_place to place ≡ false
            → Stands (state self.old) (state self.new) place }
        ensures polled { IsNoPoll (state self.old) (state self.new) }
        ensures tells { PutTells (state self.old) (state self.new) to result }
        ensures closes { (state self.new).closes ≡ (state self.old).closes };

    /// Closes the connection with a place.
    fn close(&mut self, at: Place)
        ensures later { CountsOn (state self.old) (state self.new) }
        ensures shut { Shuts (state self.old) (state self.new) at }
        ensures stays { (place : Place) → Stays (state self.old) (state self.new) place }
        ensures stands { (place : Place) → Stands (state self.old) (state self.new) place }
        ensures polled { StaysPolled (state self.old) (state self.new) }
        ensures closes { Notes (state self.old).closes (state self.new).closes (record { place = at; polls = (state self.old).polls }) };

    /// Waits up to `ms` milliseconds for something to come. It changes nothing that the edge tells
    /// or counts.
    fn rest(&mut self, ms: u64)
        ensures { state self.new ≡ state self.old };
}
