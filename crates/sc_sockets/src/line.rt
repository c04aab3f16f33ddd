//! What an edge keeps of one connection.

ghost use Rattle.std.specs.Prelude.{◌≡◌};
ghost use Rattle.sc_edge.specs.Edges.{is_back};
ghost use Rattle.sc_sockets.specs.Lines.{after, fresh, is_given, standing_in};

use sc_value::Place;

// A connection, or an address whose connection is gone where something is still known of it.
#[derive(Clone, Copy)]
pub struct Line {
    pub place: Place,
    // It is read.
    pub is_read: bool,
    // The last put that took bytes took only a part of its piece; said of addresses alone.
    pub is_cut: bool,
    // The next put fails.
    pub is_barred: bool,
}

// What a put meets at a place.
#[derive(Clone, Copy, Debug, PartialEq, Eq)]
pub(crate) enum Standing {
    // The number was given to no connection yet.
    Unborn,
    // The connection is gone, or the next put fails.
    Gone,
    // An address without a connection.
    Closed,
    // A connection that is written to.
    Open,
}

// Whether a peer opened the connection.
pub(crate) fn is_back(place: Place) -> bool
    ensures { result ≡ is_back place }
{
    matches!(place, Place::Back(_))
}

// Whether it is an address, or a number that was given to a connection.
pub(crate) fn is_given(last: u64, place: Place) -> bool
    ensures { result ≡ is_given last place }
{
    match place {
        Place::Back(number) => number <= last,
        Place::To(_, _) => true,
    }
}

// A new connection.
pub(crate) fn fresh(place: Place) -> Line
    ensures { result ≡ fresh place }
{
    Line {
        place,
        is_read: true,
        is_cut: false,
        is_barred: false,
    }
}

// What becomes of a connection.
#[derive(Clone, Copy)]
pub enum Change {
    // It ended or was closed.
    Halted,
    // It failed.
    Pardoned,
    // It was connected anew.
    Reopened,
    // It took so many bytes of a piece of this length.
    Part(usize, usize),
}

impl Line {
    // The connection after a change.
    pub(crate) fn after(self, change: Change) -> Line
        ensures { result ≡ after change self }
    {
        match change {
            Change::Halted => Line {
                is_read: false,
                is_barred: self.is_barred || self.is_cut,
                ..self
            },
            Change::Pardoned => Line {
                is_read: false,
                is_barred: false,
                ..self
            },
            Change::Reopened => Line {
                is_read: true,
                is_barred: false,
                ..self
            },
            Change::Part(count, len) => Line {
                is_cut: if count > 0 { count < len } else { self.is_cut },
                ..self
            },
        }
    }

    // Changes the connection.
    pub(crate) fn become_of(&mut self, change: Change)
        ensures { self.new ≡ after change self.old }
    {
        *self = self.after(change);
    }

    // What a put meets there.
    pub(crate) fn standing(&self, place: Place) -> Standing
        ensures { result ≡ standing_in place self.now }
    {
        if self.is_barred {
            Standing::Gone
        } else if self.is_read || is_back(place) {
            Standing::Open
        } else {
            Standing::Closed
        }
    }
}
