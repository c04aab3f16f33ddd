//! One connection's socket, and what was seen of it.

ghost use Rattle.std.specs.Prelude.{◌<◌, length};
ghost use Rattle.sc_sockets.specs.Answers.{IsHeard, IsTaken};

use crate::line::is_back;
use crate::reading::{Heard, read_some};
use crate::writing::{Taken, write_some};
use mio::event::Event;
use mio::net::TcpStream;
use sc_value::{Place, same_place};

// A connect that takes longer has failed, in milliseconds. The system alone gives up after two
// minutes.
const LONGEST_CONNECT: u64 = 10_000;

// A peer that sends no more is kept so long without a put, in milliseconds: twice the longest time
// that a request waits for its response (RFC 3261 section 17.1.1.2).
const LONGEST_SILENCE: u64 = 64_000;

// A piece that would wait may be so long, in bytes; with a longer one the peer is given up.
const LONGEST_PIECE: usize = 1 << 20;

// Whether it is this place.
fn is_place(some: Option<Place>, place: Place) -> bool {
    matches!(some, Some(other) if same_place(other, place))
}

// A connection.
#[derive(Drop)]
pub(crate) struct Slot {
    pub(crate) place: Place,
    pub(crate) stream: TcpStream,
    // The address that a peer's connection came from, where what goes there may go out here.
    origin: Option<Place>,
    // What goes to that address goes out here.
    is_lent: bool,
    // The place whose piece was taken in part: nothing else goes out before the rest of it.
    part: Option<Place>,
    // It stands among those that may give something.
    pub(crate) is_ready: bool,
    // It sends no more: what it sent before may still be there.
    is_closing: bool,
    // It was read to its end.
    pub(crate) is_ended: bool,
    // The system reported that it failed, or that it takes no more.
    is_broken: bool,
    // It took nothing when it was asked last, and nothing was reported since.
    is_blocked: bool,
    // It isn't known yet whether it could be connected.
    is_connecting: bool,
    // The moment of its last put that took bytes, of its end or of its beginning.
    pub(crate) used: u64,
}

impl Slot {
    // A connection that was made at this moment.
    pub(crate) fn new(place: Place, stream: TcpStream, origin: Option<Place>, now: u64) -> Slot {
        Slot {
            place,
            stream,
            origin,
            is_lent: false,
            part: None,
            is_ready: false,
            is_closing: false,
            is_ended: false,
            is_broken: false,
            is_blocked: false,
            is_connecting: !is_back(place),
            used: now,
        }
    }

    // Notes what was reported. It answers whether something may be read.
    pub(crate) fn note(&mut self, event: &Event) -> bool {
        let is_over = event.is_error() || event.is_write_closed();
        if event.is_writable() || is_over {
            self.is_blocked = false;
            self.is_connecting = false;
        }
        if is_over {
            self.is_broken = true;
        }
        if event.is_read_closed() {
            self.is_closing = true;
        }
        !self.is_ended && (event.is_readable() || event.is_read_closed() || is_over)
    }

    // Reads what came, once.
    pub(crate) fn read(&mut self, room: &mut [u8]) -> Heard
        requires { 0 < length room.old }
        ensures { IsHeard result (length room.new) }
    {
        read_some(&mut self.stream, room)
    }

    // Whether more may be read right after a read of so many bytes into room for `len`.
    pub(crate) fn has_more(&self, heard: Heard, len: usize) -> bool {
        match heard {
            Heard::Some(count) => count == len || self.is_closing,
            _ => false,
        }
    }

    // Whether what goes to a place goes out here.
    pub(crate) fn serves(&self, place: Place) -> bool {
        same_place(self.place, place) || self.is_lent && is_place(self.origin, place)
    }

    // From now on what goes to an address goes out here, where it came from there and is read
    // still.
    pub(crate) fn lend(&mut self, place: Place) -> bool {
        let is_lent = !self.is_ended && is_place(self.origin, place);
        self.is_lent = self.is_lent || is_lent;
        is_lent
    }

    // The other place that goes out here beside this one.
    pub(crate) fn other(&self, place: Place) -> Option<Place> {
        if !self.is_lent {
            None
        } else if same_place(self.place, place) {
            self.origin
        } else {
            Some(self.place)
        }
    }

    // It was read to its end at this moment. What goes to its address goes out here no more.
    pub(crate) fn end(&mut self, now: u64) {
        self.is_ended = true;
        self.is_lent = false;
        self.used = now;
    }

    // Writes from the front of a piece that goes to a place, once, unless it is known to take none.
    pub(crate) fn write(&mut self, to: Place, bytes: &[u8], now: u64) -> Taken
        ensures { IsTaken result (length bytes.now) }
    {
        if self.is_blocked || !self.may_take(to) {
            return self.wait(bytes.len(), now);
        }
        match write_some(&mut self.stream, bytes) {
            Taken::NotYet => {
                self.is_blocked = true;
                self.wait(bytes.len(), now)
            }
            Taken::Failed => Taken::Failed,
            Taken::Some(count) => {
                self.is_connecting = false;
                self.used = now;
                self.part = if count < bytes.len() { Some(to) } else { None };
                Taken::Some(count)
            }
        }
    }

    // Whether it has no piece of another place to end first.
    fn may_take(&self, to: Place) -> bool {
        self.part.is_none() || is_place(self.part, to)
    }

    // A piece that has to wait: it doesn't where it is too long, or the connect lasts too long.
    fn wait(&self, len: usize, now: u64) -> Taken
        ensures { IsTaken result len }
    {
        let is_late = self.is_connecting && now.saturating_sub(self.used) > LONGEST_CONNECT;
        if is_late || len > LONGEST_PIECE {
            Taken::Failed
        } else {
            Taken::NotYet
        }
    }

    // Whether it was read to its end, and won't be written to any more: it failed, or nothing was
    // put for long.
    pub(crate) fn is_spent(&self, now: u64) -> bool {
        self.is_ended && (self.is_broken || now.saturating_sub(self.used) > LONGEST_SILENCE)
    }
}
