//! The connections' sockets, each in a slot, and which of them may give something.

ghost use Rattle.std.specs.Prelude.{◌<◌, length};
ghost use Rattle.sc_sockets.specs.Answers.{IsHeard, IsTaken};

use crate::line::is_back;
use crate::reading::Heard;
use crate::slot::Slot;
use crate::writing::Taken;
use mio::event::Event;
use mio::net::TcpStream;
use sc_value::{Place, same_place};
use std::alloc::{AllocError, Global};
use std::collections::VecDeque;

// So many peers' connections are open at most, and so many to addresses.
const PEERS: usize = 256;

const ADDRESSES: usize = 512;

// No slot has this number.
const NOWHERE: usize = usize::MAX;

// The slots. The token of a connection is the number of its slot.
#[derive(Drop)]
pub(crate) struct Slots {
    slots: Vec<Option<Slot>>,
    // The slots that may give something, each once, in turn.
    ready: VecDeque<usize>,
    // Places whose connection was lost with another place, and that weren't told so yet.
    lost: VecDeque<Place>,
}

impl Slots {
    // No connections, with the memory for all that may come.
    pub(crate) fn new(alloc: Global) -> Result<Slots, AllocError> {
        Ok(Slots {
            slots: Vec::with_capacity(alloc, PEERS + ADDRESSES)?,
            ready: VecDeque::with_capacity(alloc, PEERS + ADDRESSES)?,
            lost: VecDeque::new(alloc),
        })
    }

    // How many connections are open, of peers or of addresses.
    fn open_count(&self, of_peers: bool) -> usize {
        self.slots
            .iter()
            .flatten()
            .filter(|slot| is_back(slot.place) == of_peers)
            .count()
    }

    // Whether there is room for one more peer.
    pub(crate) fn has_room_for_peer(&self) -> bool {
        self.open_count(true) < PEERS
    }

    // Whether one more address may be connected.
    pub(crate) fn has_room_for_address(&self) -> bool {
        self.open_count(false) < ADDRESSES
    }

    // A free slot.
    pub(crate) fn free_slot(&mut self) -> Option<usize> {
        if let Some(at) = self.slots.iter().position(|slot| slot.is_none()) {
            return Some(at);
        }
        self.slots.push(None).ok()?;
        Some(self.slots.len() - 1)
    }

    // Keeps a connection that was made at this moment; `false` where there is no such slot.
    pub(crate) fn fill(
        &mut self,
        at: usize,
        place: Place,
        stream: TcpStream,
        origin: Option<Place>,
        now: u64,
    ) -> bool {
        match self.slots.get_mut(at) {
            Some(slot) => {
                *slot = Some(Slot::new(place, stream, origin, now));
                true
            }
            None => false,
        }
    }

    // The slot by which what goes to a place goes out.
    fn slot_of(&self, place: Place) -> Option<usize> {
        self.slots
            .iter()
            .position(|slot| matches!(slot, Some(slot) if slot.serves(place)))
    }

    // From now on what goes to an address goes out by the connection that came from there; `false`
    // where there is none that is open.
    pub(crate) fn lend(&mut self, place: Place) -> bool {
        self.slots.iter_mut().flatten().any(|slot| slot.lend(place))
    }

    // A place is connected anew: that it was lost is no news.
    pub(crate) fn forget_lost(&mut self, place: Place) {
        self.lost.retain(|other| !same_place(*other, place));
    }

    // The other place of a connection is lost with this one.
    fn lose_other(&mut self, at: usize, place: Place) {
        if let Some(Some(slot)) = self.slots.get_mut(at) {
            if let Some(other) = slot.other(place) {
                let _ = self.lost.push_back(other);
            }
        }
    }

    // Drops the connection in a slot.
    fn clear(&mut self, at: usize) {
        if let Some(slot) = self.slots.get_mut(at) {
            *slot = None;
        }
        self.ready.retain(|token| *token != at);
    }

    // Drops the connection with a place. Another place that it served is lost with it.
    pub(crate) fn close(&mut self, place: Place) {
        if let Some(at) = self.slot_of(place) {
            self.lose_other(at, place);
            self.clear(at);
        }
    }

    // A peer that sends no more and won't be written to any more.
    pub(crate) fn spent(&self, now: u64) -> Option<Place> {
        self.slots
            .iter()
            .flatten()
            .find(|slot| slot.is_spent(now))
            .map(|slot| slot.place)
    }

    // The peer that sends no more and was written to the longest ago.
    pub(crate) fn ended(&self) -> Option<Place> {
        self.slots
            .iter()
            .flatten()
            .filter(|slot| slot.is_ended)
            .min_by_key(|slot| slot.used)
            .map(|slot| slot.place)
    }
}

// Reading and writing.
impl Slots {
    // Notes an event at its connection.
    pub(crate) fn note(&mut self, event: &Event) {
        let at = usize::from(event.token());
        if let Some(Some(slot)) = self.slots.get_mut(at) {
            if slot.note(event) && !slot.is_ready {
                slot.is_ready = self.ready.push_back(at).is_ok();
            }
        }
    }

    // Whether a connection may give something.
    pub(crate) fn has_ready(&self) -> bool {
        !self.ready.is_empty() || !self.lost.is_empty()
    }

    // The next connection that may give something, with its slot; a place that was lost with
    // another one comes first, with no slot, so that a read of it fails.
    pub(crate) fn next_ready(&mut self) -> Option<(usize, Place)> {
        if let Some(place) = self.lost.pop_front() {
            return Some((NOWHERE, place));
        }
        let at = self.ready.pop_front()?;
        match self.slots.get_mut(at) {
            Some(Some(slot)) => {
                slot.is_ready = false;
                Some((at, slot.place))
            }
            _ => None,
        }
    }

    // Reads from the connection in a slot, once. It stays among those that may give something where
    // it filled the room.
    pub(crate) fn read(&mut self, at: usize, room: &mut [u8]) -> Heard
        requires { 0 < length room.old }
        ensures { IsHeard result (length room.new) }
    {
        let Some(Some(slot)) = self.slots.get_mut(at) else {
            return Heard::Failed;
        };
        let heard = slot.read(room);
        if slot.has_more(heard, room.len()) && !slot.is_ready {
            slot.is_ready = self.ready.push_back(at).is_ok();
        }
        heard
    }

    // The connection in a slot was read to its end at this moment. A peer's is still written to.
    pub(crate) fn end(&mut self, at: usize, place: Place, now: u64) {
        if !is_back(place) {
            self.clear(at);
            return;
        }
        self.lose_other(at, place);
        if let Some(Some(slot)) = self.slots.get_mut(at) {
            slot.end(now);
        }
    }

    // Writes to the connection with a place, once.
    pub(crate) fn write(&mut self, place: Place, bytes: &[u8], now: u64) -> Taken
        ensures { IsTaken result (length bytes.now) }
    {
        let Some(at) = self.slot_of(place) else {
            return Taken::Failed;
        };
        match self.slots.get_mut(at) {
            Some(Some(slot)) => slot.write(place, bytes, now),
            _ => Taken::Failed,
        }
    }
}
