ghost use Rattle.std.specs.Prelude.{◌≡◌, ◌<◌, ◌≤◌, ◌+◌, ◌++◌, IfOk, OnOk, None, option_copied};
ghost use Rattle.std.specs.List.{find, flat_map, position};
ghost use Rattle.sc_edge.specs.EdgePlaces.{as_ended, as_failed, as_served, as_shut, fresh, is_of, known_at, place_of_answer, places_of, with_known, with_note_of};
ghost use Rattle.sc_edge.specs.Edges.{is_back};

use crate::Polled;
use crate::plan::counted;
use sc_value::{NoMemory, Place, same_place};
use std::alloc::Global;
use std::marker::Model;

// What an edge in memory knows of a place.
#[derive(Clone, Copy)]
pub struct Known {
    // The place.
    pub place: Place,
    // Nothing comes from it.
    pub is_silent: bool,
    // The next put there fails.
    pub is_barred: bool,
    // The last put there that took bytes took only a part.
    pub is_cut: bool,
    // How often it failed.
    pub faults: u64,
}

// The places that an edge in memory knows, for which it has the memory.
#[derive(Drop)]
pub struct Places {
    known: Vec<Known>,
    room: usize,
    others: u64,
}

impl Model for Places {
    ghost use Rattle.std.specs.Prelude.{◌≤◌, vec_capacity};
    ghost use Rattle.sc_edge.specs.EdgePlaces.{PlacesState};

    ghost Value = { PlacesState };

    ghost view = { λ s. record { known = s.known.items; room = s.room; others = s.others } };

    ghost invariant = { λ s. s.room ≤ vec_capacity s.known };
}

// Whether a peer opened the connection.
fn is_peer(place: &Place) -> bool
    ensures { result ≡ is_back place.now }
{
    matches!(place, Place::Back(_))
}

impl Known {
    // The place after it ended.
    pub(crate) fn ended(self) -> Known
        ensures { result ≡ as_ended self }
    {
        Known {
            is_silent: true,
            is_barred: self.is_barred || (!is_peer(&self.place) && self.is_cut),
            ..self
        }
    }

    // The place after it failed.
    pub(crate) fn failed(self) -> Known
        ensures { result ≡ as_failed self }
    {
        Known {
            is_silent: true,
            is_barred: is_peer(&self.place),
            faults: counted(self.faults),
            ..self
        }
    }

    // The place after it was closed.
    pub(crate) fn shut(self) -> Known
        ensures { result ≡ as_shut self }
    {
        Known {
            is_silent: true,
            is_barred: self.is_barred || is_peer(&self.place) || self.is_cut,
            ..self
        }
    }

    // The place after it took so many bytes of a piece of this length.
    pub(crate) fn served(self, count: usize, len: usize) -> Known
        ensures { result ≡ as_served self count len }
    {
        Known {
            is_silent: self.is_silent && is_peer(&self.place),
            is_cut: if count > 0 { count < len } else { self.is_cut },
            ..self
        }
    }
}

// A place of which nothing was noted yet.
fn unnoted(place: Place) -> Known
    ensures { result ≡ fresh place }
{
    Known {
        place,
        is_silent: false,
        is_barred: false,
        is_cut: false,
        faults: 0,
    }
}

// The place that the item names, at the end.
fn add_named(known: &mut Vec<Known>, item: &Polled) -> Result<(), NoMemory>
    ensures { OnOk result (known.new.items ≡ known.old.items ++ place_of_answer item.now) }
{
    match item {
        Polled::Bytes(place, _) => known.push(unnoted(*place))?,
        Polled::End(place) => known.push(unnoted(*place))?,
        Polled::Failed(place) => known.push(unnoted(*place))?,
        Polled::Closed => {}
        Polled::NotYet => {}
        Polled::Fault => {}
    }
    Ok(())
}

// The places that the items name, at the end.
fn add_all(known: &mut Vec<Known>, items: &[Polled]) -> Result<(), NoMemory>
    ensures { OnOk result
        (known.new.items ≡ known.old.items ++ flat_map place_of_answer items.now) }
{
    for item in items {
        add_named(known, item)?;
    }
    Ok(())
}

impl Places {
    // The places that come, with room for so many more.
    pub(crate) fn of(alloc: Global, coming: &[Polled], room: usize) -> Result<Places, NoMemory>
        ensures { IfOk result (λ s. s ≡ places_of coming.now room) }
    {
        let room = coming.len().checked_add(room).ok_or(NoMemory)?;
        let mut known = Vec::with_capacity(alloc, room)?;
        add_all(&mut known, coming)?;
        known.reserve(room - known.len().min(room))?;
        Ok(Places {
            known,
            room,
            others: 0,
        })
    }

    fn find(&self, place: Place) -> Option<&Known>
        ensures { option_copied result ≡ find (is_of place) self.now.known }
    {
        self.known
            .iter()
            .find(|known| same_place(known.place, place))
    }

    // What it knows of a place.
    pub(crate) fn at(&self, place: Place) -> Known
        ensures { result ≡ known_at self.now place }
    {
        match self.find(place) {
            Some(known) => *known,
            None => {
                let is_full = self.room <= self.known.len();
                Known {
                    place,
                    is_silent: is_full,
                    is_barred: is_full,
                    is_cut: false,
                    faults: self.others,
                }
            }
        }
    }

    // Notes this of a place that it doesn't know.
    fn add(&mut self, new: Known)
        ensures { self.new ≡ with_note_of self.old new None }
    {
        if self.known.len() < self.room {
            self.known.push(new).unwrap();
        } else {
            self.others = new.faults;
        }
    }

    fn position(&self, place: Place) -> Option<usize>
        ensures { result ≡ position (is_of place) self.now.known }
    {
        self.known
            .iter()
            .position(|known| same_place(known.place, place))
    }

    // Notes this of its place, where it knows the place or has room for it.
    #[tactic(auto, using(crate::proofs::PlaceFacts::with_known_some, crate::proofs::PlaceFacts::with_known_none))]
    pub(crate) fn set(&mut self, new: Known)
        ensures { self.new ≡ with_known self.old new }
    {
        match self.position(new.place) {
            Some(at) => self.known[at] = new,
            None => self.add(new),
        }
    }
}
