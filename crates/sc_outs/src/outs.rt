//! What is left to be put to each place.

ghost use Rattle.std.specs.Prelude.{◌≡◌, ◌==◌, [], true, false, not, length, option_map, slice_get, OnOk, OnErr};
ghost use Rattle.sc_value.specs.declared.ids.Place.{Place};
ghost use Rattle.sc_edge.specs.Edges.{CountsOn};
ghost use Rattle.sc_edge.specs.EdgeCalls.{IsNoPoll};
ghost use Rattle.sc_edge.specs.Faults.{Rose};
ghost use Rattle.sc_outs.specs.Owing.{IsLostAt, IsOwed, Tried, left_at, nothing};

use crate::entries::{drop_left, owe_text, place_of};
use crate::gone::Gone;
use crate::held::Held;
use crate::putting::put_left;
use sc_edge::{Edge, Put};
use sc_message_text::bytes_of;
use sc_value::{List, Message, NoMemory, Place, Sent};
use std::alloc::Global;
use std::marker::Model;

/// What is left to be put to each place, and which peers' connections failed. Each place to which
/// something is left has one entry, which goes with its last byte.
#[derive(Drop)]
pub struct Outs {
    outs: List<Held>,
    gone: Gone,
}

impl Model for Outs {
    ghost use Rattle.sc_outs.specs.Owing.{Distinct, Owing};

    ghost Value = { Owing };

    ghost view = { λ s. record { outs = s.outs; gone = s.gone } };

    ghost invariant = { λ s. Distinct s.outs };
}

impl Outs {
    /// Nothing is left, and no connection failed. It takes no memory.
    pub fn new(alloc: Global) -> Outs
        ensures { result ≡ nothing }
    {
        Outs {
            outs: List::new(alloc),
            gone: Gone::new(alloc),
        }
    }

    /// How many entries there are.
    pub fn len(&self) -> usize
        ensures { result ≡ length self.now.outs }
    {
        self.outs.len()
    }

    /// Whether there is no entry, so that nothing is left of any place.
    pub fn is_empty(&self) -> bool
        ensures exact { result ≡ (length self.now.outs == 0) }
        ensures none { result ≡ true → (place : Place) → left_at self.now place ≡ [] }
    {
        self.outs.is_empty()
    }

    /// The place of the entry of this number, from 0; none past the last.
    pub fn place_at(&self, at: usize) -> Option<Place>
        ensures { result ≡ option_map (λ owed. owed.place) (slice_get self.now.outs at) }
    {
        self.outs.as_slice().get(at).map(|held| held.place())
    }

    /// Whether something is left of the place.
    pub fn has_left(&self, place: Place) -> bool
        ensures exact { result ≡ not (length (left_at self.now place) == 0) }
        ensures none { result ≡ false → left_at self.now place ≡ [] }
    {
        match place_of(self.outs.as_slice(), place) {
            Some(at) => !self.outs.as_slice()[at].left().is_empty(),
            None => false,
        }
    }

    /// Puts the written form of a message behind what is left of its place. A peer's connection
    /// that failed gets none. The one error is want of memory, and then all is as before.
    pub fn owe(&mut self, alloc: Global, sent: Sent) -> Result<(), NoMemory>
        ensures ok { OnOk result (IsOwed sent self.old self.new) }
        ensures err { OnErr result (self.new ≡ self.old) }
    {
        self.owe_message(alloc, sent.place, &sent.message)
    }

    fn owe_message(
        &mut self,
        alloc: Global,
        place: Place,
        message: &Message,
    ) -> Result<(), NoMemory>
        ensures ok { OnOk result
            (IsOwed (record { place = place; message = message.now }) self.old self.new) }
        ensures err { OnErr result (self.new ≡ self.old) }
    {
        if self.gone.has(place) {
            return Ok(());
        }
        let text = bytes_of(alloc, message)?;
        owe_text(&mut self.outs, place, text)
    }

    /// A place failed: what is left of it is dropped, and a peer's connection gets nothing more
    /// from now on. The one error is want of memory, and then all is as before.
    pub fn lose(&mut self, at: Place) -> Result<(), NoMemory>
        ensures ok { OnOk result (IsLostAt at self.old self.new) }
        ensures err { OnErr result (self.new ≡ self.old) }
    {
        self.gone.add(at)?;
        drop_left(&mut self.outs, at);
        Ok(())
    }

    /// Puts all that is left of a place once, and lets go of what the place took. Where nothing is
    /// left of it, the edge isn't asked, and the answer is `NotYet`. Where an entry goes, those
    /// behind it move up by one. A put that failed leaves all as it was, until [`Outs::lose`].
    pub fn put<E: Edge>(&mut self, edge: &mut E, place: Place) -> Put
        ensures tried { Tried (E.state edge.old) (E.state edge.new) place self.old self.new result }
        ensures later { CountsOn (E.state edge.old) (E.state edge.new) }
        ensures polled { IsNoPoll (E.state edge.old) (E.state edge.new) }
        ensures closes { (E.state edge.new).closes ≡ (E.state edge.old).closes }
        ensures failed { result ≡ Put.Failed
            → Rose ((E.state edge.old).faults_at place) ((E.state edge.new).faults_at place) }
    {
        put_left(edge, &mut self.outs, place)
    }
}
