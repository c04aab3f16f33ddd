ghost use Rattle.std.specs.Prelude.{◌≡◌, ◌<◌, ◌≤◌, ◌-◌, Some, true, false, length, vec_capacity, take, IfOk, option_map};
ghost use Rattle.sc_edge.specs.EdgeCalls.{Answers, Ends, IsNoPoll, IsPart, Leaves, Names, PollBlames, PutTells, Shuts, StaysPolled, Took, cut_after};
ghost use Rattle.sc_edge.specs.EdgeComing.{next_answer};
ghost use Rattle.sc_edge.specs.EdgeMemory.{IsPut, after_close, after_poll, after_put, edge_state, new_edge, next_got, next_put, told_closes};
ghost use Rattle.sc_edge.specs.EdgePlaces.{as_ended, as_failed, as_shut, known_at};
ghost use Rattle.sc_edge.specs.EdgeTaken.{kept_of};
ghost use Rattle.sc_edge.specs.Edges.{CountsOn, IsWithin, Stands, Stays, is_back, polled_of};
ghost use Rattle.sc_edge.specs.Faults.{one_more};
ghost use Rattle.sc_edge.specs.Telling.{Notes};
ghost use Rattle.sc_value.specs.Places.{same_place};

use crate::mem_coming::Coming;
use crate::mem_places::Places;
use crate::mem_puts::{
    Share, faults_of, note_close, note_failure, note_got, note_put, offered, share_of, take_put,
};
use crate::mem_taken::Taken;
use crate::plan::{counted, is_planned};
use crate::{Closing, Edge, Got, Polled, Put};
use sc_value::{List, NoMemory, Place, Text};
use std::alloc::Global;
use std::marker::Model;

/// An edge in memory. Its polls answer a list, and then `Closed`. They pass over what names a place
/// that gives nothing any more, and give a piece in parts where the room is too short for it. Its
/// puts take what a second list says, and then all that there is room for; they fail where they are
/// told to, at a peer's place that failed or was closed, and where no room is left for a piece that
/// isn't empty or for one place more. It tells what came, its failed puts among that, until there
/// is no room for one of these.
#[derive(Drop)]
pub struct MemEdge {
    coming: Coming,
    places: Places,
    taken: Taken,
    tells_coming: bool,
    closes: Vec<Closing>,
    tells_closes: bool,
    room: usize,
    shares: List<Share>,
    failing: List<u64>,
    polls: u64,
    puts: u64,
    faults: u64,
}

impl Model for MemEdge {
    ghost use Rattle.std.specs.Prelude.{◌≤◌, vec_capacity};
    ghost use Rattle.sc_edge.specs.EdgeMemory.{MemoryState, told_closes};

    ghost Value = { MemoryState };

    ghost view = { λ s.
        record {
          coming = s.coming;
          tells = s.tells_coming;
          places = s.places;
          taken = s.taken;
          closes = told_closes s.tells_closes s.closes.items;
          room = s.room;
          shares = s.shares;
          failing = s.failing;
          polls = s.polls;
          puts = s.puts;
          faults = s.faults;
        } };

    ghost invariant = { λ s. s.room ≤ vec_capacity s.closes };
}

impl MemEdge {
    /// An edge to which this comes, whose puts take these shares; the puts whose numbers stand in
    /// `failing` fail, where the first put has number 1. It takes the memory now for `room` bytes,
    /// for `room` closes, for `room` failed puts, for `room` places beside those that come, and for
    /// what comes.
    #[tactic(auto, unfolding(crate::specs::EdgeMemory::told_closes))]
    pub fn new(
        alloc: Global,
        coming: List<Polled>,
        shares: List<Share>,
        failing: List<u64>,
        room: usize,
    ) -> Result<MemEdge, NoMemory>
        ensures { IfOk result (λ s. s ≡ new_edge coming shares failing room) }
    {
        let places = Places::of(alloc, coming.as_slice(), room)?;
        let coming = Coming::new(alloc, coming, room)?;
        let taken = Taken::new(alloc, room)?;
        let closes = Vec::with_capacity(alloc, room)?;
        Ok(MemEdge {
            coming,
            places,
            taken,
            tells_coming: true,
            closes,
            tells_closes: true,
            room,
            shares,
            failing,
            polls: 0,
            puts: 0,
            faults: 0,
        })
    }

    /// All bytes that a place took, in order.
    pub fn took(&self, alloc: Global, place: Place) -> Result<Text, NoMemory>
        ensures { IfOk result (λ bytes. bytes ≡ kept_of place self.now.taken.kept) }
    {
        self.taken.of(alloc, place)
    }

    /// Its closes, each with the number of polls before it; `None` once one found no room.
    #[tactic(auto, unfolding(crate::specs::EdgeMemory::told_closes))]
    pub fn closes(&self) -> Option<&[Closing]>
        ensures { option_map (λ closes. closes.now) result ≡ self.now.closes }
    {
        if self.tells_closes {
            Some(self.closes.as_slice())
        } else {
            None
        }
    }

    /// How often it was polled.
    pub fn polls(&self) -> u64
        ensures { result ≡ self.now.polls }
    {
        self.polls
    }

    /// How many faults of its listener there were.
    pub fn faults(&self) -> u64
        ensures { result ≡ self.now.faults }
    {
        self.faults
    }

    /// How many faults of a place there were. The places that found no room are counted together.
    pub fn faults_at(&self, place: Place) -> u64
        ensures { result ≡ (known_at self.now.places place).faults }
    {
        self.places.at(place).faults
    }

    fn poll_next(&mut self, room: &mut [u8]) -> Got
        requires { 0 < length room.old }
        ensures got { result ≡ next_got self.old (length room.old) }
        ensures len { length room.new ≡ length room.old }
        ensures bytes { polled_of result room.new
            ≡ next_answer self.old.places self.old.coming (length room.old) }
        ensures after { self.new ≡ after_poll self.old (length room.old) }
    {
        self.polls = counted(self.polls);
        let got = self.coming.poll(&self.places, room);
        note_got(&mut self.places, got);
        self.faults = faults_of(self.faults, got);
        got
    }

    fn choose(&self, to: Place, len: usize) -> Put
        ensures put { result ≡ next_put self.now to len }
        ensures fits { IsPut result len (self.now.taken.room - length self.now.taken.kept) }
    {
        if is_planned(self.failing.as_slice(), counted(self.puts)) || self.places.at(to).is_barred {
            return Put::Failed;
        }
        offered(
            share_of(self.shares.as_slice(), self.puts),
            self.taken.left(),
            len,
        )
    }

    fn put_next(&mut self, to: Place, bytes: &[u8]) -> Put
        ensures put { result ≡ next_put self.old to (length bytes.now) }
        ensures fits { IsPut result (length bytes.now)
            (self.old.taken.room - length self.old.taken.kept) }
        ensures after { self.new ≡ after_put self.old to bytes.now }
    {
        let put = self.choose(to, bytes.len());
        let known = self.places.at(to);
        take_put(&mut self.taken, to, bytes, put);
        note_put(&mut self.places, known, put, bytes.len());
        note_failure(&mut self.coming, &mut self.tells_coming, to, put);
        self.puts = counted(self.puts);
        put
    }

    fn close_next(&mut self, at: Place)
        ensures { self.new ≡ after_close self.old at }
    {
        let polls = self.polls;
        self.places.set(self.places.at(at).shut());
        note_close(
            &mut self.closes,
            &mut self.tells_closes,
            self.room,
            Closing { place: at, polls },
        );
    }
}

impl Edge for MemEdge {
    ghost use Rattle.sc_edge.specs.EdgeMemory.{edge_state};

    ghost state = { edge_state };

    fn poll(&mut self, room: &mut [u8]) -> Got
        requires { 0 < length room.old }
        ensures polls { (edge_state self.new).polls ≡ one_more (edge_state self.old).polls }
        ensures later { CountsOn (edge_state self.old) (edge_state self.new) }
        ensures bound { IsWithin result (length room.new) }
        ensures blames { PollBlames (edge_state self.old) (edge_state self.new) result }
        ensures told { Answers (edge_state self.old) (edge_state self.new) result room.new }
        ensures ended { Ends (edge_state self.old) (edge_state self.new) result }
        ensures named { Names (edge_state self.old) (edge_state self.new) result }
        ensures stays { (place : Place) → Stays (edge_state self.old) (edge_state self.new) place }
        ensures stands { (place : Place)
            → Stands (edge_state self.old) (edge_state self.new) place }
        ensures closes { (edge_state self.new).closes ≡ (edge_state self.old).closes }

        // It answers the next item that it doesn't pass over.
        ensures got { result ≡ next_got self.old (length room.old) }
        ensures after { self.new ≡ after_poll self.old (length room.old) }
    {
        self.poll_next(room)
    }

    fn put(&mut self, to: Place, bytes: &[u8]) -> Put
        ensures later { CountsOn (edge_state self.old) (edge_state self.new) }
        ensures bound { IsPart result (length bytes.now) }
        ensures barred { (edge_state self.old).is_barred to ≡ true → result ≡ Put.Failed }
        ensures took { Took (edge_state self.old) (edge_state self.new) to bytes.now result }
        ensures cut { is_back to ≡ false
            → (edge_state self.new).is_cut to
            ≡ cut_after ((edge_state self.old).is_cut to) result (length bytes.now) }
        ensures leaves { Leaves (edge_state self.old) (edge_state self.new) to result }
        ensures stays { (place : Place) → same_place to place ≡ false
            → Stays (edge_state self.old) (edge_state self.new) place }
        ensures stands { (place : Place) → same_place to place ≡ false
            → Stands (edge_state self.old) (edge_state self.new) place }
        ensures polled { IsNoPoll (edge_state self.old) (edge_state self.new) }
        ensures tells { PutTells (edge_state self.old) (edge_state self.new) to result }
        ensures closes { (edge_state self.new).closes ≡ (edge_state self.old).closes }

        // It takes what the list of shares says.
        ensures put { result ≡ next_put self.old to (length bytes.now) }
        ensures after { self.new ≡ after_put self.old to bytes.now }
    {
        self.put_next(to, bytes)
    }

    fn close(&mut self, at: Place)
        ensures later { CountsOn (edge_state self.old) (edge_state self.new) }
        ensures shut { Shuts (edge_state self.old) (edge_state self.new) at }
        ensures stays { (place : Place) → Stays (edge_state self.old) (edge_state self.new) place }
        ensures stands { (place : Place)
            → Stands (edge_state self.old) (edge_state self.new) place }
        ensures polled { StaysPolled (edge_state self.old) (edge_state self.new) }
        ensures closes { Notes (edge_state self.old).closes (edge_state self.new).closes
            (record { place = at; polls = (edge_state self.old).polls }) }
        ensures after { self.new ≡ after_close self.old at }
    {
        self.close_next(at);
    }

    fn rest(&mut self, _ms: u64)
        ensures same { edge_state self.new ≡ edge_state self.old }
        ensures after { self.new ≡ self.old }
    {}
}
