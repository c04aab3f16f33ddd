ghost use Rattle.std.specs.Prelude.{◌≡◌, ◌≤◌, ◌+◌, ◌-◌, ◌++◌, [], length, IfOk, OnOk, vec_len, vec_capacity};
ghost use Rattle.sc_edge.specs.EdgeTaken.{byte_for, bytes_of_place, kept_of};

use sc_value::{NoMemory, Place, Text, same_place};
use std::alloc::Global;
use std::marker::Model;

// A byte that a place took.
#[derive(Clone, Copy)]
pub struct Kept {
    // The place.
    pub place: Place,
    // The byte.
    pub byte: u8,
}

// What places took, for which there is the memory.
#[derive(Drop)]
pub struct Taken {
    kept: Vec<Kept>,
    room: usize,
}

impl Model for Taken {
    ghost use Rattle.std.specs.Prelude.{◌≤◌, vec_len, vec_capacity};
    ghost use Rattle.sc_edge.specs.EdgeTaken.{TakenState};

    ghost Value = { TakenState };

    ghost view = { λ s. record { kept = s.kept.items; room = s.room } };

    ghost invariant = { λ s. (vec_len s.kept ≤ s.room) × (s.room ≤ vec_capacity s.kept) };
}

// Puts bytes of a place at the end, for which there is room.
fn keep(kept: &mut Vec<Kept>, place: Place, bytes: &[u8])
    requires { vec_len kept.old + length bytes.now ≤ vec_capacity kept.old }
    ensures items { kept.new.items ≡ kept.old.items ++ bytes_of_place place bytes.now }
    ensures len { vec_len kept.new ≡ vec_len kept.old + length bytes.now }
    ensures capacity { vec_capacity kept.old ≤ vec_capacity kept.new }
{
    for byte in bytes {
        kept.push(Kept { place, byte: *byte }).unwrap();
    }
}

// Puts the byte at the end, if it is one of this place.
fn add_byte(bytes: &mut Text, kept: &Kept, place: Place) -> Result<(), NoMemory>
    ensures { OnOk result (bytes.new ≡ bytes.old ++ byte_for place kept.now) }
{
    if same_place(kept.place, place) {
        bytes.append(&[kept.byte])?;
    }
    Ok(())
}

// Puts the bytes of this place at the end.
fn add_bytes(bytes: &mut Text, kept: &[Kept], place: Place) -> Result<(), NoMemory>
    ensures { OnOk result (bytes.new ≡ bytes.old ++ kept_of place kept.now) }
{
    for kept in kept {
        add_byte(bytes, kept, place)?;
    }
    Ok(())
}

impl Taken {
    // Room for so many bytes.
    pub(crate) fn new(alloc: Global, room: usize) -> Result<Taken, NoMemory>
        ensures { IfOk result (λ s. s ≡ record { kept = []; room = room }) }
    {
        let kept = Vec::with_capacity(alloc, room)?;
        Ok(Taken { kept, room })
    }

    // For how many bytes there is room.
    pub(crate) fn left(&self) -> usize
        ensures { result ≡ self.now.room - length self.now.kept }
    {
        self.room - self.kept.len()
    }

    // Takes bytes of a place, for which there is room.
    pub(crate) fn take(&mut self, place: Place, bytes: &[u8])
        requires { length bytes.now ≤ self.old.room - length self.old.kept }
        ensures { self.new
            ≡ record self.old { kept = self.old.kept ++ bytes_of_place place bytes.now } }
    {
        keep(&mut self.kept, place, bytes);
    }

    // All bytes of this place, in order.
    pub(crate) fn of(&self, alloc: Global, place: Place) -> Result<Text, NoMemory>
        ensures { IfOk result (λ bytes. bytes ≡ kept_of place self.now.kept) }
    {
        let mut bytes = Text::new(alloc);
        add_bytes(&mut bytes, self.kept.as_slice(), place)?;
        Ok(bytes)
    }
}
