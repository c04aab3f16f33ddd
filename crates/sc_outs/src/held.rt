//! What is left to be put to one place.

ghost use Rattle.std.specs.Prelude.{◌≡◌, ◌≤◌, ◌++◌, drop, length, OnOk, OnErr};

use sc_value::{NoMemory, Place};
use std::marker::Model;

/// What is left to be put to a place: the bytes from `from` on.
#[derive(Drop)]
pub struct Held {
    place: Place,
    bytes: Vec<u8>,
    from: usize,
}

impl Model for Held {
    ghost use Rattle.std.specs.Prelude.{◌≤◌, drop, length};
    ghost use Rattle.sc_outs.specs.Owing.{Owed};

    ghost Value = { Owed };

    ghost view = { λ s. record { place = s.place; left = drop s.from s.bytes.items } };

    ghost invariant = { λ s. s.from ≤ length s.bytes.items };
}

impl Held {
    /// All of these bytes are left.
    pub fn new(place: Place, bytes: Vec<u8>) -> Held
        ensures { result ≡ record { place = place; left = bytes.items } }
    {
        Held {
            place,
            bytes,
            from: 0,
        }
    }

    /// The place.
    pub fn place(&self) -> Place
        ensures { result ≡ self.now.place }
    {
        self.place
    }

    /// The bytes that are left.
    pub fn left(&self) -> &[u8]
        ensures { result.now ≡ self.now.left }
    {
        &self.bytes[self.from..]
    }

    /// Puts bytes behind what is left, all of them or, for want of memory, none.
    pub fn append(&mut self, text: &[u8]) -> Result<(), NoMemory>
        ensures ok { OnOk result (self.new ≡ record self.old { left = self.old.left ++ text.now }) }
        ensures err { OnErr result (self.new ≡ self.old) }
    {
        self.bytes.extend_from_slice(text)?;
        Ok(())
    }

    /// Lets go of so many bytes from the front.
    pub fn take(&mut self, count: usize)
        requires { count ≤ length self.old.left }
        ensures { self.new ≡ record self.old { left = drop count self.old.left } }
    {
        self.from = let_go(&mut self.bytes, self.from + count);
    }
}

// Bytes before `from` are let go of once they are half of all. How many are still there.
fn let_go(bytes: &mut Vec<u8>, from: usize) -> usize
    requires { from ≤ length bytes.old.items }
    ensures exact { drop result bytes.new.items ≡ drop from bytes.old.items }
    ensures within { result ≤ length bytes.new.items }
{
    if from < bytes.len() - from {
        return from;
    }
    bytes.drain(..from);
    0
}
