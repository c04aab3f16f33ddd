ghost use Rattle.std.specs.Prelude.{◌≡◌, ◌≤◌, ◌<◌, ◌⊎◌, length, take, IfOk, OnErr, is_err, IsTrue, true};
ghost use Rattle.sc_edge.specs.Faults.{Rose, one_more};
ghost use Rattle.sc_edge.specs.Taking.{Takes};
ghost use Rattle.sc_limit.specs.Limits.{all_faults, fitting, is_full, room_after};

use crate::measure::{counted, fitting, is_full, room_after};
use sc_edge::{Failed, Sink};

/// A sink that takes no more than so many bytes, which it hands to another.
#[derive(Drop)]
pub struct LimitedSink<S> {
    inner: S,
    room: Option<u64>,
    faults: u64,
}

impl<S: Sink> LimitedSink<S> {
    /// A sink over this one that takes at most `room` bytes, or any number where `room` is `None`.
    pub fn new(inner: S, room: Option<u64>) -> LimitedSink<S>
        ensures { result ≡ record { inner = inner; room = room; faults = 0 } }
    {
        LimitedSink {
            inner,
            room,
            faults: 0,
        }
    }

    /// The sink that is handed the bytes.
    pub fn inner(&self) -> &S
        ensures { result.now ≡ self.now.inner }
    {
        &self.inner
    }

    /// How many bytes it still takes, `None` where there is no limit.
    pub fn room(&self) -> Option<u64>
        ensures { result ≡ self.now.room }
    {
        self.room
    }

    /// How many puts failed for want of room. Those at which the inner sink failed aren't among
    /// them.
    pub fn refusals(&self) -> u64
        ensures { result ≡ self.now.faults }
    {
        self.faults
    }
}

impl<S: Sink> Sink for LimitedSink<S> {
    ghost took = { λ s. S.took s.inner };

    ghost faults = { λ s. all_faults (S.faults s.inner) s.faults };

    fn put(&mut self, bytes: &[u8]) -> Result<usize, Failed>
        ensures later { all_faults (S.faults self.old.inner) self.old.faults ≤ all_faults
            (S.faults self.new.inner) self.new.faults }
        ensures bound { IfOk result (λ n. (n ≤ length bytes.now) × (0 < length bytes.now → 0 < n)) }
        ensures taken { IfOk result
            (λ n. Takes (S.took self.old.inner) (S.took self.new.inner) (take n bytes.now)) }
        ensures failed { OnErr result
            ((S.took self.new.inner ≡ S.took self.old.inner)
            × Rose (all_faults (S.faults self.old.inner) self.old.faults)
            (all_faults (S.faults self.new.inner) self.new.faults)) }

        // No more is taken than there was room for, and the room falls by what was taken.
        ensures within { IfOk result (λ n. n ≤ length (fitting self.old.room bytes.now)) }
        ensures room { IfOk result (λ n. self.new.room ≡ room_after self.old.room n) }
        ensures same_room { OnErr result (self.new.room ≡ self.old.room) }

        // Where there is no room it fails and leaves the inner sink alone; it fails nowhere else,
        // but where the inner sink does.
        ensures full { is_full self.old.room bytes.now ≡ true
            → IsTrue (is_err result)
            × (self.new ≡ record self.old { faults = one_more self.old.faults }) }
        ensures cause { OnErr result
            ((is_full self.old.room bytes.now ≡ true)
            ⊎ Rose (S.faults self.old.inner) (S.faults self.new.inner)) }
    {
        if is_full(self.room, bytes) {
            self.faults = counted(self.faults);
            return Err(Failed);
        }
        let count = self.inner.put(fitting(self.room, bytes))?;
        self.room = room_after(self.room, count);
        Ok(count)
    }
}
