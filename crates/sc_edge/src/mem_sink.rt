ghost use Rattle.std.specs.Prelude.{◌≡◌, ◌≤◌, ◌<◌, ◌+◌, ◌++◌, [], Some, take, length, IfOk, IsOk, OnErr, is_err, vec_len, vec_capacity};
ghost use Rattle.sc_edge.specs.Faults.{Rose};
ghost use Rattle.sc_edge.specs.MemorySink.{after_failure, after_put, refuses, share};
ghost use Rattle.sc_edge.specs.Taking.{Takes};

use crate::plan::{counted, is_planned};
use crate::{Failed, Sink};
use sc_value::{List, NoMemory};
use std::alloc::Global;
use std::marker::Model;

/// A sink in memory. A put fails where it is told to, and where no room is left for a piece that
/// isn't empty.
#[derive(Drop)]
pub struct MemSink {
    kept: Vec<u8>,
    room: usize,
    most: usize,
    failing: List<u64>,
    puts: u64,
    faults: u64,
}

impl Model for MemSink {
    ghost use Rattle.std.specs.Prelude.{◌≤◌, ◌<◌, vec_len, vec_capacity};
    ghost use Rattle.sc_edge.specs.MemorySink.{SinkState};

    ghost Value = { SinkState };

    ghost view = { λ s.
        record {
          kept = s.kept.items;
          room = s.room;
          most = s.most;
          failing = s.failing;
          puts = s.puts;
          faults = s.faults;
        } };

    ghost invariant = { λ s.
        (vec_len s.kept ≤ s.room) × (s.room ≤ vec_capacity s.kept) × (0 < s.most) };
}

impl MemSink {
    /// An empty sink that keeps at most `room` bytes, for which it takes the memory now. The puts
    /// whose numbers stand in `failing` fail, where the first put has number 1. A put takes all
    /// that there is room for.
    pub fn new(alloc: Global, room: usize, failing: List<u64>) -> Result<MemSink, NoMemory>
        ensures empty { room ≡ 0 → IsOk result }
        ensures made { IfOk result
            (λ s.
            s
            ≡ record {
              kept = [];
              room = room;
              most = usize.MAX;
              failing = failing;
              puts = 0;
              faults = 0;
            }) }
    {
        let kept = Vec::with_capacity(alloc, room)?;
        Ok(MemSink {
            kept,
            room,
            most: usize::MAX,
            failing,
            puts: 0,
            faults: 0,
        })
    }

    /// The sink whose puts take at most `most` bytes each, at least 1.
    pub fn with_most(mut self, most: usize) -> MemSink
        requires { 0 < most }
        ensures { result ≡ record self { most = most } }
    {
        self.most = most;
        self
    }

    /// All bytes that it took, in order.
    pub fn bytes(&self) -> &[u8]
        ensures { result.now ≡ self.now.kept }
    {
        self.kept.as_slice()
    }

    /// How many puts failed.
    pub fn faults(&self) -> u64
        ensures { result ≡ self.now.faults }
    {
        self.faults
    }
}

impl Sink for MemSink {
    ghost took = { λ s. Some s.kept };

    ghost faults = { λ s. s.faults };

    fn put(&mut self, bytes: &[u8]) -> Result<usize, Failed>
        ensures later { self.old.faults ≤ self.new.faults }
        ensures bound { IfOk result (λ n. (n ≤ length bytes.now) × (0 < length bytes.now → 0 < n)) }
        ensures taken { IfOk result
            (λ n. Takes (Some self.old.kept) (Some self.new.kept) (take n bytes.now)) }
        ensures failed { OnErr result
            ((Some self.new.kept ≡ Some self.old.kept) × Rose self.old.faults self.new.faults) }

        // It fails exactly where it is told to, or no room is left for a piece that isn't empty.
        ensures refused { is_err result ≡ refuses self.old (length bytes.now) }
        ensures count { IfOk result (λ n. n ≡ share self.old (length bytes.now)) }
        ensures ok { IfOk result (λ n. self.new ≡ after_put self.old (take n bytes.now)) }
        ensures err { OnErr result (self.new ≡ after_failure self.old) }
    {
        self.puts = counted(self.puts);
        let is_full = !bytes.is_empty() && self.room <= self.kept.len();
        if is_planned(self.failing.as_slice(), self.puts) || is_full {
            self.faults = counted(self.faults);
            return Err(Failed);
        }
        let count = bytes.len().min(self.most).min(self.room - self.kept.len());
        keep(&mut self.kept, &bytes[..count]);
        Ok(count)
    }
}

// Puts bytes at the end, for which there is room.
fn keep(kept: &mut Vec<u8>, bytes: &[u8])
    requires { vec_len kept.old + length bytes.now ≤ vec_capacity kept.old }
    ensures items { kept.new.items ≡ kept.old.items ++ bytes.now }
    ensures len { vec_len kept.new ≡ vec_len kept.old + length bytes.now }
    ensures capacity { vec_capacity kept.old ≤ vec_capacity kept.new }
{
    kept.extend_from_slice(bytes).unwrap();
}
