ghost use Rattle.std.specs.Prelude.{◌≡◌, None};

use sc_edge::{Failed, Sink};
use std::io::Write;
use std::marker::Model;

/// A sink over a writer, as a file. What it took is not told. A put that fails, or of which nothing
/// is written, is a fault.
#[derive(Drop)]
pub struct WriteSink<W> {
    writer: W,
    faults: u64,
}

// A contract sees its count of faults.
impl<W> Model for WriteSink<W> {
    ghost use Rattle.std.specs.Prelude.{ℕ};

    ghost Value = { ℕ };

    ghost view = { λ s. s.faults };
}

impl<W: Write> WriteSink<W> {
    /// A sink over this writer.
    pub fn new(writer: W) -> WriteSink<W>
        ensures { result ≡ 0 }
    {
        WriteSink { writer, faults: 0 }
    }
}

impl<W: Write> Sink for WriteSink<W> {
    ghost took = { λ _. None };

    ghost faults = { λ s. s };

    fn put(&mut self, bytes: &[u8]) -> Result<usize, Failed> {
        match self.writer.write(bytes) {
            Ok(count) if count > 0 || bytes.is_empty() => Ok(count),
            _ => {
                self.faults = self.faults.saturating_add(1);
                Err(Failed)
            }
        }
    }
}
