//! A line as it is typed.

use sc_value::{NoMemory, Text};
use std::alloc::Global;

/// So many bytes of a line are kept. One that is longer asks for nothing, whatever follows.
const LONGEST: usize = 64;

/// The line that comes, byte by byte.
#[derive(Drop)]
pub struct Typed {
    line: Text,
}

impl Typed {
    pub fn new(alloc: Global) -> Typed {
        Typed {
            line: Text::new(alloc),
        }
    }

    /// Takes a byte: whether it is the line feed that ends the line.
    ///
    /// # Errors
    ///
    /// `NoMemory` for want of memory. The byte isn't taken.
    pub fn take(&mut self, byte: u8) -> Result<bool, NoMemory> {
        if byte == b'\n' {
            return Ok(true);
        }
        if self.line.as_bytes().len() < LONGEST {
            self.line.append(&[byte])?;
        }
        Ok(false)
    }

    /// The line so far.
    pub fn line(&self) -> &[u8] {
        self.line.as_bytes()
    }

    /// Begins the next line.
    pub fn clear(&mut self, alloc: Global) {
        self.line = Text::new(alloc);
    }
}
