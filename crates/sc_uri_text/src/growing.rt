//! What grows by bytes that are put at its end.

ghost use Rattle.std.specs.Prelude.{◌≡◌, ◌++◌, ◌∷◌, [], ℕ, List, decimal, OnOk};

use itoa::Buffer;
use sc_value::{NoMemory, Text};

/// A text or a list of bytes, which grows at its end. A contract sees its bytes.
pub trait Growing {
    // its bytes in order
    ghost bytes: { Self → List ℕ };

    /// Puts these bytes at the end. The one error is want of memory.
    fn put_bytes(&mut self, more: &[u8]) -> Result<(), NoMemory>
        ensures { OnOk result (bytes self.new ≡ bytes self.old ++ more.now) };

    /// Puts this byte at the end. The one error is want of memory.
    fn put_one(&mut self, byte: u8) -> Result<(), NoMemory>
        ensures { OnOk result (bytes self.new ≡ bytes self.old ++ byte ∷ []) };
}

impl Growing for Text {
    ghost bytes = { λ text. text };

    fn put_bytes(&mut self, more: &[u8]) -> Result<(), NoMemory> {
        self.append(more)
    }

    fn put_one(&mut self, byte: u8) -> Result<(), NoMemory> {
        self.append(&[byte])
    }
}

impl Growing for Vec<u8> {
    ghost bytes = { λ list. list.items };

    fn put_bytes(&mut self, more: &[u8]) -> Result<(), NoMemory> {
        self.extend_from_slice(more)?;
        Ok(())
    }

    fn put_one(&mut self, byte: u8) -> Result<(), NoMemory> {
        self.push(byte)?;
        Ok(())
    }
}

/// Puts the decimal of a number at the end, without leading zeros.
pub fn put_number<G: Growing>(number: u64, out: &mut G) -> Result<(), NoMemory>
    ensures { OnOk result (G.bytes out.new ≡ G.bytes out.old ++ decimal number) }
{
    let mut buffer = Buffer::new();
    out.put_bytes(buffer.format(number).as_bytes())
}
