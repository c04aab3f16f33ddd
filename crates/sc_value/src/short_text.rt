ghost use Rattle.std.specs.Prelude.{◌≡◌, ◌<◌, ◌≤◌, ◌+◌, ◌++◌, ◌∷◌, [], length};

use std::marker::Model;

/// The most bytes of a text that stand in the text itself.
pub const MOST_SHORT: usize = 22;

/// A text of at most 22 bytes, which stand in the value itself. A contract sees its bytes.
#[derive(Drop)]
pub struct ShortText {
    len: u8,
    bytes: [u8; 22],
}

impl Model for ShortText {
    ghost use Rattle.std.specs.Prelude.{List, ℕ, ◌≤◌, take, length};

    ghost Value = { List ℕ };

    ghost view = { λ t. take t.len t.bytes };

    ghost invariant = { λ t. t.len ≤ 22 };
}

impl ShortText {
    /// The text of these bytes.
    pub fn new(bytes: &[u8]) -> ShortText
        requires { length bytes.now ≤ 22 }
        ensures { result ≡ bytes.now }
    {
        let mut own = [0; 22];
        own[..bytes.len()].copy_from_slice(bytes);
        ShortText {
            len: bytes.len() as u8,
            bytes: own,
        }
    }

    /// The bytes in order.
    pub fn as_bytes(&self) -> &[u8]
        ensures value { result.now ≡ self.now }
        ensures fits { length result.now ≤ 22 }
    {
        &self.bytes[..self.len as usize]
    }

    /// The same bytes once more.
    pub fn copied(&self) -> ShortText
        ensures { result ≡ self.now }
    {
        ShortText {
            len: self.len,
            bytes: self.bytes,
        }
    }

    /// How many bytes it has.
    pub fn len(&self) -> usize
        ensures value { result ≡ length self.now }
        ensures fits { result ≤ 22 }
    {
        self.len as usize
    }

    /// Puts these bytes at the end.
    pub fn extend(&mut self, more: &[u8])
        requires { length self.old + length more.now ≤ 22 }
        ensures { self.new ≡ self.old ++ more.now }
    {
        let len = self.len as usize;
        let end = len + more.len();
        self.bytes[len..end].copy_from_slice(more);
        self.len = end as u8;
    }

    /// Puts a byte at the end.
    pub fn push(&mut self, byte: u8)
        requires { length self.old < 22 }
        ensures { self.new ≡ self.old ++ byte ∷ [] }
    {
        self.bytes[self.len as usize] = byte;
        self.len += 1;
    }
}
