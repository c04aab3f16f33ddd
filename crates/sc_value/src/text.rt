ghost use Rattle.std.specs.Prelude.{◌≡◌, ◌==◌, ◌≤◌, ◌++◌, ◌∷◌, [], length, IfOk, OnOk, OnErr};

use crate::list::same_items;
use crate::long_text::LongText;
use crate::short_text::{MOST_SHORT, ShortText};
use crate::{CloneIn, NoMemory, Same};
use std::alloc::Global;
use std::marker::Model;

// The most bytes of a text that is compared byte by byte.
const FEW: usize = 12;

/// A text of bytes, which need not be UTF-8. A contract sees its bytes. At most 22 bytes stand in
/// the value itself, so that such a text takes no memory; a longer one has memory that it shares
/// with its copies.
#[derive(Drop)]
pub struct Text {
    bytes: Bytes,
    alloc: Global,
}

/// Where the bytes of a text stand.
#[derive(Drop)]
enum Bytes {
    /// In the value itself.
    Short(ShortText),
    /// In memory, with one owner or more.
    Long(LongText),
}

impl Model for Text {
    ghost use Rattle.std.specs.Prelude.{List, ℕ};
    ghost use Rattle.sc_value.specs.TextBytes.{bytes_of};

    ghost Value = { List ℕ };

    ghost view = { λ t. bytes_of t.bytes };
}

impl Text {
    /// The empty text. It takes no memory.
    pub fn new(alloc: Global) -> Text
        ensures { result ≡ [] }
    {
        Text::short(alloc, &[])
    }

    /// The empty text, with memory for so many bytes: what is put behind it takes no more until it
    /// is longer.
    pub fn with_room(alloc: Global, room: usize) -> Result<Text, NoMemory>
        ensures { IfOk result (λ t. t ≡ []) }
    {
        let long = Vec::with_capacity(alloc, room)?;
        Text::long(alloc, long)
    }

    // The text of at most 22 bytes.
    fn short(alloc: Global, bytes: &[u8]) -> Text
        requires { length bytes.now ≤ 22 }
        ensures { result ≡ bytes.now }
    {
        Text {
            bytes: Bytes::Short(ShortText::new(bytes)),
            alloc,
        }
    }

    // The text of bytes that have memory.
    fn long(alloc: Global, bytes: Vec<u8>) -> Result<Text, NoMemory>
        ensures { IfOk result (λ t. t ≡ bytes.items) }
    {
        let bytes = Bytes::Long(LongText::new(alloc, bytes)?);
        Ok(Text { bytes, alloc })
    }

    /// The text of these bytes, moved and not copied where they are many.
    pub fn from_vec(alloc: Global, bytes: Vec<u8>) -> Result<Text, NoMemory>
        ensures { IfOk result (λ t. t ≡ bytes.items) }
    {
        if bytes.len() <= MOST_SHORT {
            return Ok(Text::short(alloc, bytes.as_slice()));
        }
        Text::long(alloc, bytes)
    }

    /// A copy of these bytes.
    pub fn from_slice(alloc: Global, bytes: &[u8]) -> Result<Text, NoMemory>
        ensures { IfOk result (λ t. t ≡ bytes.now) }
    {
        if bytes.len() <= MOST_SHORT {
            return Ok(Text::short(alloc, bytes));
        }
        let own = Vec::from_slice(alloc, bytes)?;
        Text::long(alloc, own)
    }

    /// The bytes, moved where they are many and nobody else has them, else copied.
    pub fn into_vec(self) -> Result<Vec<u8>, NoMemory>
        ensures { IfOk result (λ bytes. bytes.items ≡ self) }
    {
        let Text { bytes, alloc } = self;
        match bytes {
            Bytes::Short(short) => Ok(Vec::from_slice(alloc, short.as_bytes())?),
            Bytes::Long(long) => long.into_vec(alloc),
        }
    }

    /// The bytes in order.
    pub fn as_bytes(&self) -> &[u8]
        ensures { result.now ≡ self.now }
    {
        match &self.bytes {
            Bytes::Short(short) => short.as_bytes(),
            Bytes::Long(long) => long.as_bytes(),
        }
    }

    /// How many bytes the text has.
    pub fn len(&self) -> usize
        ensures { result ≡ length self.now }
    {
        self.as_bytes().len()
    }

    /// Whether the text has no byte.
    pub fn is_empty(&self) -> bool
        ensures { result ≡ (length self.now == 0) }
    {
        self.as_bytes().is_empty()
    }

    /// Puts bytes at the end, all of them or, for want of memory, none.
    pub fn append(&mut self, bytes: &[u8]) -> Result<(), NoMemory>
        ensures ok { OnOk result (self.new ≡ self.old ++ bytes.now) }
        ensures err { OnErr result (self.new ≡ self.old) }
    {
        let long = match &mut self.bytes {
            Bytes::Long(long) => return long.extend(self.alloc, bytes),
            Bytes::Short(short) => {
                if bytes.len() <= MOST_SHORT - short.len() {
                    short.extend(bytes);
                    return Ok(());
                }
                LongText::joined(self.alloc, short.as_bytes(), bytes)?
            }
        };
        self.bytes = Bytes::Long(long);
        Ok(())
    }

    /// Puts a byte at the end, or for want of memory leaves the text as it is.
    pub fn push(&mut self, byte: u8) -> Result<(), NoMemory>
        ensures ok { OnOk result (self.new ≡ self.old ++ byte ∷ []) }
        ensures err { OnErr result (self.new ≡ self.old) }
    {
        if let Bytes::Short(short) = &mut self.bytes {
            if short.len() < MOST_SHORT {
                short.push(byte);
                return Ok(());
            }
        }
        self.append(&[byte])
    }

    /// Puts a text at the end, moved where this one is empty: all of it or, for want of memory,
    /// nothing.
    pub fn append_text(&mut self, more: Text) -> Result<(), NoMemory>
        ensures ok { OnOk result (self.new ≡ self.old ++ more) }
        ensures err { OnErr result (self.new ≡ self.old) }
    {
        if self.is_empty() {
            *self = more;
            return Ok(());
        }
        self.append(more.as_bytes())
    }
}

impl CloneIn for Text {
    fn clone_in(&self, alloc: Global) -> Result<Text, NoMemory> {
        match &self.bytes {
            Bytes::Short(short) => Ok(Text {
                bytes: Bytes::Short(short.copied()),
                alloc,
            }),
            Bytes::Long(long) => Ok(Text {
                bytes: Bytes::Long(long.copied()?),
                alloc,
            }),
        }
    }
}

impl Same for Text {
    // Few bytes are compared one by one, which takes less than the comparison of many.
    fn same(&self, other: &Text) -> bool {
        let (bytes, others) = (self.as_bytes(), other.as_bytes());
        if bytes.len() <= FEW {
            return same_items(bytes, others);
        }
        bytes == others
    }
}
