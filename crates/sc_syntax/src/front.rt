use sc_value::{Answerable, Message};

/// What the bytes of a stream begin with, behind the line ends that stand before a message (RFC
/// 3261 sections 7.5 and 18.3). Places and lengths are in bytes from the message's first one.
#[derive(Drop)]
pub enum Front {
    /// A message that more bytes may end.
    Open,
    /// A message of so many bytes, at most 65,535.
    Whole {
        len: usize,
        message: Message,
    },
    /// A head that spells none: the place and the kind of its first fault, and what an answer needs
    /// where the head has it.
    Bad {
        at: usize,
        kind: u8,
        heads: Option<Answerable>,
    },
    /// A message of more than 65,535 bytes.
    Long,
}
