//! What the bytes of a row say: a message, or the headers of a text that is none.

use sc_stream::{Heard, Stream};
use sc_terms::Bad;
use sc_value::{Answerable, Boxed, NoMemory, Text};
use std::alloc::Global;

/// What stands at the front of some bytes.
fn heard_in(alloc: Global, bytes: &[u8]) -> Result<Heard, NoMemory> {
    let mut stream = Stream::new(alloc);
    stream.feed(bytes)?;
    Ok(stream.next())
}

/// The headers that these lines are, where a request with them can be answered: they are put into
/// one whose Content-Length is no number.
pub fn heads_in(alloc: Global, lines: &[u8]) -> Result<Option<Boxed<Answerable>>, NoMemory> {
    if lines.is_empty() {
        return Ok(None);
    }
    let mut text = Text::new(alloc);
    text.append(b"OPTIONS sip:a SIP/2.0\r\n")?;
    text.append(lines)?;
    text.append(b"Content-Length: a\r\n\r\n")?;
    match heard_in(alloc, text.as_bytes())? {
        Heard::Bad(bad) => Ok(heads_of(bad)),
        _ => Ok(None),
    }
}

fn heads_of(bad: Bad) -> Option<Boxed<Answerable>> {
    let Bad {
        at: _,
        kind: _,
        heads,
    } = bad;
    heads
}
