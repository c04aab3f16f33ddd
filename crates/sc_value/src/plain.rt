//! Bytes of any kind, written for a reader.

use crate::{NoMemory, Text};

/// Puts bytes at the end of a text, with `?` for each that isn't a printable character of ASCII.
/// For want of memory some of them may stand there.
pub fn write_plain(bytes: &[u8], out: &mut Text) -> Result<(), NoMemory> {
    for byte in bytes {
        out.push(plain(*byte))?;
    }
    Ok(())
}

fn plain(byte: u8) -> u8 {
    if (32..=126).contains(&byte) {
        byte
    } else {
        b'?'
    }
}
