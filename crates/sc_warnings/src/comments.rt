//! Comments of a table's text that take the next line with them. A line that ends with a backslash
//! is joined with the next one before all else, comments too.

use crate::lines::write_numbered;
use sc_value::{NoMemory, Text};

/// How far a text is read.
#[derive(Clone, Copy, Debug, PartialEq, Eq)]
struct Reading {
    /// The number of the line, from 1.
    number: u64,
    /// Whether the line is joined to a comment.
    joined: bool,
    /// Whether the line is joined to one that is no comment.
    follows: bool,
    /// The first byte of the line past blanks.
    first: Option<u8>,
    /// The last byte of the line, a CR not counted.
    last: Option<u8>,
}

/// Appends a line for each line that is joined to a comment and is none itself.
pub fn write_comments(table: &[u8], out: &mut Text) -> Result<(), NoMemory> {
    let mut reading = Reading {
        number: 1,
        joined: false,
        follows: false,
        first: None,
        last: None,
    };
    for byte in table {
        if *byte == b'\n' {
            write_swallowed(reading, out)?;
            reading = next_line(reading);
        } else {
            reading = with_byte(reading, *byte);
        }
    }
    write_swallowed(reading, out)
}

fn write_swallowed(reading: Reading, out: &mut Text) -> Result<(), NoMemory> {
    if !reading.joined || is_comment(reading.first) {
        return Ok(());
    }
    write_numbered(
        reading.number,
        b"it belongs to the comment above it, which ends with a backslash",
        out,
    )
}

/// Whether a line that begins so is a comment.
fn is_comment(first: Option<u8>) -> bool {
    match first {
        Some(byte) => byte == b'#' || byte == b'!',
        None => true,
    }
}

/// The beginning of the next line.
fn next_line(reading: Reading) -> Reading {
    let goes_on = reading.last == Some(b'\\');
    let in_comment = reading.joined || !reading.follows && is_comment(reading.first);
    Reading {
        number: reading.number.saturating_add(1),
        joined: goes_on && in_comment,
        follows: goes_on && !in_comment,
        first: None,
        last: None,
    }
}

fn with_byte(reading: Reading, byte: u8) -> Reading {
    match byte {
        b'\r' => reading,
        b' ' | b'\t' => Reading {
            last: Some(byte),
            ..reading
        },
        _ => Reading {
            first: Some(reading.first.unwrap_or(byte)),
            last: Some(byte),
            ..reading
        },
    }
}
