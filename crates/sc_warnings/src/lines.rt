//! The lines of warnings.

use sc_value::{NoMemory, Text, write_plain, write_u64};

/// Appends a line: what it is about, and what there is to say.
pub fn write_line(about: &[u8], words: &[u8], out: &mut Text) -> Result<(), NoMemory> {
    write_about(about, out)?;
    out.append(words)?;
    out.append(b"\n")
}

/// Appends a line of which a text in quotes is the beginning.
pub fn write_quoted(
    about: &[u8],
    text: &[u8],
    words: &[u8],
    out: &mut Text,
) -> Result<(), NoMemory> {
    write_about(about, out)?;
    out.append(b"\"")?;
    write_plain(text, out)?;
    out.append(b"\" ")?;
    out.append(words)?;
    out.append(b"\n")
}

/// Appends a line about a line of the table's text.
pub fn write_numbered(number: u64, words: &[u8], out: &mut Text) -> Result<(), NoMemory> {
    out.append(b"warning: line ")?;
    write_u64(number, out)?;
    out.append(b": ")?;
    out.append(words)?;
    out.append(b"\n")
}

/// Appends a line on how many parameters there are, and how many of them are used.
pub fn write_counts(about: &[u8], count: usize, most: u32, out: &mut Text) -> Result<(), NoMemory> {
    write_about(about, out)?;
    write_u64(count as u64, out)?;
    out.append(b" parameters, of which ")?;
    write_u64(u64::from(most), out)?;
    out.append(b" are used\n")
}

fn write_about(about: &[u8], out: &mut Text) -> Result<(), NoMemory> {
    out.append(b"warning: ")?;
    write_plain(about, out)?;
    out.append(b": ")
}
