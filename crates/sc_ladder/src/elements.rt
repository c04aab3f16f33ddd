//! The elements of an SVG.

use sc_value::{NoMemory, Text, write_u64};

/// A place in the picture, in pixels from its upper left corner.
#[derive(Clone, Copy, Debug, PartialEq, Eq)]
pub struct Point {
    pub x: usize,
    pub y: usize,
}

/// Appends a text that begins at a place.
pub fn write_words(at: Point, class: &[u8], words: &[u8], out: &mut Text) -> Result<(), NoMemory> {
    out.append(b"<text")?;
    write_number(b"x", at.x, out)?;
    write_number(b"y", at.y, out)?;
    write_class(class, out)?;
    out.append(b">")?;
    write_escaped(words, out)?;
    out.append(b"</text>\n")
}

/// Appends a line from a place to another one.
pub fn write_line(from: Point, to: Point, class: &[u8], out: &mut Text) -> Result<(), NoMemory> {
    out.append(b"<line")?;
    write_number(b"x1", from.x, out)?;
    write_number(b"y1", from.y, out)?;
    write_number(b"x2", to.x, out)?;
    write_number(b"y2", to.y, out)?;
    write_class(class, out)?;
    out.append(b"/>\n")
}

/// Appends a box with its upper left corner at a place, so wide and so high.
pub fn write_box(
    at: Point,
    width: usize,
    height: usize,
    class: &[u8],
    out: &mut Text,
) -> Result<(), NoMemory> {
    out.append(b"<rect")?;
    write_number(b"x", at.x, out)?;
    write_number(b"y", at.y, out)?;
    write_size(width, height, out)?;
    write_class(class, out)?;
    out.append(b"/>\n")
}

/// Appends the attributes of a width and a height.
pub fn write_size(width: usize, height: usize, out: &mut Text) -> Result<(), NoMemory> {
    write_number(b"width", width, out)?;
    write_number(b"height", height, out)
}

fn write_number(name: &[u8], number: usize, out: &mut Text) -> Result<(), NoMemory> {
    out.append(b" ")?;
    out.append(name)?;
    out.append(b"=\"")?;
    write_u64(number as u64, out)?;
    out.append(b"\"")
}

fn write_class(class: &[u8], out: &mut Text) -> Result<(), NoMemory> {
    out.append(b" class=\"")?;
    out.append(class)?;
    out.append(b"\"")
}

/// Appends bytes as character data (XML 1.0 section 2.4).
fn write_escaped(bytes: &[u8], out: &mut Text) -> Result<(), NoMemory> {
    for byte in bytes {
        write_character(*byte, out)?;
    }
    Ok(())
}

fn write_character(byte: u8, out: &mut Text) -> Result<(), NoMemory> {
    match byte {
        b'&' => out.append(b"&amp;"),
        b'<' => out.append(b"&lt;"),
        b'>' => out.append(b"&gt;"),
        _ => out.append(&[byte]),
    }
}
