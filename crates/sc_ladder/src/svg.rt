//! A picture as an SVG (version 1.1), without scripts. It is drawn for a light and for a dark
//! sheet.

use crate::boxes::{write_mark, write_moment, write_said};
use crate::columns::{Column, Spot};
use crate::elements::{Point, write_line, write_size, write_words};
use crate::sizes::{LINE, Size, drawn_words, lane_x};
use crate::story::Row;
use sc_value::{NoMemory, Text, write_plain, write_u64};
use std::alloc::Global;

const STYLE: &[u8] = b"\
<title>sipd trace</title>
<style type=\"text/css\">
text { font-family: monospace; font-size: 12px; fill: #1f2328 }
.name { font-weight: bold; text-anchor: middle }
.moment { text-anchor: end; fill: #59636e }
.said { font-weight: bold }
.sheet { fill: #ffffff }
.lane { stroke: #afb8c1 }
.arrow { stroke: #0550ae; stroke-width: 1.5; marker-end: url(#head) }
.head { fill: #0550ae }
.turn { fill: #fff8c5; stroke: #d4a72c }
.cut { stroke: #cf222e; stroke-width: 2 }
@media (prefers-color-scheme: dark) {
text { fill: #e6edf3 }
.moment { fill: #9198a1 }
.sheet { fill: #0d1117 }
.lane { stroke: #3d444d }
.arrow { stroke: #58a6ff }
.head { fill: #58a6ff }
.turn { fill: #272115; stroke: #9e6a03 }
.cut { stroke: #f85149 }
}
</style>
<defs><marker id=\"head\" markerUnits=\"userSpaceOnUse\" markerWidth=\"9\" markerHeight=\"8\" \
refX=\"9\" refY=\"4\" orient=\"auto\"><path class=\"head\" d=\"M0,0 L9,4 L0,8 z\"/></marker></defs>
<rect class=\"sheet\" width=\"100%\" height=\"100%\"/>
<text x=\"70\" y=\"24\" class=\"moment\">ms</text>
";

/// The elements before those of the rows: the sheet, and the columns with their names.
pub fn svg_beginning(alloc: Global, columns: &[Column], size: Size) -> Result<Text, NoMemory> {
    let mut out = Text::new(alloc);
    write_root(size, &mut out)?;
    out.append(STYLE)?;
    for column in columns {
        write_lane(alloc, column, size.floor, &mut out)?;
    }
    Ok(out)
}

fn write_root(size: Size, out: &mut Text) -> Result<(), NoMemory> {
    out.append(b"<?xml version=\"1.0\" encoding=\"UTF-8\"?>\n")?;
    out.append(b"<svg xmlns=\"http://www.w3.org/2000/svg\" version=\"1.1\"")?;
    write_size(size.width, size.height, out)?;
    out.append(b" viewBox=\"0 0 ")?;
    write_u64(size.width as u64, out)?;
    out.append(b" ")?;
    write_u64(size.height as u64, out)?;
    out.append(b"\">\n")
}

/// Appends the line of a column with its name above.
fn write_lane(
    alloc: Global,
    column: &Column,
    floor: usize,
    out: &mut Text,
) -> Result<(), NoMemory> {
    let mut name = Text::new(alloc);
    write_plain(column.name.as_bytes(), &mut name)?;
    write_named(column.spot, name.as_bytes(), floor, out)
}

fn write_named(spot: Spot, name: &[u8], floor: usize, out: &mut Text) -> Result<(), NoMemory> {
    let x = lane_x(spot.lane);
    write_words(
        Point { x, y: 24 },
        b"name",
        &name[..name.len().min(24)],
        out,
    )?;
    write_line(Point { x, y: 34 }, Point { x, y: floor }, b"lane", out)
}

/// The elements of the first row, whose upper edge is at `y`. `last` is the moment of the row
/// before it.
pub fn svg_row(
    alloc: Global,
    columns: &[Column],
    last: Option<u64>,
    y: usize,
    rows: &[Row],
) -> Result<Text, NoMemory> {
    let mut out = Text::new(alloc);
    if let Some(row) = rows.first() {
        write_moment(alloc, last, y, row, &mut out)?;
        write_mark(columns, row.mark, y, rows, &mut out)?;
        write_said(alloc, columns, y, row, &mut out)?;
    }
    Ok(out)
}

/// The elements behind those of the rows: the lines of `closing`, and the end.
pub fn svg_ending(alloc: Global, size: Size, closing: &[u8]) -> Result<Text, NoMemory> {
    let mut out = Text::new(alloc);
    write_closing(alloc, size.floor, closing, &mut out)?;
    out.append(b"</svg>\n")?;
    Ok(out)
}

fn write_closing(
    alloc: Global,
    floor: usize,
    closing: &[u8],
    out: &mut Text,
) -> Result<(), NoMemory> {
    let mut line = Text::new(alloc);
    let mut y = floor;
    for byte in closing {
        if *byte == b'\n' {
            y = y.saturating_add(LINE);
            write_words(
                Point { x: 16, y },
                b"row",
                drawn_words(line.as_bytes()),
                out,
            )?;
            line = Text::new(alloc);
        } else {
            write_plain(&[*byte], &mut line)?;
        }
    }
    Ok(())
}
