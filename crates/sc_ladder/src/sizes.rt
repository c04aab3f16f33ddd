//! Where things stand in an SVG, in pixels.

use crate::columns::{Column, Spot, column_of, place_of};
use crate::drawing::write_label;
use crate::elements::Point;
use crate::story::{Mark, Row, Stop};
use sc_value::{NoMemory, Text};
use std::alloc::Global;

/// Where the line of the first column stands.
const FIRST_LANE: usize = 110;

/// How far the lines of two columns are apart.
const LANE: usize = 190;

/// Where the rows begin.
pub const TOP: usize = 44;

/// How high a line of text is.
pub const LINE: usize = 17;

/// So many bytes of a text are drawn at most.
const MOST_WORDS: usize = 100;

/// How large a picture is, and where the lines of its columns end.
#[derive(Clone, Copy, Debug, PartialEq, Eq)]
pub struct Size {
    pub width: usize,
    pub height: usize,
    pub floor: usize,
}

/// The size of a picture in text, which isn't used.
pub const NO_SIZE: Size = Size {
    width: 0,
    height: 0,
    floor: 0,
};

/// The size of the picture of these rows, with the lines of `closing` below them.
pub fn size_of(
    alloc: Global,
    columns: &[Column],
    rows: &[Row],
    closing: &[u8],
) -> Result<Size, NoMemory> {
    let width = rows_width(alloc, columns, rows)?;
    let floor = rows_height(rows).saturating_add(TOP).saturating_add(8);
    Ok(Size {
        width: width.max(columns_width(columns)),
        height: closing_height(closing)
            .saturating_add(floor)
            .saturating_add(16),
        floor,
    })
}

/// Where the line of a column stands.
pub fn lane_x(lane: usize) -> usize {
    lane.saturating_mul(LANE).saturating_add(FIRST_LANE)
}

/// How wide a text of so many bytes is at most.
pub fn words_width(length: usize) -> usize {
    length.saturating_mul(15) / 2
}

/// A text as far as it is drawn.
pub fn drawn_words(words: &[u8]) -> &[u8] {
    &words[..words.len().min(MOST_WORDS)]
}

/// How high a row is.
pub fn row_height(mark: Mark) -> usize {
    match mark {
        Mark::Arrow { .. } => 34,
        Mark::Turn(_) => 24,
        Mark::Call(_) => LINE,
        Mark::Cut(_) => 26,
        Mark::Blank => 24,
    }
}

fn rows_height(rows: &[Row]) -> usize {
    let mut height: usize = 0;
    for row in rows {
        height = height.saturating_add(row_height(row.mark));
    }
    height
}

/// How high the lines below the rows are.
fn closing_height(closing: &[u8]) -> usize {
    let mut height: usize = 0;
    for byte in closing {
        if *byte == b'\n' {
            height = height.saturating_add(LINE);
        }
    }
    height
}

fn columns_width(columns: &[Column]) -> usize {
    lane_x(columns.len().saturating_sub(1)).saturating_add(100)
}

fn rows_width(alloc: Global, columns: &[Column], rows: &[Row]) -> Result<usize, NoMemory> {
    let mut width: usize = 0;
    for row in rows {
        width = width.max(row_width(alloc, columns, row)?);
    }
    Ok(width)
}

/// How far a row reaches to the right.
fn row_width(alloc: Global, columns: &[Column], row: &Row) -> Result<usize, NoMemory> {
    let mut words = Text::new(alloc);
    write_label(row, columns, &mut words)?;
    let length = drawn_words(words.as_bytes()).len();
    Ok(
        words_x(row.mark, columns)
            .saturating_add(words_width(length))
            .saturating_add(24),
    )
}

/// Where the text of a row begins.
pub fn words_at(mark: Mark, columns: &[Column], y: usize) -> Point {
    Point {
        x: words_x(mark, columns),
        y: y.saturating_add(words_down(mark)),
    }
}

/// How far below the top of a row its text stands.
pub fn words_down(mark: Mark) -> usize {
    match mark {
        Mark::Arrow { .. } => 14,
        Mark::Turn(_) => 18,
        Mark::Call(_) => 13,
        Mark::Cut(_) => 17,
        Mark::Blank => 16,
    }
}

fn words_x(mark: Mark, columns: &[Column]) -> usize {
    match mark {
        Mark::Blank => behind(FIRST_LANE),
        Mark::Turn(stop) => stop_x(stop, columns),
        Mark::Call(stop) => stop_x(stop, columns).saturating_add(16),
        Mark::Cut(stop) => stop_x(stop, columns).saturating_add(10),
        Mark::Arrow { from, to } => arrow_x(ends_of(from, to, columns)),
    }
}

/// A little to the right of a line.
fn behind(x: usize) -> usize {
    x.saturating_add(10)
}

fn stop_x(stop: Stop, columns: &[Column]) -> usize {
    match column_of(stop, columns) {
        Some(spot) => lane_x(spot.lane),
        None => behind(FIRST_LANE),
    }
}

/// Where both ends of an arrow stand, where both are drawn.
pub fn ends_of(from: Stop, to: Stop, columns: &[Column]) -> Option<(Spot, Spot)> {
    match (place_of(from, to, columns), place_of(to, from, columns)) {
        (Some(from), Some(to)) => Some((from, to)),
        _ => None,
    }
}

fn arrow_x(ends: Option<(Spot, Spot)>) -> usize {
    match ends {
        Some((from, to)) => behind(lane_x(from.lane.min(to.lane))),
        None => behind(FIRST_LANE),
    }
}
