//! What is drawn of a row between and on the lines of an SVG.

use crate::columns::{Column, Spot, column_of};
use crate::drawing::write_label;
use crate::elements::{Point, write_box, write_line, write_words};
use crate::sizes::{LINE, drawn_words, ends_of, lane_x, words_at, words_down, words_width};
use crate::story::{Mark, Row, Stop};
use sc_value::{NoMemory, Text, write_u64};
use std::alloc::Global;

/// The box of a turn: its lines, and the bytes of the longest one.
#[derive(Clone, Copy, Debug, PartialEq, Eq)]
struct Note {
    lines: usize,
    longest: usize,
}

/// Appends what the mark of the first row draws. Behind it stand the rows that follow.
pub fn write_mark(
    columns: &[Column],
    mark: Mark,
    y: usize,
    rows: &[Row],
    out: &mut Text,
) -> Result<(), NoMemory> {
    match mark {
        Mark::Blank | Mark::Call(_) => Ok(()),
        Mark::Arrow { from, to } => write_arrow(ends_of(from, to, columns), y, out),
        Mark::Turn(stop) => write_turn(column_of(stop, columns), y, note_of(rows), out),
        Mark::Cut(stop) => write_cut(column_of(stop, columns), y, out),
    }
}

/// Appends the arrow of a message, where both ends are drawn.
fn write_arrow(ends: Option<(Spot, Spot)>, y: usize, out: &mut Text) -> Result<(), NoMemory> {
    match ends {
        Some((from, to)) => write_between(lane_x(from.lane), lane_x(to.lane), y, out),
        None => Ok(()),
    }
}

fn write_between(from: usize, to: usize, y: usize, out: &mut Text) -> Result<(), NoMemory> {
    if from == to {
        return Ok(());
    }
    let y = y.saturating_add(21);
    write_line(Point { x: from, y }, Point { x: to, y }, b"arrow", out)
}

/// Appends the box of a turn, which its lines are written into.
fn write_turn(spot: Option<Spot>, y: usize, note: Note, out: &mut Text) -> Result<(), NoMemory> {
    let Some(spot) = spot else {
        return Ok(());
    };
    let at = Point {
        x: lane_x(spot.lane).saturating_sub(8),
        y: y.saturating_add(5),
    };
    let width = words_width(note.longest).saturating_add(20);
    let height = note.lines.saturating_mul(LINE).saturating_add(3);
    write_box(at, width, height, b"turn", out)
}

/// The box of the turn whose row is the first one: its calls follow.
fn note_of(rows: &[Row]) -> Note {
    let mut note = Note {
        lines: 0,
        longest: 0,
    };
    for row in rows {
        if note.lines > 0 && !is_call(row.mark) {
            return note;
        }
        note = with_line(note, drawn_words(row.text.as_bytes()).len());
    }
    note
}

fn is_call(mark: Mark) -> bool {
    match mark {
        Mark::Call(_) => true,
        _ => false,
    }
}

fn with_line(note: Note, length: usize) -> Note {
    Note {
        lines: note.lines.saturating_add(1),
        longest: note.longest.max(length),
    }
}

/// Appends the cross where a place was lost, or a session ended from outside.
fn write_cut(spot: Option<Spot>, y: usize, out: &mut Text) -> Result<(), NoMemory> {
    match spot {
        Some(spot) => write_cross(lane_x(spot.lane), y, out),
        None => Ok(()),
    }
}

fn write_cross(x: usize, y: usize, out: &mut Text) -> Result<(), NoMemory> {
    let left = x.saturating_sub(5);
    let right = x.saturating_add(5);
    let upper = y.saturating_add(8);
    let lower = y.saturating_add(18);
    write_stroke(left, upper, right, lower, out)?;
    write_stroke(left, lower, right, upper, out)
}

fn write_stroke(
    x1: usize,
    y1: usize,
    x2: usize,
    y2: usize,
    out: &mut Text,
) -> Result<(), NoMemory> {
    write_line(Point { x: x1, y: y1 }, Point { x: x2, y: y2 }, b"cut", out)
}

/// Appends the text of a row.
pub fn write_said(
    alloc: Global,
    columns: &[Column],
    y: usize,
    row: &Row,
    out: &mut Text,
) -> Result<(), NoMemory> {
    let mut words = Text::new(alloc);
    write_label(row, columns, &mut words)?;
    let at = words_at(row.mark, columns, y);
    write_words(at, class_of(row.mark), drawn_words(words.as_bytes()), out)
}

fn class_of(mark: Mark) -> &'static [u8] {
    match mark {
        Mark::Turn(_) => b"said",
        _ => b"row",
    }
}

/// Appends the moment of a row where it is another than that of the row before.
pub fn write_moment(
    alloc: Global,
    last: Option<u64>,
    y: usize,
    row: &Row,
    out: &mut Text,
) -> Result<(), NoMemory> {
    if last == Some(row.moment) {
        return Ok(());
    }
    let mut number = Text::new(alloc);
    write_u64(row.moment, &mut number)?;
    let at = Point {
        x: 70,
        y: y.saturating_add(words_down(row.mark)),
    };
    write_words(at, b"moment", number.as_bytes(), out)
}
