//! The lines of a picture in text.

use crate::columns::{Column, Spot, column_of, place_of, width};
use crate::places::write_place;
use crate::story::{Mark, Row, Stop};
use sc_value::{NoMemory, Place, Text, write_plain, write_u64};
use std::alloc::Global;

/// A line has at most so many bytes.
const MOST_LINE: usize = 120;

/// So wide is the column of the moments.
const MOMENT_WIDTH: usize = 7;

/// What is drawn between the lines of the columns.
#[derive(Clone, Copy)]
enum Drawn {
    Nothing,
    Arrow { from: usize, to: usize },
    Sign { at: usize, sign: u8 },
}

/// The line of the columns' names.
pub fn header(alloc: Global, columns: &[Column]) -> Result<Text, NoMemory> {
    let mut line = Text::from_slice(alloc, b"     ms")?;
    for column in columns {
        pad(column.spot.at, &mut line)?;
        write_plain(column.name.as_bytes(), &mut line)?;
    }
    ended(alloc, &line)
}

/// The line of a row. `last` is the moment of the row before it.
pub fn line_of(
    alloc: Global,
    columns: &[Column],
    last: Option<u64>,
    row: &Row,
) -> Result<Text, NoMemory> {
    let mut line = Text::new(alloc);
    write_moment(alloc, last, row.moment, &mut line)?;
    draw(columns, row.mark, &mut line)?;
    line.append(b"  ")?;
    write_label(row, columns, &mut line)?;
    ended(alloc, &line)
}

/// Appends what a row says: the outside place that isn't drawn, and the row's text.
pub fn write_label(row: &Row, columns: &[Column], line: &mut Text) -> Result<(), NoMemory> {
    write_missing(row.mark, columns, line)?;
    write_plain(row.text.as_bytes(), line)
}

/// Appends the moment where it is another than that of the row before.
fn write_moment(
    alloc: Global,
    last: Option<u64>,
    moment: u64,
    line: &mut Text,
) -> Result<(), NoMemory> {
    if last == Some(moment) {
        return Ok(());
    }
    let mut number = Text::new(alloc);
    write_u64(moment, &mut number)?;
    pad(MOMENT_WIDTH.saturating_sub(number.len()), line)?;
    line.append(number.as_bytes())
}

/// Appends spaces up to this column.
fn pad(to: usize, line: &mut Text) -> Result<(), NoMemory> {
    for _ in line.len()..to {
        line.append(b" ")?;
    }
    Ok(())
}

/// Appends the lines of all columns, and what is drawn between them.
fn draw(columns: &[Column], mark: Mark, line: &mut Text) -> Result<(), NoMemory> {
    let drawn = drawn_of(mark, columns);
    for at in line.len()..width(columns) {
        line.append(&[cell(columns, drawn, at)])?;
    }
    Ok(())
}

fn drawn_of(mark: Mark, columns: &[Column]) -> Drawn {
    match mark {
        Mark::Blank | Mark::Call(_) => Drawn::Nothing,
        Mark::Turn(stop) => sign_at(column_of(stop, columns), b'*'),
        Mark::Cut(stop) => sign_at(column_of(stop, columns), b'x'),
        Mark::Arrow { from, to } => arrow_of(
            place_of(from, to, columns),
            place_of(to, from, columns),
        ),
    }
}

fn sign_at(spot: Option<Spot>, sign: u8) -> Drawn {
    match spot {
        Some(spot) => Drawn::Sign { at: spot.at, sign },
        None => Drawn::Nothing,
    }
}

fn arrow_of(from: Option<Spot>, to: Option<Spot>) -> Drawn {
    match (from, to) {
        (Some(from), Some(to)) => Drawn::Arrow {
            from: from.at,
            to: to.at,
        },
        _ => Drawn::Nothing,
    }
}

/// The byte that is drawn at a place.
fn cell(columns: &[Column], drawn: Drawn, at: usize) -> u8 {
    match between(drawn, at) {
        Some(byte) => byte,
        None => line_at(columns, at),
    }
}

/// What is drawn at a place over the lines of the columns.
fn between(drawn: Drawn, at: usize) -> Option<u8> {
    match drawn {
        Drawn::Nothing => None,
        Drawn::Sign { at: place, sign } => { if at == place { Some(sign) } else { None } }
        Drawn::Arrow { from, to } => {
            if from < to {
                to_right(from, to, at)
            } else {
                to_left(from, to, at)
            }
        }
    }
}

fn to_right(from: usize, to: usize, at: usize) -> Option<u8> {
    if at <= from || at >= to {
        return None;
    }
    if at + 1 == to { Some(b'>') } else { Some(b'-') }
}

fn to_left(from: usize, to: usize, at: usize) -> Option<u8> {
    if at <= to || at >= from {
        return None;
    }
    if at - 1 == to { Some(b'<') } else { Some(b'-') }
}

/// The line of a column, or a space.
fn line_at(columns: &[Column], at: usize) -> u8 {
    for column in columns {
        if column.spot.at == at {
            return b'|';
        }
    }
    b' '
}

/// Appends the outside place of a mark whose column isn't drawn.
fn write_missing(mark: Mark, columns: &[Column], line: &mut Text) -> Result<(), NoMemory> {
    match mark {
        Mark::Arrow {
            from: Stop::Outside(place),
            ..
        } => write_end(b"from ", place, columns, line),
        Mark::Arrow {
            to: Stop::Outside(place),
            ..
        } => write_end(b"to ", place, columns, line),
        _ => Ok(()),
    }
}

fn write_end(
    word: &[u8],
    place: Place,
    columns: &[Column],
    line: &mut Text,
) -> Result<(), NoMemory> {
    if column_of(Stop::Outside(place), columns).is_some() {
        return Ok(());
    }
    line.append(word)?;
    write_place(place, line)?;
    line.append(b": ")
}

/// A line as far as it is written, with a line feed.
fn ended(alloc: Global, line: &Text) -> Result<Text, NoMemory> {
    let mut whole = Text::from_slice(alloc, front(line.as_bytes()))?;
    whole.append(b"\n")?;
    Ok(whole)
}

fn front(line: &[u8]) -> &[u8] {
    &line[..line.len().min(MOST_LINE)]
}
