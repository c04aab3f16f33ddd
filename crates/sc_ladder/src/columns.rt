//! The columns of a picture: the connections of peers at the left, the applications in their order,
//! and at the right the addresses.

use crate::places::write_place;
use crate::story::{Mark, Row, Stop};
use sc_value::{CloneIn, List, NoMemory, Place, Text};
use std::alloc::Global;

/// The picture is at most so wide. A column that would begin behind it isn't drawn.
const MOST_WIDTH: usize = 76;

/// So many columns of connections are drawn at most.
const MOST_LEFT: usize = 4;

/// The column at which the first line of the picture stands.
const FIRST: usize = 9;

/// Where the line of a column stands.
#[derive(Clone, Copy, Debug, PartialEq, Eq)]
pub struct Spot {
    /// In a text: how many bytes stand before it.
    pub at: usize,
    /// In an SVG: how many columns stand before it.
    pub lane: usize,
}

/// A column.
#[derive(Drop)]
pub struct Column {
    pub stop: Stop,
    pub name: Text,
    pub spot: Spot,
}

/// The columns that the rows ask for. `names` are the names of the applications.
pub fn columns_of(alloc: Global, names: &[Text], rows: &[Row]) -> Result<List<Column>, NoMemory> {
    let mut columns = List::new(alloc);
    add_places(alloc, rows, true, &mut columns)?;
    let left = columns.len();
    add_apps(alloc, names, rows, &mut columns)?;
    if columns.len() == left {
        let name = Text::from_slice(alloc, b"sipd")?;
        add_column(Stop::Edge, name, &mut columns)?;
    }
    add_places(alloc, rows, false, &mut columns)?;
    Ok(columns)
}

fn add_places(
    alloc: Global,
    rows: &[Row],
    is_left: bool,
    columns: &mut List<Column>,
) -> Result<(), NoMemory> {
    for row in rows {
        match place_in(row.mark) {
            Some(place) => add_place(alloc, place, is_left, columns)?,
            None => {}
        }
    }
    Ok(())
}

/// The outside place of a row.
fn place_in(mark: Mark) -> Option<Place> {
    match mark {
        Mark::Arrow {
            from: Stop::Outside(place),
            ..
        } => Some(place),
        Mark::Arrow {
            to: Stop::Outside(place),
            ..
        } => Some(place),
        Mark::Cut(Stop::Outside(place)) => Some(place),
        _ => None,
    }
}

/// Adds the column of a place at this side, where it has none.
fn add_place(
    alloc: Global,
    place: Place,
    is_left: bool,
    columns: &mut List<Column>,
) -> Result<(), NoMemory> {
    let stop = Stop::Outside(place);
    if is_at_left(place) != is_left || column_of(stop, columns.as_slice()).is_some() {
        return Ok(());
    }
    if is_left && columns.len() >= MOST_LEFT {
        return Ok(());
    }
    let mut name = Text::new(alloc);
    write_place(place, &mut name)?;
    add_column(stop, name, columns)
}

fn is_at_left(place: Place) -> bool {
    match place {
        Place::Back(_) => true,
        Place::To(_, _) => false,
    }
}

/// Adds the columns of the applications that had a turn or were ended from outside.
fn add_apps(
    alloc: Global,
    names: &[Text],
    rows: &[Row],
    columns: &mut List<Column>,
) -> Result<(), NoMemory> {
    let mut host: u32 = 0;
    for name in names {
        if is_used(Stop::App(host), rows) {
            add_column(Stop::App(host), name.clone_in(alloc)?, columns)?;
        }
        host = host.saturating_add(1);
    }
    Ok(())
}

fn is_used(stop: Stop, rows: &[Row]) -> bool {
    for row in rows {
        if row.mark == Mark::Turn(stop) || row.mark == Mark::Cut(stop) {
            return true;
        }
    }
    false
}

/// Adds a column behind the others, where there is room for it.
fn add_column(stop: Stop, name: Text, columns: &mut List<Column>) -> Result<(), NoMemory> {
    let at = end_of(columns.as_slice());
    if at > MOST_WIDTH {
        return Ok(());
    }
    let spot = Spot {
        at,
        lane: columns.len(),
    };
    columns.push(Column { stop, name, spot })?;
    Ok(())
}

/// Where the next column begins.
fn end_of(columns: &[Column]) -> usize {
    match columns.last() {
        Some(column) => column.spot.at.saturating_add(width_of(column.name.len())),
        None => FIRST,
    }
}

/// How wide the column of a name is.
fn width_of(length: usize) -> usize {
    length.saturating_add(2).max(8)
}

/// How wide the picture is.
pub fn width(columns: &[Column]) -> usize {
    match columns.last() {
        Some(column) => column.spot.at.saturating_add(1),
        None => FIRST,
    }
}

/// Where the column of an end of an arrow stands, the other end being there too; None where it has
/// none.
pub fn place_of(stop: Stop, other: Stop, columns: &[Column]) -> Option<Spot> {
    match column_of(stop, columns) {
        Some(spot) => Some(spot),
        None => edge_of(stop, other, columns),
    }
}

/// Where the column of exactly this end stands.
pub fn column_of(stop: Stop, columns: &[Column]) -> Option<Spot> {
    for column in columns {
        if column.stop == stop {
            return Some(column.spot);
        }
    }
    None
}

fn edge_of(stop: Stop, other: Stop, columns: &[Column]) -> Option<Spot> {
    match stop {
        Stop::Edge => inner_next_to(other, columns),
        _ => None,
    }
}

/// The application's column that is next to an outside place.
fn inner_next_to(other: Stop, columns: &[Column]) -> Option<Spot> {
    match other {
        Stop::Outside(Place::To(_, _)) => last_app(columns),
        _ => first_app(columns),
    }
}

fn first_app(columns: &[Column]) -> Option<Spot> {
    for column in columns {
        if let Stop::App(_) = column.stop {
            return Some(column.spot);
        }
    }
    None
}

fn last_app(columns: &[Column]) -> Option<Spot> {
    let mut last = None;
    for column in columns {
        if let Stop::App(_) = column.stop {
            last = Some(column.spot);
        }
    }
    last
}
