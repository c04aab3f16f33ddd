//! A picture in one of its forms.

use crate::columns::{Column, columns_of};
use crate::drawing::{header, line_of};
use crate::sizes::{NO_SIZE, Size, TOP, row_height, size_of};
use crate::story::{Row, Story};
use crate::svg::{svg_beginning, svg_ending, svg_row};
use sc_value::{List, NoMemory, Text};
use std::alloc::Global;

/// In what form a picture is written.
#[derive(Clone, Copy, Debug, PartialEq, Eq)]
pub enum Form {
    /// Lines of text.
    Text,
    /// A drawing, as an SVG.
    Svg,
}

/// A picture, whose rows are drawn one by one.
#[derive(Drop)]
pub struct Picture {
    pub form: Form,
    pub columns: List<Column>,
    /// Whether there are no rows.
    pub is_empty: bool,
    pub size: Size,
}

/// How far the rows are drawn.
#[derive(Clone, Copy, Debug, PartialEq, Eq)]
pub struct Pen {
    /// The moment of the last row, where there was one.
    pub last: Option<u64>,
    /// Where the next row stands in an SVG.
    pub y: usize,
}

impl Pen {
    /// Before the first row.
    pub fn new() -> Pen {
        Pen { last: None, y: TOP }
    }
}

/// The picture of a story, in this form. `closing` are the lines that stand below the rows.
pub fn picture_of(
    alloc: Global,
    form: Form,
    story: &Story,
    closing: &[u8],
) -> Result<Picture, NoMemory> {
    let columns = columns_of(alloc, story.names.as_slice(), story.rows.as_slice())?;
    let size = size_in(
        alloc,
        form,
        columns.as_slice(),
        story.rows.as_slice(),
        closing,
    )?;
    Ok(Picture {
        form,
        columns,
        is_empty: story.rows.is_empty(),
        size,
    })
}

fn size_in(
    alloc: Global,
    form: Form,
    columns: &[Column],
    rows: &[Row],
    closing: &[u8],
) -> Result<Size, NoMemory> {
    match form {
        Form::Text => Ok(NO_SIZE),
        Form::Svg => size_of(alloc, columns, rows, closing),
    }
}

/// What stands before the rows.
pub fn beginning(alloc: Global, picture: &Picture) -> Result<Text, NoMemory> {
    match picture.form {
        Form::Text if picture.is_empty => Ok(Text::new(alloc)),
        Form::Text => header(alloc, picture.columns.as_slice()),
        Form::Svg => svg_beginning(alloc, picture.columns.as_slice(), picture.size),
    }
}

/// The first of these rows, which are those from the pen on.
pub fn row_text(
    alloc: Global,
    picture: &Picture,
    pen: Pen,
    rows: &[Row],
) -> Result<Text, NoMemory> {
    let columns = picture.columns.as_slice();
    match (picture.form, rows.first()) {
        (_, None) => Ok(Text::new(alloc)),
        (Form::Text, Some(row)) => line_of(alloc, columns, pen.last, row),
        (Form::Svg, Some(_)) => svg_row(alloc, columns, pen.last, pen.y, rows),
    }
}

/// The pen behind a row.
pub fn pen_after(pen: Pen, row: &Row) -> Pen {
    Pen {
        last: Some(row.moment),
        y: pen.y.saturating_add(row_height(row.mark)),
    }
}

/// What stands behind the rows.
pub fn ending(alloc: Global, picture: &Picture, closing: &[u8]) -> Result<Text, NoMemory> {
    match picture.form {
        Form::Text => Text::from_slice(alloc, closing),
        Form::Svg => svg_ending(alloc, picture.size, closing),
    }
}
