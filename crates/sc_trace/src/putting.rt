//! Putting the picture of a run.

use crate::telling::write_living;
use sc_edge::{Sink, put_all};
use sc_ladder::{
    Form, Pen, Picture, Row, Story, beginning, ending, pen_after, picture_of, row_text,
};
use sc_replay::Status;
use sc_script::write_end;
use sc_switch::Switch;
use sc_value::{NoMemory, Text};
use std::alloc::Global;

/// Why the picture isn't whole.
#[derive(Clone, Copy, Debug, PartialEq, Eq)]
pub enum Unput {
    NoMemory,
    Failed,
}

impl From<NoMemory> for Unput {
    fn from(_cause: NoMemory) -> Unput {
        Unput::NoMemory
    }
}

/// How the program ends, as of `replay`.
pub fn status_of(cause: Unput) -> Status {
    match cause {
        Unput::NoMemory => Status::NoMemory,
        Unput::Failed => Status::Write,
    }
}

/// Puts the picture of a story in this form, with the lines of `closing` below it.
pub fn put_story<K: Sink>(
    alloc: Global,
    form: Form,
    story: &Story,
    closing: &Text,
    out: &mut K,
) -> Result<(), Unput> {
    let picture = picture_of(alloc, form, story, closing.as_bytes())?;
    put_text(&beginning(alloc, &picture)?, out)?;
    put_rows(alloc, &picture, story.rows.as_slice(), out)?;
    put_text(&ending(alloc, &picture, closing.as_bytes())?, out)
}

fn put_rows<K: Sink>(
    alloc: Global,
    picture: &Picture,
    rows: &[Row],
    out: &mut K,
) -> Result<(), Unput> {
    let mut pen = Pen::new();
    for at in 0..rows.len() {
        let text = row_text(alloc, picture, pen, &rows[at..])?;
        put_text(&text, out)?;
        pen = pen_after(pen, &rows[at]);
    }
    Ok(())
}

/// The lines below the picture of so many steps: the sessions that live, and the last line of
/// `replay`.
pub fn closing_of(
    alloc: Global,
    steps: u64,
    switch: &Switch,
    story: &Story,
) -> Result<Text, NoMemory> {
    let listing = switch.listing(alloc)?;
    let mut text = Text::new(alloc);
    write_living(&listing.live, story.names.as_slice(), &mut text)?;
    write_end(alloc, steps, story.sent, switch.live(), &mut text)?;
    Ok(text)
}

fn put_text<K: Sink>(text: &Text, out: &mut K) -> Result<(), Unput> {
    match put_all(out, text.as_bytes()) {
        Ok(()) => Ok(()),
        Err(_) => Err(Unput::Failed),
    }
}
