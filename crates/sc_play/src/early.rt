//! The turns that were lent out before the clock went on, and made behind it.

use crate::rows::{BACK, Entry, row_at};
use sc_value::{AppId, NoMemory};
use std::alloc::Global;

/// A turn that was lent out at this moment, and made at a later one.
#[derive(Clone, Copy)]
pub struct Early {
    /// The moment at which it was lent out, in milliseconds.
    pub now: u64,
    /// Its application session.
    pub app: AppId,
}

/// What was found wrong before anything was played.
pub enum Unread {
    /// The place of a row, and what is wrong with it.
    Refused { at: usize, kind: u8 },
    /// There was no memory.
    NoMemory,
}

/// The turns of a recording that were lent out at an earlier moment than that at which they were
/// made, by the moments of their lending. So each row of the recording is read once before anything
/// is played.
///
/// # Errors
///
/// `Refused` at the first row that is none, or at which the clock goes back, and `NoMemory`.
pub fn early_turns(alloc: Global, text: &[u8]) -> Result<Vec<Early>, Unread> {
    let mut early = Vec::new(alloc);
    let mut moment = 0;
    let mut at = 0;
    while at < text.len() {
        match row_at(&text[at..]) {
            Ok(row) => {
                if !note(&row.entry, &mut moment, &mut early)? {
                    return Err(Unread::Refused { at, kind: BACK });
                }
                at += row.len;
            }
            Err(kind) => return Err(Unread::Refused { at, kind }),
        }
    }
    Ok(early)
}

/// Goes on to the moment of a row, and notes a turn that was lent before it: false where the clock
/// goes back.
fn note(entry: &Entry<'_>, moment: &mut u64, early: &mut Vec<Early>) -> Result<bool, Unread> {
    match entry {
        Entry::Tick(now) => {
            if *now < *moment {
                return Ok(false);
            }
            *moment = *now;
        }
        Entry::Turn(app, now) => {
            if *now < *moment {
                let turn = Early {
                    now: *now,
                    app: *app,
                };
                add_in_order(turn, early)?;
            }
        }
        _ => {}
    }
    Ok(true)
}

/// Adds a turn behind those that were lent at its moment or before.
fn add_in_order(turn: Early, early: &mut Vec<Early>) -> Result<(), NoMemory> {
    let mut at = early.len();
    while at > 0 && early[at - 1].now > turn.now {
        at -= 1;
    }
    match early.insert(at, turn) {
        Ok(()) => Ok(()),
        Err(_) => Err(NoMemory),
    }
}

impl From<NoMemory> for Unread {
    fn from(_cause: NoMemory) -> Unread {
        Unread::NoMemory
    }
}
