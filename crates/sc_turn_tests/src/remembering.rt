//! Attributes and timers, in which helpers remember, as the calls left them.

use crate::helping::written;
use crate::reading::{number, text_of, word};
use sc_terms::Refusal;
use sc_turn::Turn;
use sc_value::{NoMemory, Text};
use std::alloc::Global;

// The value of the attribute of this name, nothing where it isn't set.
fn attribute(t: &Turn, alloc: Global, name: &str) -> Option<String> {
    let fields = t.view().attributes.as_slice();
    match fields
        .iter()
        .find(|field| field.name.as_bytes() == name.as_bytes())
    {
        Some(field) => match std::str::from_utf8(field.value.as_bytes()) {
            Ok(value) => written(format!(in alloc; "{value}")),
            Err(_) => None,
        },
        None => Some(String::new(alloc)),
    }
}

// The moment at which the timer of this number is due, nothing where it isn't active.
fn due(t: &Turn, alloc: Global, id: u32) -> Option<String> {
    let timers = t.view().timers.as_slice();
    match timers.iter().find(|timer| timer.id.0 == id) {
        Some(timer) => {
            let due = timer.due;
            written(format!(in alloc; "{due}"))
        }
        None => Some(String::new(alloc)),
    }
}

fn noted(alloc: Global, answered: Result<(), Refusal>) -> Option<String> {
    match answered {
        Ok(()) => Some(String::new(alloc)),
        Err(refusal) => written(format!(in alloc; "{refusal:?}")),
    }
}

fn texts(alloc: Global, row: &str) -> Result<(Text, Text), NoMemory> {
    let name = text_of(alloc, word(row, 1))?;
    let value = text_of(alloc, word(row, 2))?;
    Ok((name, value))
}

// A name and a value.
fn note(t: &mut Turn, alloc: Global, row: &str) -> Option<String> {
    match texts(alloc, row) {
        Ok((name, value)) => noted(alloc, t.set_attribute(name, value)),
        Err(NoMemory) => None,
    }
}

/// Sets an attribute, or looks at one or at a timer. None where the row names none of these.
pub fn remember(t: &mut Turn, alloc: Global, row: &str) -> Option<String> {
    let name = word(row, 0);
    if name == "attribute" {
        return attribute(t, alloc, word(row, 1));
    }
    if name == "due" {
        return due(t, alloc, number(row, 1));
    }
    if name == "note" {
        return note(t, alloc, row);
    }
    None
}
