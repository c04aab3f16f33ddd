//! The calls of session timers.

use crate::helping::{request_of, written};
use crate::reading::{number, small_number, word};
use sc_helpers::Stopped;
use sc_refreshes::{Fired, answered, begin, fire, granted, granted_fields, stop};
use sc_turn::Turn;
use sc_value::{Field, NoMemory, ReqId, Request, SessId, TimerId};
use std::alloc::Global;

fn done(alloc: Global, answered: Result<(), Stopped>) -> Option<String> {
    match answered {
        Ok(()) => Some(String::new(alloc)),
        Err(stopped) => written(format!(in alloc; "{stopped:?}")),
    }
}

// A SipSession.
fn begin_row(t: &mut Turn, alloc: Global, row: &str) -> Option<String> {
    match request_of(alloc, row) {
        Some(request) => {
            let interval = granted(request.get(), 90);
            done(alloc, begin(t, SessId(number(row, 1)), interval))
        }
        None => None,
    }
}

fn grant(alloc: Global, request: &Request) -> Option<String> {
    let interval = granted(request, 90);
    written(format!(in alloc; "{interval:?}"))
}

fn granted_row(alloc: Global, row: &str) -> Option<String> {
    match request_of(alloc, row) {
        Some(request) => grant(alloc, request.get()),
        None => None,
    }
}

fn header_text(alloc: Global, name: &[u8], value: &[u8]) -> Option<String> {
    match (std::str::from_utf8(name), std::str::from_utf8(value)) {
        (Ok(name), Ok(value)) => written(format!(in alloc; "{name}: {value}")),
        _ => None,
    }
}

fn header_at(alloc: Global, fields: &[Field], place: u16) -> Option<String> {
    match fields.get(usize::from(place)) {
        Some(field) => header_text(alloc, field.name.as_bytes(), field.value.as_bytes()),
        None => Some(String::new(alloc)),
    }
}

fn header_of(alloc: Global, request: &Request, place: u16) -> Option<String> {
    match granted_fields(alloc, granted(request, 90)) {
        Ok(fields) => header_at(alloc, fields.as_slice(), place),
        Err(NoMemory) => None,
    }
}

// The place, from 0, of one of the headers that are granted.
fn header_row(alloc: Global, row: &str) -> Option<String> {
    match request_of(alloc, row) {
        Some(request) => header_of(alloc, request.get(), small_number(row, 1)),
        None => None,
    }
}

fn fired(alloc: Global, answered: Result<Fired, Stopped>) -> Option<String> {
    match answered {
        Ok(fired) => written(format!(in alloc; "{fired:?}")),
        Err(stopped) => written(format!(in alloc; "{stopped:?}")),
    }
}

fn sent(alloc: Global, answered: Result<Option<ReqId>, Stopped>) -> Option<String> {
    match answered {
        Ok(sent) => written(format!(in alloc; "{sent:?}")),
        Err(stopped) => written(format!(in alloc; "{stopped:?}")),
    }
}

/// Makes the call that a row names. None where it names none of these.
pub fn help_refreshing(t: &mut Turn, alloc: Global, row: &str) -> Option<String> {
    let name = word(row, 0);
    if name == "granted" {
        return granted_row(alloc, row);
    }
    if name == "header" {
        return header_row(alloc, row);
    }
    if name == "begin" {
        return begin_row(t, alloc, row);
    }
    if name == "stop" {
        return done(alloc, stop(t, SessId(number(row, 1))));
    }
    if name == "fire" {
        return fired(alloc, fire(t, TimerId(number(row, 1))));
    }
    if name == "answered" {
        return sent(
            alloc,
            answered(t, SessId(number(row, 1)), small_number(row, 2)),
        );
    }
    None
}
