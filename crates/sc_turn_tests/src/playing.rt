//! Tables of calls, and how they are played on a turn.
//!
//! A row is a call and behind `=` what it answers: nothing where it is accepted and gives no
//! number, the number that it gives, or the refusal. `54 times` is an answer too: the call is
//! accepted so often. A row `each` is each of the calls. A helper's call answers what it gives, or
//! its refusal. What stands behind `#` is a remark.

use crate::calling::make;
use crate::helping::help;
use crate::reading::{cut, number, word};
use crate::views::turn;
use sc_terms::{CallAnswer, End};
use sc_turn::{Called, Turn};
use sc_value::NoMemory;
use std::alloc::{AllocError, Global};
use std::process::Abort;

// Each of the calls once. They name what is there.
fn each_call() -> &'static str {
    "respond 1 180 Ringing
    create_request New - OPTIONS
    create_in_dialog 2 INFO
    b2b_create 1
    set_directive 1 New -
    send 1
    discard 1
    ack 2
    cancel 6
    proxy_to 1 1 180
    proxy_cancel 5
    b2b_respond 7 180 Ringing
    link 1 2
    unlink 6
    start_timer
    cancel_timer 1
    set_attribute a 1
    remove_attribute a
    set_expires 1
    set_ready_flag own off
    invalidate_session 1
    invalidate_application"
}

// An answer as a row has it.
fn text_of(alloc: Global, answer: CallAnswer) -> Result<String, AllocError> {
    match answer {
        CallAnswer::Fine => Ok(String::new(alloc)),
        CallAnswer::Number(number) => format!(in alloc; "{number}"),
        CallAnswer::Refused(refusal) => format!(in alloc; "{refusal:?}"),
    }
}

// Whether a helper's call is answered so.
fn is_helped(t: &mut Turn, alloc: Global, call: &str, answer: &str) -> bool {
    match help(t, alloc, call) {
        Some(told) => told.as_str() == answer,
        None => false,
    }
}

fn is_answered(t: &mut Turn, alloc: Global, call: &str, answer: &str) -> bool {
    match make(t, alloc, call) {
        Some(told) => match text_of(alloc, told) {
            Ok(text) => text.as_str() == answer,
            Err(_) => false,
        },
        None => is_helped(t, alloc, call, answer),
    }
}

fn is_each_answered(t: &mut Turn, alloc: Global, answer: &str) -> bool {
    for call in each_call().lines() {
        if !is_answered(t, alloc, call, answer) {
            return false;
        }
    }
    true
}

fn is_accepted(t: &mut Turn, alloc: Global, call: &str) -> bool {
    match make(t, alloc, call) {
        Some(CallAnswer::Refused(_)) => false,
        Some(_) => true,
        None => false,
    }
}

fn is_accepted_times(t: &mut Turn, alloc: Global, call: &str, count: u32) -> bool {
    for _ in 0..count {
        if !is_accepted(t, alloc, call) {
            return false;
        }
    }
    true
}

// Whether the row goes as it says. One without a word does.
fn holds(t: &mut Turn, alloc: Global, row: &str) -> bool {
    let (row, _) = cut(row, '#');
    let (call, answer) = cut(row, '=');
    let answer = answer.trim();
    if word(call, 0).is_empty() {
        return true;
    }
    if word(call, 0) == "each" {
        return is_each_answered(t, alloc, answer);
    }
    if word(answer, 1) == "times" {
        return is_accepted_times(t, alloc, call, number(answer, 0));
    }
    is_answered(t, alloc, call, answer)
}

// The place of the first row, from 0, that doesn't hold.
fn wrong_row_on(t: &mut Turn, alloc: Global, rows: &str) -> Option<usize> {
    for (place, row) in rows.lines().enumerate() {
        if !holds(t, alloc, row) {
            return Some(place);
        }
    }
    None
}

// On a turn of its own; 0 too where there is no memory for that.
fn wrong_row(alloc: Global, rows: &str) -> Option<usize> {
    match turn(alloc) {
        Ok(turn) => {
            let mut turn = turn;
            wrong_row_on(&mut turn, alloc, rows)
        }
        Err(NoMemory) => Some(0),
    }
}

/// Plays a table on a turn of its own: each row holds.
pub fn play<R: Abort>(rt: &R, alloc: Global, rows: &str) {
    let wrong = wrong_row(alloc, rows);
    assert!(rt; wrong.is_none(), "the row {wrong:?} from 0");
}

/// What is left of a turn on which a table was played, where each row holds.
pub fn called(alloc: Global, rows: &str, end: End) -> Option<Called> {
    match turn(alloc) {
        Ok(turn) => {
            let mut turn = turn;
            match wrong_row_on(&mut turn, alloc, rows) {
                Some(_) => None,
                None => Some(turn.finish(end)),
            }
        }
        Err(NoMemory) => None,
    }
}
