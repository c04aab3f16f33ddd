//! The calls of helpers: the name of the call, its numbers, and behind `%` the headers of the
//! request that it is about, as words.

use crate::notifying::help_notifying;
use crate::offering::help_offering;
use crate::reading::{cut, text_of};
use crate::refreshing::help_refreshing;
use crate::remembering::remember;
use sc_message_text::read_message;
use sc_turn::Turn;
use sc_value::{Message, NoMemory, Request, Shared, Text};
use std::alloc::{AllocError, Global};

// An INVITE without the headers of a row.
fn head() -> &'static [u8] {
    b"INVITE sip:bob@127.0.0.1:5070 SIP/2.0\r\nVia: SIP/2.0/TCP 127.0.0.1:5090;branch=z9hG4bKa1\r\nMax-Forwards: 70\r\nFrom: <sip:alice@home.test>;tag=a\r\nTo: <sip:bob@home.test>\r\nCall-ID: c5\r\nCSeq: 1 INVITE\r\n"
}

fn put_headers(alloc: Global, headers: &str, text: &mut Text) -> Result<(), NoMemory> {
    for header in headers.split_whitespace() {
        let line = text_of(alloc, header)?;
        text.append(line.as_bytes())?;
        text.append(b"\r\n")?;
    }
    Ok(())
}

fn message_text(alloc: Global, headers: &str) -> Result<Text, NoMemory> {
    let mut text = Text::from_slice(alloc, head())?;
    put_headers(alloc, headers, &mut text)?;
    text.append(b"Content-Length: 0\r\n\r\n")?;
    Ok(text)
}

fn read_request(alloc: Global, text: &Text) -> Option<Shared<Request>> {
    match read_message(alloc, text.as_bytes()) {
        Ok(Message::Request(request)) => Some(request),
        Ok(Message::Response(response)) => {
            drop(response);
            None
        }
        Err(_) => None,
    }
}

/// The request of a row: its headers stand behind `%`. None where the row spells none.
pub fn request_of(alloc: Global, row: &str) -> Option<Shared<Request>> {
    let (_, headers) = cut(row, '%');
    match message_text(alloc, headers) {
        Ok(text) => read_request(alloc, &text),
        Err(NoMemory) => None,
    }
}

/// What was written, none for want of memory.
pub fn written(text: Result<String, AllocError>) -> Option<String> {
    match text {
        Ok(text) => Some(text),
        Err(_) => None,
    }
}

/// Makes the call of a helper that a row names, or sets or looks at what one remembers. None where
/// it names no such call.
pub fn help(t: &mut Turn, alloc: Global, row: &str) -> Option<String> {
    if let Some(told) = remember(t, alloc, row) {
        return Some(told);
    }
    if let Some(told) = help_offering(t, alloc, row) {
        return Some(told);
    }
    if let Some(told) = help_refreshing(t, alloc, row) {
        return Some(told);
    }
    help_notifying(t, alloc, row)
}
