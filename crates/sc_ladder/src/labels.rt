//! Messages in short.

use crate::story::Told;
use sc_value::{CSeq, HeaderValue, Message, NoMemory, Request, Response, Text, write_u64};
use std::alloc::Global;

/// Appends a message in short: its method, or its code and reason, and its CSeq.
pub fn write_message(message: &Message, out: &mut Text) -> Result<(), NoMemory> {
    match message {
        Message::Request(request) => write_request(request.get(), out),
        Message::Response(response) => write_response(response.get(), out),
    }
}

/// Appends a request in short, as `INVITE (4711)`.
pub fn write_request(request: &Request, out: &mut Text) -> Result<(), NoMemory> {
    out.append(request.method.as_bytes())?;
    out.append(b" (")?;
    write_u64(u64::from(request.head.cseq.number), out)?;
    out.append(b")")
}

/// Appends a response in short, as `180 Ringing (4711 INVITE)`.
pub fn write_response(response: &Response, out: &mut Text) -> Result<(), NoMemory> {
    write_u64(u64::from(response.code), out)?;
    out.append(b" ")?;
    out.append(response.reason.as_bytes())?;
    out.append(b" (")?;
    write_cseq(&response.head.cseq, out)?;
    out.append(b")")
}

fn write_cseq(cseq: &CSeq, out: &mut Text) -> Result<(), NoMemory> {
    write_u64(u64::from(cseq.number), out)?;
    out.append(b" ")?;
    out.append(cseq.method.as_bytes())
}

/// How a message is told.
pub fn told_message(alloc: Global, message: &Message) -> Result<Told, NoMemory> {
    match message {
        Message::Request(request) => told_request(alloc, request.get()),
        Message::Response(response) => told_response(alloc, response.get()),
    }
}

/// How a request is told.
pub fn told_request(alloc: Global, request: &Request) -> Result<Told, NoMemory> {
    let mut label = Text::new(alloc);
    write_request(request, &mut label)?;
    told(alloc, label, &request.head.call_id)
}

/// How a response is told.
pub fn told_response(alloc: Global, response: &Response) -> Result<Told, NoMemory> {
    let mut label = Text::new(alloc);
    write_response(response, &mut label)?;
    told(alloc, label, &response.head.call_id)
}

fn told(alloc: Global, label: Text, call_id: &HeaderValue) -> Result<Told, NoMemory> {
    let call_id = Text::from_slice(alloc, call_id.as_bytes())?;
    Ok(Told { label, call_id })
}
