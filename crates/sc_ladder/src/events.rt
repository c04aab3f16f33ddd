//! Events in short.

use crate::labels::{told_request, told_response, write_request, write_response};
use crate::story::Told;
use sc_terms::Event;
use sc_value::{NoMemory, Response, Shared, Text, TimerId, write_u64};
use std::alloc::Global;

/// Appends the event of a turn in short.
pub fn write_event(event: &Option<Shared<Event>>, out: &mut Text) -> Result<(), NoMemory> {
    match event {
        Some(event) => write_some(event.get(), out),
        None => out.append(b"no event"),
    }
}

fn write_some(event: &Event, out: &mut Text) -> Result<(), NoMemory> {
    match event {
        Event::Initial { request, .. } => write_request(request.get(), out),
        Event::Request { request, .. } => write_request(request.get(), out),
        Event::Response { response, .. } => write_response(response.get(), out),
        Event::Branch { response, .. } => write_branch(response.get(), out),
        Event::Cancelled { .. } => out.append(b"cancelled"),
        Event::Timer { id, .. } => write_timer(*id, out),
        Event::Expired => out.append(b"expired"),
        Event::Ready => out.append(b"ready"),
    }
}

fn write_branch(response: &Response, out: &mut Text) -> Result<(), NoMemory> {
    out.append(b"branch ")?;
    write_response(response, out)
}

fn write_timer(id: TimerId, out: &mut Text) -> Result<(), NoMemory> {
    out.append(b"timer ")?;
    write_u64(u64::from(id.0), out)
}

/// How the message of an event is told, where it has one.
pub fn told_event(alloc: Global, event: &Option<Shared<Event>>) -> Result<Option<Told>, NoMemory> {
    match event {
        Some(event) => told_some(alloc, event.get()),
        None => Ok(None),
    }
}

fn told_some(alloc: Global, event: &Event) -> Result<Option<Told>, NoMemory> {
    match event {
        Event::Initial { request, .. } => Ok(Some(told_request(alloc, request.get())?)),
        Event::Request { request, .. } => Ok(Some(told_request(alloc, request.get())?)),
        Event::Response { response, .. } => Ok(Some(told_response(alloc, response.get())?)),
        Event::Branch { response, .. } => Ok(Some(told_response(alloc, response.get())?)),
        _ => Ok(None),
    }
}
