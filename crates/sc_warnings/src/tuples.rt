//! The tuples of the routing table.

use crate::lines::{write_line, write_quoted};
use sc_terms::{Modifier, Tuple};
use sc_value::{NoMemory, Text, is_system_name, is_token, long_name, same_name};

/// Appends what there is to say of a tuple of this method.
pub fn write_tuple(method: &[u8], tuple: &Tuple, out: &mut Text) -> Result<(), NoMemory> {
    write_route(method, tuple.modifier, tuple.route.is_some(), out)?;
    write_subscriber(method, tuple.subscriber.as_bytes(), out)
}

/// A route that isn't used, or one that is missing.
fn write_route(
    method: &[u8],
    modifier: Modifier,
    has_route: bool,
    out: &mut Text,
) -> Result<(), NoMemory> {
    match (modifier, has_route) {
        (Modifier::NoRoute, true) => {
            write_line(method, b"a route beside NO_ROUTE isn't used", out)
        }
        (Modifier::Route, false) => {
            write_line(method, b"ROUTE without a route does nothing", out)
        }
        (Modifier::RouteBack, false) => {
            write_line(method, b"ROUTE_BACK without a route does nothing", out)
        }
        _ => Ok(()),
    }
}

/// A subscriber that is always the same text, though it looks as if a header gave it.
fn write_subscriber(method: &[u8], subscriber: &[u8], out: &mut Text) -> Result<(), NoMemory> {
    if subscriber.len() < 4 || !same_name(&subscriber[..4], b"DAR:") {
        return Ok(());
    }
    if &subscriber[..4] != b"DAR:".as_slice() {
        return write_quoted(
            method,
            subscriber,
            b"doesn't begin with DAR:, so it is taken as it is",
            out,
        );
    }
    if is_readable(long_name(&subscriber[4..])) {
        return Ok(());
    }
    write_quoted(
        method,
        subscriber,
        b"names no header that the router can read, so the subscriber is empty",
        out,
    )
}

/// Whether the router can read a header of this name.
fn is_readable(name: &[u8]) -> bool {
    is_address(name) || is_token(name) && !is_system_name(name)
}

fn is_address(name: &[u8]) -> bool {
    same_name(name, b"From")
        || same_name(name, b"To")
        || same_name(name, b"Contact")
        || same_name(name, b"Request-URI")
}
