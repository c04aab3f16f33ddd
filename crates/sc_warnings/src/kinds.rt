//! The parameters of an application, by its kind. Each kind reads them as its page in the
//! configuration says; a kind that isn't built in has none here.

use crate::lines::{write_counts, write_line, write_quoted};
use crate::targets::{is_uri, write_target};
use sc_ascii::read_u64;
use sc_terms::{AppEntry, Config};
use sc_value::{NoMemory, Text};
use std::alloc::Global;

/// Appends what there is to say of the parameters of an application of this kind.
pub fn write_kind(
    alloc: Global,
    config: &Config,
    kind: &[u8],
    app: &AppEntry,
    out: &mut Text,
) -> Result<(), NoMemory> {
    write_surplus(most_params(kind), app, out)?;
    let params = app.params.as_slice();
    let name = app.name.as_bytes();
    if is_word(kind, b"fork") {
        return write_fork(alloc, config, name, params, out);
    }
    if is_word(kind, b"forward") || is_word(kind, b"recorder") {
        return write_forward(alloc, config, name, params.first(), out);
    }
    if is_word(kind, b"dial") {
        return write_dial(alloc, name, params, out);
    }
    write_plain_kind(kind, name, params, out)
}

/// The kinds whose parameters are no URIs.
fn write_plain_kind(
    kind: &[u8],
    name: &[u8],
    params: &[Text],
    out: &mut Text,
) -> Result<(), NoMemory> {
    if is_word(kind, b"block") {
        return write_block(name, params, out);
    }
    if is_word(kind, b"ringer") {
        return write_ringer(name, params, out);
    }
    if is_word(kind, b"timed") {
        return write_timed(name, params.first(), out);
    }
    if is_word(kind, b"notify") {
        return write_notify(name, params, out);
    }
    Ok(())
}

fn is_word(a: &[u8], b: &[u8]) -> bool {
    a == b
}

/// How many parameters a kind uses, where that is a number.
fn most_params(kind: &[u8]) -> Option<u32> {
    if is_word(kind, b"forward") || is_word(kind, b"recorder") || is_word(kind, b"timed") {
        return Some(1);
    }
    if is_word(kind, b"dial") || is_word(kind, b"ringer") {
        return Some(2);
    }
    if is_word(kind, b"notify") {
        return Some(4);
    }
    if takes_none(kind) { Some(0) } else { None }
}

fn takes_none(kind: &[u8]) -> bool {
    is_word(kind, b"answer")
        || is_word(kind, b"b2b")
        || is_word(kind, b"reverse")
        || is_word(kind, b"early")
}

fn write_surplus(most: Option<u32>, app: &AppEntry, out: &mut Text) -> Result<(), NoMemory> {
    let count = app.params.len();
    match most {
        Some(most) if count > most as usize => write_counts(app.name.as_bytes(), count, most, out),
        _ => Ok(()),
    }
}

fn write_fork(
    alloc: Global,
    config: &Config,
    name: &[u8],
    params: &[Text],
    out: &mut Text,
) -> Result<(), NoMemory> {
    let mut targets: u32 = 0;
    for param in params {
        if is_uri(alloc, param.as_bytes())? {
            targets = targets.saturating_add(1);
        } else {
            write_quoted(
                name,
                param.as_bytes(),
                b"is no URI, and is passed over",
                out,
            )?;
        }
        write_target(alloc, config, name, param.as_bytes(), out)?;
    }
    if targets == 0 {
        write_line(name, b"a fork without a target answers each call 500", out)?;
    }
    Ok(())
}

fn write_forward(
    alloc: Global,
    config: &Config,
    name: &[u8],
    param: Option<&Text>,
    out: &mut Text,
) -> Result<(), NoMemory> {
    let Some(param) = param else {
        return Ok(());
    };
    if is_uri(alloc, param.as_bytes())? {
        return write_target(alloc, config, name, param.as_bytes(), out);
    }
    write_quoted(
        name,
        param.as_bytes(),
        b"is no URI, so requests go on to where they were going",
        out,
    )
}

fn write_dial(alloc: Global, name: &[u8], params: &[Text], out: &mut Text) -> Result<(), NoMemory> {
    match params {
        [from, to, ..] => {
            write_dial_end(alloc, name, from, out)?;
            write_dial_end(alloc, name, to, out)
        }
        _ => write_line(
            name,
            b"dial wants two URIs, so it sends no request of its own",
            out,
        ),
    }
}

fn write_dial_end(
    alloc: Global,
    name: &[u8],
    param: &Text,
    out: &mut Text,
) -> Result<(), NoMemory> {
    if is_uri(alloc, param.as_bytes())? {
        return Ok(());
    }
    write_quoted(
        name,
        param.as_bytes(),
        b"is no URI, so it sends no request of its own",
        out,
    )
}

fn write_block(name: &[u8], params: &[Text], out: &mut Text) -> Result<(), NoMemory> {
    if !params.is_empty() {
        return Ok(());
    }
    write_line(name, b"block without a user turns nobody away", out)
}

fn write_ringer(name: &[u8], params: &[Text], out: &mut Text) -> Result<(), NoMemory> {
    if let Some(time) = params.first() {
        write_ringing_time(name, time.as_bytes(), out)?;
    }
    match params.get(1) {
        Some(word) if !is_word(word.as_bytes(), b"drop") => {
            write_quoted(
                name,
                word.as_bytes(),
                b"isn't \"drop\", and is passed over",
                out,
            )
        }
        _ => Ok(()),
    }
}

fn write_ringing_time(name: &[u8], time: &[u8], out: &mut Text) -> Result<(), NoMemory> {
    if is_within(time, 0, 4_294_967_295) {
        return Ok(());
    }
    write_quoted(
        name,
        time,
        b"is no number of milliseconds, so it rings for 1000",
        out,
    )
}

fn write_timed(name: &[u8], least: Option<&Text>, out: &mut Text) -> Result<(), NoMemory> {
    match least {
        Some(least) if !is_within(least.as_bytes(), 90, 86_400) => {
            write_quoted(
                name,
                least.as_bytes(),
                b"isn't 90 to 86400 seconds, so 90 is taken",
                out,
            )
        }
        _ => Ok(()),
    }
}

fn write_notify(name: &[u8], params: &[Text], out: &mut Text) -> Result<(), NoMemory> {
    if is_rule(params) {
        return Ok(());
    }
    write_line(
        name,
        b"notify wants an event package, its least time (1 to 3600) and its longest, so it answers 500",
        out,
    )
}

/// Whether parameters say of what is notified, as for subscriptions (RFC 6665 section 4.2).
fn is_rule(params: &[Text]) -> bool {
    match params {
        [_, least, longest, ..] => is_range(
            read_u64(least.as_bytes()),
            read_u64(longest.as_bytes()),
        ),
        _ => false,
    }
}

fn is_range(least: Option<u64>, longest: Option<u64>) -> bool {
    match (least, longest) {
        (Some(least), Some(longest)) => {
            1 <= least && least <= 3600 && least <= longest && longest <= 4_000_000
        }
        _ => false,
    }
}

fn is_within(text: &[u8], low: u64, high: u64) -> bool {
    match read_u64(text) {
        Some(number) => low <= number && number <= high,
        None => false,
    }
}
