//! The applications.

use crate::kinds::write_kind;
use crate::lines::write_line;
use sc_terms::{AppEntry, Config, Dar, MethodList, Tuple};
use sc_value::{NoMemory, Text};
use std::alloc::Global;

/// Appends what there is to say of each application.
pub fn write_apps(
    alloc: Global,
    config: &Config,
    dar: &Dar,
    kinds: &[Text],
    out: &mut Text,
) -> Result<(), NoMemory> {
    let mut host: u32 = 0;
    for app in config.app.as_slice() {
        write_unnamed(dar.lists.as_slice(), host, app, out)?;
        write_app(alloc, config, kinds, app, out)?;
        host = host.saturating_add(1);
    }
    Ok(())
}

/// The application of a host that no tuple names.
fn write_unnamed(
    lists: &[MethodList],
    host: u32,
    app: &AppEntry,
    out: &mut Text,
) -> Result<(), NoMemory> {
    if lists
        .iter()
        .any(|list| is_named(list.tuples.as_slice(), host))
    {
        return Ok(());
    }
    write_line(
        app.name.as_bytes(),
        b"no tuple of the table names it, so it gets no request",
        out,
    )
}

fn is_named(tuples: &[Tuple], host: u32) -> bool {
    tuples.iter().any(|tuple| tuple.app == host)
}

fn write_app(
    alloc: Global,
    config: &Config,
    kinds: &[Text],
    app: &AppEntry,
    out: &mut Text,
) -> Result<(), NoMemory> {
    match kinds.get(app.kind) {
        Some(kind) => write_kind(alloc, config, kind.as_bytes(), app, out),
        None => Ok(()),
    }
}
