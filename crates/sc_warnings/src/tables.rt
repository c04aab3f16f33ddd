//! The routing table.

use crate::lines::write_line;
use crate::methods::{is_beginning, is_later};
use crate::tuples::write_tuple;
use sc_terms::{Dar, MethodList};
use sc_value::{NoMemory, Text};

/// Appends what there is to say of the table.
pub fn write_table(dar: &Dar, out: &mut Text) -> Result<(), NoMemory> {
    if dar.lists.is_empty() {
        return write_line(
            b"the table",
            b"it has no line, so no application gets a request",
            out,
        );
    }
    for list in dar.lists.as_slice() {
        write_method(list.method.as_bytes(), out)?;
        write_tuples(list, out)?;
    }
    Ok(())
}

fn write_method(method: &[u8], out: &mut Text) -> Result<(), NoMemory> {
    if is_beginning(method) {
        return Ok(());
    }
    if is_later(method) {
        return write_line(
            method,
            b"such a request begins nothing, so its line isn't used",
            out,
        );
    }
    write_line(method, b"SIP has no method of this name", out)
}

fn write_tuples(list: &MethodList, out: &mut Text) -> Result<(), NoMemory> {
    for tuple in list.tuples.as_slice() {
        write_tuple(list.method.as_bytes(), tuple, out)?;
    }
    Ok(())
}
