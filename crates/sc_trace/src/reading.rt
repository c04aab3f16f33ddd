//! Reading the script.

use sc_edge::{Shelf, Shelved};
use sc_replay::Status;
use sc_script::{ScriptRefused, read_lines};
use sc_terms::Line;
use sc_value::{List, NoMemory, Text};
use std::alloc::Global;

/// The most bytes of a script.
const LONGEST: usize = 67_108_864;

/// The lines of the script that the shelf holds under a name, or how the program ends, as of
/// `replay`.
pub fn read_script<F: Shelf>(
    alloc: Global,
    name: &String,
    shelf: &mut F,
) -> Result<List<Line>, Status> {
    let Ok(name) = Text::from_slice(alloc, name.as_bytes()) else {
        return Err(Status::NoMemory);
    };
    match shelf.read(&name, LONGEST) {
        Shelved::Got(text) => lines_of(alloc, &text),
        Shelved::Long => Err(Status::Script {
            at: LONGEST,
            kind: 7,
        }),
        Shelved::Failed => Err(Status::Read),
        Shelved::NoMemory => Err(Status::NoMemory),
    }
}

fn lines_of(alloc: Global, text: &Text) -> Result<List<Line>, Status> {
    match read_lines(alloc, text.as_bytes()) {
        Ok(lines) => Ok(lines),
        Err(ScriptRefused::Refused { at, kind }) => Err(Status::Script { at, kind }),
        Err(ScriptRefused::NoMemory) => Err(Status::NoMemory),
    }
}
