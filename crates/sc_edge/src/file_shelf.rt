ghost use Rattle.std.specs.Prelude.{◌≡◌, None, Some};
ghost use Rattle.sc_edge.specs.Shelving.{Gives};

use crate::plan::counted;
use crate::{Shelf, Shelved};
use sc_value::{NoMemory, Text};
use std::alloc::Global;
use std::io::{ErrorKind, Read};
use std::marker::Model;
use std::rt::Files;
use std::{fs, io, str};

/// The files of the system, read by their names, which have to be UTF-8. What they hold is not
/// told.
#[derive(Drop)]
pub struct FileShelf<'a, R> {
    rt: &'a R,
    alloc: Global,
    faults: u64,
}

// A contract sees its count of faults.
impl<'a, R> Model for FileShelf<'a, R> {
    ghost use Rattle.std.specs.Prelude.{ℕ};

    ghost Value = { ℕ };

    ghost view = { λ s. s.faults };
}

impl<'a, R: Files> FileShelf<'a, R> {
    /// The files that this runtime reaches.
    pub fn new(rt: &'a R, alloc: Global) -> FileShelf<'a, R>
        ensures { result ≡ 0 }
    {
        FileShelf {
            rt,
            alloc,
            faults: 0,
        }
    }

    /// How many reads failed.
    pub fn faults(&self) -> u64
        ensures { result ≡ self.now }
    {
        self.faults
    }
}

impl<R: Files> Shelf for FileShelf<'_, R> {
    ghost holds = { λ _ _. None };

    ghost faults = { λ s. s };

    fn read(&mut self, name: &Text, max: usize) -> Shelved {
        match front_of(self.rt, self.alloc, name.as_bytes(), max.saturating_add(1)) {
            Ok(front) => whole(self.alloc, front, max),
            Err(e) if e.kind() == ErrorKind::OutOfMemory => Shelved::NoMemory,
            Err(_) => {
                self.faults = counted(self.faults);
                Shelved::Failed
            }
        }
    }
}

// The first bytes of a file, at most `most`; fewer only where the file has fewer.
fn front_of<R: Files>(rt: &R, alloc: Global, name: &[u8], most: usize) -> io::Result<Vec<u8>> {
    let Ok(path) = str::from_utf8(name) else {
        return Err(io::Error::from(ErrorKind::InvalidFilename));
    };
    let mut bytes = Vec::new(alloc);
    fs::open(rt, path)?
        .take(most as u64)
        .read_to_end(&mut bytes)?;
    Ok(bytes)
}

// The answer for an item that begins with these bytes, which are all of it if they are at most
// `max`.
fn whole(alloc: Global, front: Vec<u8>, max: usize) -> Shelved
    ensures { Gives result (Some front.items) max ⊥ }
{
    if front.len() > max {
        return Shelved::Long;
    }
    match Text::from_vec(alloc, front) {
        Ok(text) => Shelved::Got(text),
        Err(NoMemory) => Shelved::NoMemory,
    }
}
