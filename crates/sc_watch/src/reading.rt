ghost use Rattle.std.specs.Prelude.{◌≡◌, false, true, IfOk, IsSome, IsSomeAnd, OnErr};
ghost use Rattle.std.specs.Arc.{arc_value};
ghost use Rattle.left_right.specs.Sides.{view};
ghost use Rattle.sc_watch.specs.Risings.{IsFrom, IsLater, IsNewest, note_of};

use crate::Note;
use crate::shown::{Sees, WatchReader};
use sc_edge::Listing;
use sc_value::NoMemory;
use std::alloc::{AllocError, Global};
use std::sync::{Arc, Wait};
use std::thread;

/// A reader of a watch. No listing that it gives is before one that it gave, nor before one whose
/// note it learnt.
#[derive(Drop)]
pub struct Reading {
    pub(crate) reader: Option<WatchReader>,
    /// The latest listing that it read, or whose note it learnt.
    pub(crate) floor: Note,
    pub ghost there: { IsSome reader },
}

impl Reading {
    /// Takes in a note of its watch: what it reads from now on isn't before that listing.
    pub fn learn(&mut self, note: Note)
        ensures floor { IsLater self.old.floor note self.new.floor }
        ensures reader { self.new.reader ≡ self.old.reader }
    {
        if is_before(self.floor, note) {
            self.floor = note;
        }
    }

    /// The listing that is shown: one that was put, or the first one. It isn't before any that this
    /// reading gave, nor before one whose note it learnt. It may wait for the writer.
    ///
    /// # Errors
    ///
    /// `NoMemory` where the listing has too many owners.
    pub fn read<R: Wait>(&mut self, rt: &R) -> Result<Arc<Listing, Global>, NoMemory>
        ensures from { IfOk result
            (λ listing. IsFrom self.old.floor (note_of (arc_value listing))) }
        ensures floor { IfOk result (λ listing. self.new.floor ≡ note_of (arc_value listing)) }
        ensures kept { OnErr result (self.new.floor ≡ self.old.floor) }
        ensures put { IfOk result
            (λ listing.
            IsSomeAnd self.new.reader
            (λ reader. IsNewest (arc_value listing) (view reader.place))) }
    {
        for _ in rt.forever() {
            let Some(reader) = self.reader.take() else {
                unreachable!()
            };
            let (reader, read) = read_once(rt, reader);
            self.reader = Some(reader);
            match read {
                Ok(listing) => {
                    let note = note_at(&listing);
                    if !is_before(note, self.floor) {
                        self.floor = note;
                        return Ok(listing);
                    }
                }
                Err(_) => return Err(NoMemory),
            }
            thread::yield_now();
        }
        unreachable!()
    }
}

/// Reads what is shown once `left_right` gives a guard.
fn read_once<R: Wait>(
    rt: &R,
    mut reader: WatchReader,
) -> (WatchReader, Result<Arc<Listing, Global>, AllocError>)
    ensures { IfOk result.1 (λ listing. IsNewest (arc_value listing) (view result.0.place)) }
{
    for _ in rt.forever() {
        match reader.enter_as::<Sees>() {
            Ok(reading) => {
                let listing = Arc::try_clone(&reading.get().listing);
                return (reading.leave(), listing);
            }
            Err(back) => reader = back,
        }
        thread::yield_now();
    }
    unreachable!()
}

/// The note of a listing.
pub(crate) fn note_at(listing: &Listing) -> Note
    ensures { result ≡ note_of listing.now }
{
    Note {
        epoch: listing.epoch,
        steps: listing.steps,
    }
}

/// Whether the first is before the second.
pub(crate) fn is_before(first: Note, second: Note) -> bool
    ensures early { result ≡ true → IsFrom first second }
    ensures late { result ≡ false → IsFrom second first }
{
    first.epoch < second.epoch || (first.epoch == second.epoch && first.steps < second.steps)
}
