ghost use Rattle.std.specs.Prelude.{◌≡◌, ◌<◌, IfOk, IsSome, IsSomeAnd, OnErr, OnOk};
ghost use Rattle.std.specs.Arc.{arc_value};
ghost use Rattle.std.specs.Option.{ForSome};
ghost use Rattle.left_right.specs.Sides.{view};
ghost use Rattle.sc_watch.specs.Risings.{IsFrom, IsNewest, note_of};

use crate::reading::note_at;
use crate::shown::{Sees, Shown, WatchReader, WatchWriter};
use crate::{Note, Reading};
use left_right::writer::Writer;
use sc_edge::Listing;
use sc_value::{List, NoMemory};
use std::alloc::{AllocError, Global};
use std::sync::{Arc, Wait};

/// What lives in a server, for readers in other threads. It isn't `Drop`: end it by `end`.
pub struct Watch {
    alloc: Global,
    writer: Option<WatchWriter>,
    /// The listing that is shown.
    last: Note,
    ghost there: { IsSome writer },
    ghost shown: { ForSome writer (λ writer. note_of (arc_value writer.desk.shown.value.listing) ≡ last) },
}

impl Watch {
    /// A watch, and so many readings of it. It shows the listing of epoch 0 without steps.
    ///
    /// # Errors
    ///
    /// `NoMemory` for want of memory.
    pub fn new<R: Wait>(
        rt: &R,
        alloc: Global,
        readers: usize,
    ) -> Result<(Watch, List<Reading>), NoMemory>
        requires { (0 < readers) × (readers < 4294967296) }
        ensures { IfOk result (λ made. made.0.last ≡ record { epoch = 0; steps = 0 }) }
    {
        let first = Arc::new(alloc, opening(alloc))?;
        let writer = begun(alloc, first, readers)?;
        match readings_of(alloc, &writer, readers) {
            Ok(readings) => {
                let watch = Watch {
                    alloc,
                    writer: Some(writer),
                    last: Note { epoch: 0, steps: 0 },
                };
                Ok((watch, readings))
            }
            Err(NoMemory) => {
                writer.take(rt);
                Err(NoMemory)
            }
        }
    }

    /// Puts a listing, which is shown from then on. It isn't before the one that was put last. It
    /// may wait for readers.
    ///
    /// # Errors
    ///
    /// `NoMemory` for want of memory. The listing that was shown is shown still.
    pub fn put<R: Wait>(&mut self, rt: &R, listing: Listing) -> Result<(), NoMemory>
        requires { IsFrom self.old.last (note_of listing) }
        ensures ok { OnOk result (self.new.last ≡ note_of listing) }
        ensures shown { OnOk result
            (IsSomeAnd self.new.writer (λ writer. IsNewest listing (view writer.desk.place))) }
        ensures err { OnErr result (self.new.last ≡ self.old.last) }
    {
        let note = note_at(&listing);
        let shared = Arc::new(self.alloc, listing)?;
        let Some(writer) = self.writer.take() else {
            unreachable!()
        };
        let (writer, put) = show(rt, writer, shared);
        match self.writer.replace(writer) {
            None => {}
            Some(old) => {
                old.take(rt);
            }
        }
        match put {
            Ok(()) => {
                self.last = note;
                Ok(())
            }
            Err(_) => Err(NoMemory),
        }
    }

    /// The note of the listing that was put last, or of the first one.
    pub fn tell(&self) -> Note
        ensures { result ≡ self.now.last }
    {
        self.last
    }

    /// Ends it, once no reader reads.
    pub fn end<R: Wait>(self, rt: &R) {
        let Watch {
            alloc: _,
            writer,
            last: _,
        } = self;
        let Some(writer) = writer else { unreachable!() };
        writer.take(rt);
    }
}

/// The listing of epoch 0 without steps.
fn opening(alloc: Global) -> Listing
    ensures { note_of result ≡ record { epoch = 0; steps = 0 } }
{
    Listing {
        epoch: 0,
        steps: 0,
        live: List::new(alloc),
        waiting: 0,
    }
}

/// A writer that shows this listing, with room for so many readers.
fn begun(
    alloc: Global,
    first: Arc<Listing, Global>,
    readers: usize,
) -> Result<WatchWriter, AllocError>
    requires { (0 < readers) × (readers < 4294967296) }
    ensures { IfOk result (λ writer. arc_value writer.desk.shown.value.listing ≡ arc_value first) }
{
    let second = Arc::try_clone(&first)?;
    let first = Shown { listing: first };
    let second = Shown { listing: second };
    Writer::new(alloc, first, second, readers)
}

/// So many readings of what this writer shows.
fn readings_of(
    alloc: Global,
    writer: &WatchWriter,
    readers: usize,
) -> Result<List<Reading>, NoMemory> {
    let mut readings = List::new(alloc);
    for _ in 0..readers {
        readings.push(reading_of(writer)?)?;
    }
    Ok(readings)
}

/// A reading of what this writer shows.
fn reading_of(writer: &WatchWriter) -> Result<Reading, NoMemory> {
    let reader: WatchReader = writer.factory().reader()?;
    Ok(Reading {
        reader: Some(reader),
        floor: Note { epoch: 0, steps: 0 },
    })
}

/// Shows a listing that isn't before the one that is shown.
fn show<R: Wait>(
    rt: &R,
    mut writer: WatchWriter,
    listing: Arc<Listing, Global>,
) -> (WatchWriter, Result<(), AllocError>)
    requires { IsFrom (note_of (arc_value writer.desk.shown.value.listing))
        (note_of (arc_value listing)) }
    ensures ok { OnOk result.1 (arc_value result.0.desk.shown.value.listing ≡ arc_value listing) }
    ensures seen { OnOk result.1 (IsNewest (arc_value listing) (view result.0.desk.place)) }
    ensures err { OnErr result.1
        (arc_value result.0.desk.shown.value.listing ≡ arc_value writer.desk.shown.value.listing) }
{
    if writer.append(listing).is_err() {
        return (writer, Err(AllocError));
    }
    writer.publish_as::<Sees, R>(rt)
}
