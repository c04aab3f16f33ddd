ghost use Rattle.std.specs.Prelude.{◌≡◌, ◌≤◌, ◌+◌, [], true, false, OnErr, OnOk};
ghost use Rattle.sc_value.specs.declared.ids.Place.{Place};
ghost use Rattle.sc_outs.specs.Owing.{left_at};
ghost use Rattle.sc_serve.specs.Closing.{Adds};

use crate::watch::Watch;
use sc_rounds::{Came, Core, Went};
use sc_streams::Streams;
use sc_value::{List, NoMemory, Place};
use std::alloc::Global;

/// How many bytes a poll brings at most.
const ROOM: usize = 4_096;

/// So many rounds in a row go by at most without a poll.
const MOST_UNPOLLED: u32 = 15;

/// Where more application sessions live, what lives is told each second at most while nothing else
/// is to do.
const FEW: u64 = 256;

/// What a server holds between two rounds.
#[derive(Drop)]
pub struct Server {
    pub core: Core,
    pub streams: Streams,
    pub watch: Watch,
    /// The places that gave what is no message, until they are closed.
    pub broken: List<Place>,
    /// How many rounds in a row went by without a poll.
    pub unpolled: u32,
    /// The moment at which the last round began, in milliseconds.
    pub moment: u64,
    /// Whether the clock has gone on so far that what lives is to be told.
    pub ticked: bool,
    /// Where the edge puts what came.
    pub room: [u8; 4096],
}

impl Server {
    /// A server over a switch that took no step, of which no place gave anything.
    pub fn new(alloc: Global, core: Core, stop_after: u64) -> Server
        ensures core { result.core ≡ core }
        ensures streams { result.streams ≡ [] }
        ensures broken { result.broken ≡ [] }
        ensures unpolled { result.unpolled ≡ 0 }
    {
        Server {
            core,
            streams: Streams::new(alloc),
            watch: Watch::new(alloc, stop_after),
            broken: List::new(alloc),
            unpolled: 0,
            moment: 0,
            ticked: true,
            room: [0; ROOM],
        }
    }

    /// Begins a round: whether it polls the edge. It doesn't while a turn is due, so that what came
    /// is worked on before more is heard; but one of 16 rounds does in any case.
    pub fn takes_more(&mut self) -> bool
        ensures core { self.new.core ≡ self.old.core }
        ensures streams { self.new.streams ≡ self.old.streams }
        ensures broken { self.new.broken ≡ self.old.broken }
        ensures more { result ≡ true → self.new.unpolled ≡ 0 }
        ensures none { result ≡ false → self.new.unpolled ≡ self.old.unpolled + 1 }
        ensures few { result ≡ false → self.new.unpolled ≤ 15 }
    {
        let now = self.core.switch.now();
        let is_untold = self.ticked && !self.core.is_listed();
        self.ticked = is_untold || goes_on(self.moment, now, self.core.switch.live());
        self.moment = now;
        if self.core.is_turn_due() && self.unpolled < MOST_UNPOLLED {
            self.unpolled += 1;
            return false;
        }
        self.unpolled = 0;
        true
    }

    /// Whether telling what lives waits for more steps, as there is other work, or it would come
    /// more often than the clock goes on. At the end nothing is waited for.
    pub fn puts_off_listing(&self, is_busy: bool) -> bool {
        is_busy || self.core.switch.leases() > 0 || !(self.ticked || self.watch.is_over())
    }

    /// Remembers what came: whether anything did.
    #[tactic(auto, unfolding(crate::specs::Closing::Adds))]
    pub fn note(&mut self, came: Came) -> Result<bool, NoMemory>
        ensures core { self.new.core ≡ self.old.core }
        ensures streams { self.new.streams ≡ self.old.streams }
        ensures broken { OnOk result (Adds came self.old.broken self.new.broken) }
        ensures same { OnErr result (self.new.broken ≡ self.old.broken) }
        ensures unpolled { self.new.unpolled ≡ self.old.unpolled }
    {
        match came {
            Came::Nothing => Ok(false),
            Came::Bytes(place) => {
                self.watch.note_open(place)?;
                Ok(true)
            }
            Came::Broken(place) => {
                self.watch.note_open(place)?;
                self.broken.push(place)?;
                Ok(true)
            }
            Came::End(place) => {
                self.watch.note_end(place);
                Ok(true)
            }
            Came::Closed => {
                self.watch.close();
                Ok(false)
            }
            Came::Fault => Ok(false),
        }
    }

    /// Remembers what a put to a place came to: whether bytes were taken, or the place failed. Only
    /// a connection that the server made can begin by a put; one that ended before isn't open again
    /// by what is still put on it.
    pub fn note_put(&mut self, place: Place, went: Went) -> Result<bool, NoMemory>
        ensures core { self.new.core ≡ self.old.core }
        ensures streams { self.new.streams ≡ self.old.streams }
        ensures broken { self.new.broken ≡ self.old.broken }
        ensures unpolled { self.new.unpolled ≡ self.old.unpolled }
    {
        match went {
            Went::On => {
                if is_made_here(place) {
                    self.watch.note_open(place)?;
                }
                Ok(true)
            }
            Went::Nothing => Ok(false),
            Went::Failed => {
                self.watch.note_loss(place);
                Ok(true)
            }
        }
    }

    /// Whether the run is over: no more is waited for, no event waits, no turn is lent out, nothing
    /// is left to be put, no place is to be closed, and the notice was told what lives behind the
    /// last step.
    pub fn is_done(&self) -> bool
        ensures left { result ≡ true → (place : Place) → left_at self.now.core.outs place ≡ [] }
        ensures closed { result ≡ true → self.now.broken ≡ [] }
        ensures listed { result ≡ true → self.now.core.unlisted ≡ 0 }
    {
        self.watch.is_over()
            && self.core.switch.waiting() == 0
            && self.core.switch.leases() == 0
            && self.has_closed_all()
            && self.core.outs.is_empty()
            && self.core.is_listed()
    }

    /// Whether no place that gave what is no message is still to be closed.
    fn has_closed_all(&self) -> bool
        ensures { result ≡ true → self.now.broken ≡ [] }
    {
        self.broken.is_empty()
    }
}

/// Whether the server makes the connections of a place itself.
fn is_made_here(place: Place) -> bool {
    matches!(place, Place::To(..))
}

/// Whether the clock goes on from one moment to another so far that what lives is to be told, where
/// so many sessions live. A listing walks over them, so many are told each second and not at each
/// moment.
fn goes_on(before: u64, now: u64, live: u64) -> bool {
    if live > FEW {
        now / 1_000 != before / 1_000
    } else {
        now != before
    }
}
