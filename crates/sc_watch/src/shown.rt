//! What is shown, and the rule under which it is.

ghost use Rattle.std.specs.Arc.{arc_value};

use crossbeam_utils::rule::{Outcome, Protocol};
use left_right::Absorb;
use left_right::reader::Reader;
use left_right::writer::Writer;
use sc_edge::Listing;
use std::alloc::{AllocError, Global};
use std::collections::LinkedList;
use std::sync::Arc;

/// The listing that readers take.
#[derive(Drop)]
pub struct Shown {
    pub listing: Arc<Listing, Global>,
}

impl Absorb<Arc<Listing, Global>> for Shown {
    type State = Listing;

    ghost state = { λ s. arc_value s.listing };

    ghost applied = { λ _ listing. arc_value listing };

    fn absorb_first(
        &mut self,
        operation: &Arc<Listing, Global>,
        _other: &Shown,
    ) -> Result<(), AllocError> {
        self.listing = Arc::try_clone(operation)?;
        Ok(())
    }
}

/// What a thread knows of the listings that were put. It stands in contracts alone: no value of it
/// is made.
pub struct Knows {
    /// Those that were put until the one that it put or read last, the newest first.
    pub seen: LinkedList<Listing>,
}

pub struct Rises;

impl Protocol<Shown, Knows> for Rises {
    ghost use Rattle.sc_watch.specs.Keeping.{Keeps};
    ghost use Rattle.sc_watch.specs.Risings.{knows_none};

    ghost holds = { Keeps };

    ghost first = { knows_none };
}

/// The step of a thread that puts or reads a listing.
pub(crate) struct Sees;

impl Outcome<Shown, Knows> for Sees {
    ghost use Rattle.sc_watch.specs.Keeping.{SeesShown};

    ghost then = { SeesShown };
}

pub type WatchWriter = Writer<Shown, Arc<Listing, Global>, Knows, Rises>;

pub type WatchReader = Reader<Shown, Knows, Rises>;
