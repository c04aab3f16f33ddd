ghost use Rattle.std.specs.Prelude.{◌≡◌, ◌<◌, ◌≤◌, ◌^◌, true};
ghost use Rattle.sc_servlets.specs.Ranges.{is_numbered_below};

use sc_terms::{Event, View};
use sc_value::{AppId, CloneIn, Discard, NoMemory, Same, Shared};
use std::alloc::Global;

/// A turn that is lent out to be made: what it is shown, and by which numbers it is known. A copy
/// shares what is shown.
#[derive(Drop)]
pub struct Lease {
    /// The number of the lease, from 1.
    pub number: u64,
    pub app: AppId,
    /// The place of the application's kind in the catalogue.
    pub kind: usize,
    /// The number of the event.
    pub event_number: u64,
    /// What the turn shows. Its moment is at most 2^63, the last number drawn below 2^62, and the
    /// next request's and timer's number and that of every SipSession below 2^31.
    pub shown: Shared<View>,
    /// The event, None where the application session is handled without one.
    pub event: Option<Shared<Event>>,
    pub ghost moment: { shown.now ≤ 2 ^ 63 },
    pub ghost counter: { shown.counter < 2 ^ 62 },
    pub ghost next_request: { shown.next_request < 2 ^ 31 },
    pub ghost next_timer: { shown.next_timer < 2 ^ 31 },
    pub ghost sessions: { is_numbered_below (2 ^ 31) shown.sessions ≡ true },
}

impl CloneIn for Lease {
    fn clone_in(&self, alloc: Global) -> Result<Lease, NoMemory> {
        let shown = self.shown.clone_in(alloc)?;
        match self.event.clone_in(alloc) {
            Ok(event) => Ok(Lease {
                number: self.number,
                app: self.app,
                kind: self.kind,
                event_number: self.event_number,
                shown,
                event,
            }),
            Err(NoMemory) => {
                drop(shown);
                Err(NoMemory)
            }
        }
    }
}

impl Same for Lease {
    fn same(&self, other: &Lease) -> bool {
        self.number == other.number
            && self.app.same(&other.app)
            && self.kind == other.kind
            && self.event_number == other.event_number
            && self.shown.same(&other.shown)
            && self.event.same(&other.event)
    }
}

impl Discard for Lease {
    fn discard(self) {
        drop(self);
    }
}
