ghost use Rattle.std.specs.Prelude.{List, Option, None};
ghost use Rattle.sc_edge.specs.Telling.{Notes};

use crate::Listing;

/// What a notice is told.
#[derive(Drop)]
pub enum Noted<J> {
    /// The journal of the epoch has this many steps now.
    Step(u64),
    /// The steps of the running epoch that were handed on.
    Part(J),
    /// The epoch of this number, which began at this moment, has ended with this journal, or with
    /// what of it wasn't handed on before.
    Epoch(u32, u64, J),
    /// What lives now.
    List(Listing),
}

/// Who is told how the run goes on. `J` is what an epoch leaves, its journal.
pub trait Notice<J: Drop> {
    ghost use Rattle.sc_edge.specs.declared.notice.Noted.{Noted};

    // all that it was told, in order; `None` where it doesn't tell
    ghost noted: { Self → Option (List (Noted J)) };

    /// The journal has `count` steps now. It is told after each step.
    fn step(&mut self, count: u64)
        ensures { Notes (noted self.old) (noted self.new) (Noted.Step count) };

    /// The epoch of this number has ended, which began at moment `began`; here is its journal.
    fn epoch(&mut self, number: u32, began: u64, journal: J)
        ensures { Notes (noted self.old) (noted self.new) (Noted.Epoch number began journal) };

    /// What lives now.
    fn list(&mut self, listing: Listing)
        ensures { Notes (noted self.old) (noted self.new) (Noted.List listing) };

    /// Here are the steps of the running epoch that were kept so far; the epoch goes on. A notice
    /// that doesn't tell may let them go.
    fn part(&mut self, journal: J)
        ensures { Notes (noted self.old) (noted self.new) (Noted.Part journal) };
}

/// A notice that drops what it is told.
#[derive(Clone, Copy, Debug, PartialEq, Eq)]
pub struct NoNotice;

impl<J: Drop> Notice<J> for NoNotice {
    ghost noted = { λ _. None };

    fn step(&mut self, _count: u64) {}

    fn epoch(&mut self, _number: u32, _began: u64, _journal: J) {}

    fn list(&mut self, _listing: Listing) {}

    fn part(&mut self, _journal: J) {}
}
