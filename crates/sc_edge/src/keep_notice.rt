ghost use Rattle.std.specs.Prelude.{◌≡◌, Some, [], option_map};
ghost use Rattle.sc_edge.specs.Telling.{Notes};

use crate::{Listing, Noted, Notice};
use sc_value::List;
use std::alloc::Global;
use std::marker::Model;

/// A notice that keeps all that it is told. Once memory for it was refused, it tells nothing any
/// more.
#[derive(Drop)]
pub struct KeepNotice<J> {
    noted: List<Noted<J>>,
    is_whole: bool,
}

impl<J> Model for KeepNotice<J> {
    ghost use Rattle.std.specs.Prelude.{List as Items, Option, Some, None, if◌then◌else◌};
    ghost use Rattle.sc_edge.specs.declared.notice.Noted.{Noted as Told};

    ghost Value = { Option (Items (Told J)) };

    ghost view = { λ s. if s.is_whole then Some s.noted else None };
}

impl<J: Drop> KeepNotice<J> {
    /// A notice that was told nothing yet.
    pub fn new(alloc: Global) -> KeepNotice<J>
        ensures { result ≡ Some [] }
    {
        KeepNotice {
            noted: List::new(alloc),
            is_whole: true,
        }
    }

    /// All that it was told, in order; `None` once memory for it was refused.
    pub fn noted(&self) -> Option<&[Noted<J>]>
        ensures { option_map (λ noted. noted.now) result ≡ self.now }
    {
        if self.is_whole {
            Some(self.noted.as_slice())
        } else {
            None
        }
    }

    fn note(&mut self, noted: Noted<J>)
        ensures { Notes self.old self.new noted }
    {
        if self.is_whole {
            self.is_whole = self.noted.push(noted).is_ok();
        }
    }
}

impl<J: Drop> Notice<J> for KeepNotice<J> {
    ghost noted = { λ s. s };

    fn step(&mut self, count: u64) {
        self.note(Noted::Step(count));
    }

    fn epoch(&mut self, number: u32, began: u64, journal: J) {
        self.note(Noted::Epoch(number, began, journal));
    }

    fn list(&mut self, listing: Listing) {
        self.note(Noted::List(listing));
    }

    fn part(&mut self, journal: J) {
        self.note(Noted::Part(journal));
    }
}
