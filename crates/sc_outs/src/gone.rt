//! The peers' connections that failed.

ghost use Rattle.std.specs.Prelude.{◌≡◌, [], OnOk, OnErr};
ghost use Rattle.sc_outs.specs.Owing.{IsGoneToo, is_among, is_gone_from};

use sc_value::{NoMemory, Place};
use std::alloc::Global;
use std::collections::BTreeSet;
use std::marker::Model;

/// The numbers of the peers' connections that failed.
#[derive(Drop)]
pub struct Gone {
    numbers: BTreeSet<u64>,
}

impl Model for Gone {
    ghost use Rattle.std.specs.Prelude.{List, ℕ};

    ghost Value = { List ℕ };

    ghost view = { λ s. s.numbers.keys };
}

impl Gone {
    /// None has failed. It takes no memory.
    pub fn new(alloc: Global) -> Gone
        ensures { result ≡ [] }
    {
        Gone {
            numbers: BTreeSet::new(alloc),
        }
    }

    fn has_number(&self, number: u64) -> bool
        ensures { result ≡ is_among self.now number }
    {
        self.numbers.contains(&number)
    }

    /// Whether the place is a peer's connection that failed.
    #[tactic(auto, unfolding(crate::specs::Owing::is_gone_from))]
    pub fn has(&self, place: Place) -> bool
        ensures { result ≡ is_gone_from self.now place }
    {
        match place {
            Place::Back(number) => self.has_number(number),
            Place::To(_, _) => false,
        }
    }

    fn add_number(&mut self, number: u64) -> Result<(), NoMemory>
        ensures ok { OnOk result (IsGoneToo (Place.Back number) self.old self.new) }
        ensures err { OnErr result (self.new ≡ self.old) }
    {
        self.numbers.insert(number)?;
        Ok(())
    }

    /// The place failed. An address changes nothing, since it may be connected to anew.
    pub fn add(&mut self, at: Place) -> Result<(), NoMemory>
        ensures ok { OnOk result (IsGoneToo at self.old self.new) }
        ensures err { OnErr result (self.new ≡ self.old) }
    {
        match at {
            Place::Back(number) => self.add_number(number),
            Place::To(_, _) => Ok(()),
        }
    }
}
