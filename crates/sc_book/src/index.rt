ghost use Rattle.std.specs.Prelude.{◌≡◌, ◌==◌, ◌<◌, ℕ, [], OnOk, true, not};
ghost use Rattle.sc_book.specs.Pairs.{has_pair, Grown, KeptBut};
ghost use Rattle.sc_book.specs.Gathering.{MorePlaces, has_place, pairs_below, pairs_from, pairs_up, with_places};

use sc_value::NoMemory;
use std::alloc::Global;
use std::collections::BTreeSet;
use std::marker::Model;

/// An index: pairs of a number and of the place of an item that has it, in order.
#[derive(Drop)]
pub struct Index {
    pub(crate) pairs: BTreeSet<(u64, u64)>,
}

impl Model for Index {
    ghost use Rattle.std.specs.Prelude.{List, ℕ};

    ghost Value = { List (ℕ × ℕ) };

    ghost view = { λ i. i.pairs.keys };
}

impl Index {
    /// No pairs. It takes no memory.
    pub fn new(alloc: Global) -> Index
        ensures { result ≡ [] }
    {
        Index {
            pairs: BTreeSet::new(alloc),
        }
    }

    /// No pairs from now on.
    pub fn clear(&mut self)
        ensures { self.new ≡ [] }
    {
        self.pairs.clear();
    }

    /// One pair more.
    pub fn add(&mut self, number: u64, place: u64) -> Result<(), NoMemory>
        ensures grown { Grown self.old self.new }
        ensures there { OnOk result (has_pair self.new number place ≡ true) }
    {
        self.pairs.insert((number, place))?;
        Ok(())
    }

    /// One pair less.
    pub fn take(&mut self, number: u64, place: u64)
        ensures { KeptBut (λ v. not (number == v)) place self.old self.new }
    {
        self.pairs.remove(&(number, place));
    }

    /// Adds the places of the numbers below this one.
    #[tactic(auto, using(crate::proofs::PlaceSets::below_there))]
    pub fn places_below(&self, past: u64, places: &mut BTreeSet<u64>) -> Result<(), NoMemory>
        ensures { OnOk result
            ((v p : ℕ) → v < past → has_pair self.now v p ≡ true
            → has_place places.new.keys p ≡ true) }
    {
        add_below(&self.pairs, past, places)
    }

    /// Adds the places of a number.
    #[tactic(auto, using(crate::proofs::PlaceSets::from_more, crate::proofs::PlaceSets::from_there, crate::proofs::PlaceSets::up_more, crate::proofs::PlaceSets::up_there, crate::proofs::PlaceSets::more_own, crate::proofs::PlaceSets::none_there))]
    pub fn places_at(&self, number: u64, places: &mut BTreeSet<u64>) -> Result<(), NoMemory>
        ensures more { OnOk result (MorePlaces places.old.keys places.new.keys) }
        ensures there { OnOk result
            ((p : ℕ) → has_pair self.now number p ≡ true → has_place places.new.keys p ≡ true) }
    {
        if self.pairs.is_empty() {
            return Ok(());
        }
        if number == u64::MAX {
            add_up(&self.pairs, number, places)
        } else {
            add_from(&self.pairs, number, number + 1, places)
        }
    }
}

fn add_below(
    pairs: &BTreeSet<(u64, u64)>,
    past: u64,
    places: &mut BTreeSet<u64>,
) -> Result<(), NoMemory>
    ensures { OnOk result
        (places.new.keys ≡ with_places places.old.keys (pairs_below past pairs.now)) }
{
    for pair in pairs.range(..(past, 0)) {
        places.insert(pair.1)?;
    }
    Ok(())
}

#[tactic(auto, using(crate::proofs::PlaceSets::in_turn))]
fn add_from(
    pairs: &BTreeSet<(u64, u64)>,
    low: u64,
    past: u64,
    places: &mut BTreeSet<u64>,
) -> Result<(), NoMemory>
    requires { low < past }
    ensures { OnOk result
        (places.new.keys ≡ with_places places.old.keys (pairs_from low past pairs.now)) }
{
    for pair in pairs.range((low, 0)..(past, 0)) {
        places.insert(pair.1)?;
    }
    Ok(())
}

fn add_up(
    pairs: &BTreeSet<(u64, u64)>,
    low: u64,
    places: &mut BTreeSet<u64>,
) -> Result<(), NoMemory>
    ensures { OnOk result (places.new.keys ≡ with_places places.old.keys (pairs_up low pairs.now)) }
{
    for pair in pairs.range((low, 0)..) {
        places.insert(pair.1)?;
    }
    Ok(())
}
