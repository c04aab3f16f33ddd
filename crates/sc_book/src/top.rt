ghost use Rattle.std.specs.Prelude.{◌≡◌, true, OnOk};
ghost use Rattle.std.specs.Option.{option_copied};
ghost use Rattle.sc_book.specs.Gathering.{MorePlaces, has_place};
ghost use Rattle.sc_book.specs.Places.{at_place, with_item_at};

use crate::Item;
use crate::entry::Entry;
use crate::shared_base::SharedBase;
use sc_value::{CloneIn, NoMemory};
use std::alloc::Global;
use std::collections::BTreeSet;

/// A change of one item, which lies over a base.
#[derive(Drop)]
pub struct Top<T: Item> {
    pub place: u64,
    /// None takes the item away.
    pub change: Option<Entry<T>>,
}

/// The item at a place of a base with this change over it.
#[tactic(auto, using(crate::proofs::TopLaws::at_top, crate::proofs::TopLaws::beside_top))]
pub fn found_under<'a, T: Item>(
    top: &'a Top<T>,
    base: &'a SharedBase<T>,
    place: u64,
) -> Option<&'a Entry<T>>
    ensures { option_copied result
        ≡ at_place place (with_item_at base.entry.now top.entry.now.place top.entry.now.change) }
{
    if top.place != place {
        return base.get(place);
    }
    match &top.change {
        Some(entry) => Some(entry),
        None => None,
    }
}

/// Adds a place.
#[tactic(auto, using(crate::proofs::PlaceSets::more_insert, crate::proofs::PlaceSets::own_insert))]
pub fn add_place(place: u64, places: &mut BTreeSet<u64>) -> Result<(), NoMemory>
    ensures more { OnOk result (MorePlaces places.old.keys places.new.keys) }
    ensures there { OnOk result (has_place places.new.keys place ≡ true) }
{
    places.insert(place)?;
    Ok(())
}

impl<T: Item> CloneIn for Top<T> {
    fn clone_in(&self, alloc: Global) -> Result<Top<T>, NoMemory> {
        let change = self.change.clone_in(alloc)?;
        Ok(Top {
            place: self.place,
            change,
        })
    }
}
