//! Items of a book that are gathered from the places that may have them.

ghost use Rattle.std.specs.Prelude.{◌≡◌, ◌++◌, true, OnOk, IfOk};
ghost use Rattle.std.specs.List.{filter};
ghost use Rattle.std.specs.List.Sorted.{IsStrictlySortedBy};
ghost use Rattle.std.specs.Map.{values_of};
ghost use Rattle.std.specs.Option.{option_copied};
ghost use Rattle.std.specs.Ordering.{nat_cmp};
ghost use Rattle.sc_book.specs.Words.{belongs, is_before};
ghost use Rattle.sc_book.specs.Gathering.{Covers, if_passing, is_wanted, items_at, one_of};

use crate::Item;
use crate::book::Book;
use crate::entry::Entry;
use crate::keys::add_keys;
use crate::wanted::Wanted;
use sc_value::{CloneIn, List, NoMemory, Shared};
use std::alloc::Global;
use std::collections::BTreeSet;

impl<T: Item> Book<T> {
    /// The items of a group, in order. The cost is linear in their number, and logarithmic in that
    /// of all.
    pub fn of(&self, alloc: Global, group: u64) -> Result<List<Shared<T>>, NoMemory>
        ensures { IfOk result (λ own. own ≡ filter (belongs T.groups group) (values_of self.now)) }
    {
        let places = self.places_of(alloc, group)?;
        gather(alloc, Wanted::Of(group), self, &places)
    }

    /// The items that are due before a moment, in order. `NoMemory` too where changes didn't go
    /// into the base.
    pub fn due_before(&self, alloc: Global, moment: u64) -> Result<List<Shared<T>>, NoMemory>
        ensures { IfOk result
            (λ own. own ≡ filter (λ x. is_before moment (T.due x)) (values_of self.now)) }
    {
        if !self.changes.is_empty() {
            return Err(NoMemory);
        }
        let mut places = BTreeSet::new(alloc);
        self.base.places_before(moment, &mut places)?;
        gather(alloc, Wanted::Before(moment), self, &places)
    }

    /// All items, in order.
    #[tactic(auto, using(crate::proofs::GatherLaws::filter_all))]
    pub fn as_list(&self, alloc: Global) -> Result<List<Shared<T>>, NoMemory>
        ensures { IfOk result (λ all. all ≡ values_of self.now) }
    {
        let places = self.all_places(alloc)?;
        gather(alloc, Wanted::All, self, &places)
    }

    /// Places that have all items of a group.
    pub fn places_of(&self, alloc: Global, group: u64) -> Result<BTreeSet<u64>, NoMemory>
        ensures { IfOk result (λ places. Covers (belongs T.groups group) self.now places.keys) }
    {
        let mut places = BTreeSet::new(alloc);
        self.base.places_of(group, &mut places)?;
        self.fresh.places_at(group, &mut places)?;
        Ok(places)
    }

    /// Places that have all items.
    pub fn all_places(&self, alloc: Global) -> Result<BTreeSet<u64>, NoMemory>
        ensures { IfOk result (λ places. Covers (λ _. true) self.now places.keys) }
    {
        let mut places = BTreeSet::new(alloc);
        self.base.all_places(&mut places)?;
        add_keys(&self.changes, &mut places)?;
        Ok(places)
    }
}

// The items that are wanted, where these places have them.
#[tactic(auto, using(crate::proofs::GatherLaws::gathered_all))]
fn gather<T: Item>(
    alloc: Global,
    wanted: Wanted,
    book: &Book<T>,
    places: &BTreeSet<u64>,
) -> Result<List<Shared<T>>, NoMemory>
    requires { Covers (is_wanted T.due T.groups wanted) book.now places.now.keys }
    ensures { IfOk result
        (λ own. own ≡ filter (is_wanted T.due T.groups wanted) (values_of book.now)) }
{
    let mut own = List::new(alloc);
    add_all(alloc, wanted, book, places, &mut own)?;
    Ok(own)
}

fn add_all<T: Item>(
    alloc: Global,
    wanted: Wanted,
    book: &Book<T>,
    places: &BTreeSet<u64>,
    own: &mut List<Shared<T>>,
) -> Result<(), NoMemory>
    ensures gathered { OnOk result
        (own.new
        ≡ own.old
        ++ values_of (items_at (is_wanted T.due T.groups wanted) book.now places.now.keys)) }
    ensures in_order { OnOk result (IsStrictlySortedBy nat_cmp places.now.keys) }
{
    for place in places {
        add_wanted(alloc, wanted, book.get(*place), own)?;
    }
    Ok(())
}

fn add_wanted<T: Item>(
    alloc: Global,
    wanted: Wanted,
    entry: Option<&Entry<T>>,
    own: &mut List<Shared<T>>,
) -> Result<(), NoMemory>
    ensures { OnOk result
        (own.new
        ≡ own.old
        ++ one_of (if_passing (is_wanted T.due T.groups wanted) (option_copied entry.entry))) }
{
    match entry {
        Some(entry) => {
            if entry.is_wanted(wanted) {
                own.push(entry.item().clone_in(alloc)?)?;
            }
            Ok(())
        }
        None => Ok(()),
    }
}
