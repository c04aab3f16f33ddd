//! The item whose first event has the lowest number.

ghost use Rattle.std.specs.Prelude.{◌≡◌};
ghost use Rattle.std.specs.List.{find};
ghost use Rattle.std.specs.List.Sorted.{IsStrictlySortedBy};
ghost use Rattle.sc_book.specs.Words.{is_among};
ghost use Rattle.sc_book.specs.Pairs.{pair_cmp};
ghost use Rattle.sc_book.specs.Found.{AreFound};
ghost use Rattle.sc_book.specs.Firsts.{free_of, is_numbered, is_next, earliest_at};

use crate::Item;
use crate::entry::Entry;
use crate::indexes::Indexes;
use std::collections::{BTreeMap, BTreeSet};

/// The lowest number of a first event of the items at other places, with the first place of an item
/// that has it.
#[tactic(auto, using(crate::proofs::FirstLaws::first_found))]
pub fn first_in<T: Item>(
    items: &BTreeMap<u64, Entry<T>>,
    indexes: &Indexes,
    places: &[u64],
) -> Option<(u64, u64)>
    requires { AreFound T.due T.first T.groups items.now.entries indexes.now }
    ensures { result ≡ earliest_at T.first (free_of places.now items.now.entries) }
{
    first_pair(items, &indexes.firsts.pairs, places)
}

// The first pair that is that of an item, and not at one of these places.
fn first_pair<T: Item>(
    items: &BTreeMap<u64, Entry<T>>,
    pairs: &BTreeSet<(u64, u64)>,
    places: &[u64],
) -> Option<(u64, u64)>
    ensures first { result ≡ find (is_next T.first places.now items.now.entries) pairs.now.keys }
    ensures ordered { IsStrictlySortedBy pair_cmp pairs.now.keys }
{
    for pair in pairs {
        if is_next(items, *pair, places) {
            return Some(*pair);
        }
    }
    None
}

fn is_next<T: Item>(items: &BTreeMap<u64, Entry<T>>, pair: (u64, u64), places: &[u64]) -> bool
    ensures { result ≡ is_next T.first places.now items.now.entries pair }
{
    !is_among(places, pair.1) && is_numbered(items, pair.0, pair.1)
}

fn is_among(places: &[u64], place: u64) -> bool
    ensures { result ≡ is_among places.now place }
{
    places.iter().any(|other| *other == place)
}

#[tactic(auto, using(crate::proofs::PlaceLaws::seen_at))]
fn is_numbered<T: Item>(items: &BTreeMap<u64, Entry<T>>, number: u64, place: u64) -> bool
    ensures { result ≡ is_numbered T.first items.now.entries number place }
{
    match items.get(&place) {
        Some(entry) => entry.numbers().first == Some(number),
        None => false,
    }
}
