//! The first item of a group that passes a test, found by a walk over the group's places.

ghost use Rattle.std.specs.Prelude.{◌≡◌, ◌<◌, true};
ghost use Rattle.std.specs.List.{find};
ghost use Rattle.std.specs.List.Sorted.{IsStrictlySortedBy};
ghost use Rattle.std.specs.Ordering.{nat_cmp};
ghost use Rattle.std.specs.FinMap.Entries.{is_sorted};
ghost use Rattle.sc_book.specs.Places.{passes_at};
ghost use Rattle.sc_book.specs.Pairs.{pair_cmp};
ghost use Rattle.sc_book.specs.Words.{belongs, in_groups};
ghost use Rattle.sc_book.specs.Found.{HasAll};
ghost use Rattle.sc_book.specs.Gathering.{IsFirst, pairs_from, places_in};

use crate::entry::Entry;
use crate::index::Index;
use crate::{Item, Probe};
use std::collections::{BTreeMap, BTreeSet};

/// The place of the first item of a group that passes. All that pass are of the group, and it isn't
/// that of the greatest number.
pub fn first_in_group<T: Item, P: Probe<T>>(
    items: &BTreeMap<u64, Entry<T>>,
    index: &Index,
    group: u64,
    probe: &P,
) -> Option<u64>
    requires ordered { is_sorted nat_cmp items.now.entries ≡ true }
    requires groups { HasAll (λ x. in_groups (T.groups x)) items.now.entries index.now }
    requires own { (x : T) → P.passes probe.now x ≡ true → belongs T.groups group x ≡ true }
    requires below { group < u64.MAX }
    ensures { IsFirst (P.passes probe.now) items.now.entries result }
{
    first_between(items, &index.pairs, group, group + 1, probe)
}

// The first place of the pairs of numbers from `low` on and before `past` whose item passes.
#[tactic(auto, using(crate::proofs::PlaceSets::in_turn))]
fn first_between<T: Item, P: Probe<T>>(
    items: &BTreeMap<u64, Entry<T>>,
    pairs: &BTreeSet<(u64, u64)>,
    low: u64,
    past: u64,
    probe: &P,
) -> Option<u64>
    requires { low < past }
    ensures first { result
        ≡ find (passes_at (P.passes probe.now) items.now.entries)
        (places_in (pairs_from low past pairs.now)) }
    ensures ordered { IsStrictlySortedBy pair_cmp pairs.now.keys }
{
    for pair in pairs.range((low, 0)..(past, 0)) {
        if passes_in(items, probe, pair.1) {
            return Some(pair.1);
        }
    }
    None
}

#[tactic(auto, using(crate::proofs::PlaceLaws::seen_at))]
fn passes_in<T: Item, P: Probe<T>>(items: &BTreeMap<u64, Entry<T>>, probe: &P, place: u64) -> bool
    ensures { result ≡ passes_at (P.passes probe.now) items.now.entries place }
{
    match items.get(&place) {
        Some(entry) => probe.passes(entry.item().get()),
        None => false,
    }
}
