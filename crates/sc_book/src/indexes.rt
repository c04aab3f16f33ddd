//! The indexes beside items. They have the pairs of all items, and may have more, never fewer: so
//! nothing has to be undone where memory is wanting.

ghost use Rattle.std.specs.Prelude.{◌≡◌, ◌==◌, ◌||◌, [], Some, OnOk, true};
ghost use Rattle.sc_book.specs.Words.{in_groups};
ghost use Rattle.sc_book.specs.Pairs.{has_pair, is_number, is_group, Grown, HasOr, KeptBut};
ghost use Rattle.sc_book.specs.Found.{due_of, first_of, groups_of, HasNumbers, AllGrown, AllKeptBut};

use crate::index::Index;
use crate::numbers::Numbers;
use sc_value::NoMemory;
use std::alloc::Global;

/// The indexes beside items.
#[derive(Drop)]
pub struct Indexes {
    pub dues: Index,
    pub firsts: Index,
    pub groups: Index,
}

impl Indexes {
    /// No pairs. It takes no memory.
    pub fn new(alloc: Global) -> Indexes
        ensures { result ≡ record { dues = []; firsts = []; groups = [] } }
    {
        Indexes {
            dues: Index::new(alloc),
            firsts: Index::new(alloc),
            groups: Index::new(alloc),
        }
    }

    /// The numbers of a place's new item are among them, beside those of the former one.
    #[tactic(auto, using(crate::proofs::PairLaws::grown_own, crate::proofs::PairLaws::has_new))]
    pub fn add(&mut self, old: Option<Numbers>, new: Numbers, place: u64) -> Result<(), NoMemory>
        requires { HasNumbers old place self.old }
        ensures grown { AllGrown self.old self.new }
        ensures there { OnOk result (HasNumbers (Some new) place self.new) }
    {
        add_number(&mut self.dues, due_of(old), new.due, place)?;
        add_number(&mut self.firsts, first_of(old), new.first, place)?;
        add_groups(&mut self.groups, groups_of(old), new.groups, place)
    }

    /// The numbers of a place's former item go, but for those of the new one.
    #[tactic(auto, using(crate::proofs::PairLaws::kept_on))]
    pub fn end(&mut self, old: Numbers, new: Option<Numbers>, place: u64)
        ensures { AllKeptBut new place self.old self.new }
    {
        end_number(&mut self.dues, old.due, due_of(new), place);
        end_number(&mut self.firsts, old.first, first_of(new), place);
        end_group(&mut self.groups, old.groups.0, groups_of(new), place);
        if old.groups.1 != old.groups.0 {
            end_group(&mut self.groups, old.groups.1, groups_of(new), place);
        }
    }
}

fn due_of(numbers: Option<Numbers>) -> Option<u64>
    ensures { result ≡ due_of numbers }
{
    match numbers {
        Some(numbers) => numbers.due,
        None => None,
    }
}

fn first_of(numbers: Option<Numbers>) -> Option<u64>
    ensures { result ≡ first_of numbers }
{
    match numbers {
        Some(numbers) => numbers.first,
        None => None,
    }
}

fn groups_of(numbers: Option<Numbers>) -> Option<(u64, u64)>
    ensures { result ≡ groups_of numbers }
{
    match numbers {
        Some(numbers) => Some(numbers.groups),
        None => None,
    }
}

fn is_number(number: Option<u64>, other: u64) -> bool
    ensures { result ≡ is_number number other }
{
    match number {
        Some(number) => number == other,
        None => false,
    }
}

fn is_group(groups: Option<(u64, u64)>, group: u64) -> bool
    ensures { result ≡ is_group groups group }
{
    match groups {
        Some((one, two)) => one == group || two == group,
        None => false,
    }
}

// Adds the pair of a place's new number, where the former one was another.
#[tactic(auto, using(crate::proofs::PairLaws::grown_own, crate::proofs::PairLaws::none_new, crate::proofs::PairLaws::one_new))]
fn add_number(
    index: &mut Index,
    old: Option<u64>,
    new: Option<u64>,
    place: u64,
) -> Result<(), NoMemory>
    ensures grown { Grown index.old index.new }
    ensures there { OnOk result (HasOr (is_number old) (is_number new) place index.new) }
{
    match new {
        Some(new) => add_other(index, old, new, place),
        None => Ok(()),
    }
}

#[tactic(auto, using(crate::proofs::PairLaws::grown_own))]
fn add_other(index: &mut Index, old: Option<u64>, new: u64, place: u64) -> Result<(), NoMemory>
    ensures grown { Grown index.old index.new }
    ensures there { OnOk result ((is_number old new || has_pair index.new new place) ≡ true) }
{
    if is_number(old, new) {
        return Ok(());
    }
    index.add(new, place)
}

/// Adds the pairs of a place's new groups, where the former ones were others.
#[tactic(auto, using(crate::proofs::PairLaws::grown_on, crate::proofs::PairLaws::two_new, crate::proofs::PairLaws::twice_new))]
pub fn add_groups(
    index: &mut Index,
    old: Option<(u64, u64)>,
    new: (u64, u64),
    place: u64,
) -> Result<(), NoMemory>
    ensures grown { Grown index.old index.new }
    ensures there { OnOk result (HasOr (is_group old) (in_groups new) place index.new) }
{
    add_group(index, old, new.0, place)?;
    if new.1 == new.0 {
        return Ok(());
    }
    add_group(index, old, new.1, place)
}

#[tactic(auto, using(crate::proofs::PairLaws::grown_own))]
fn add_group(
    index: &mut Index,
    old: Option<(u64, u64)>,
    new: u64,
    place: u64,
) -> Result<(), NoMemory>
    ensures grown { Grown index.old index.new }
    ensures there { OnOk result ((is_group old new || has_pair index.new new place) ≡ true) }
{
    if is_group(old, new) {
        return Ok(());
    }
    index.add(new, place)
}

// Ends the pair of a place's former number, where the new one is another.
#[tactic(auto, using(crate::proofs::PairLaws::kept_same))]
fn end_number(index: &mut Index, old: Option<u64>, new: Option<u64>, place: u64)
    ensures { KeptBut (is_number new) place index.old index.new }
{
    match old {
        Some(old) => end_other(index, old, new, place),
        None => {}
    }
}

#[tactic(auto, using(crate::proofs::PairLaws::kept_same, crate::proofs::PairLaws::ended))]
fn end_other(index: &mut Index, old: u64, new: Option<u64>, place: u64)
    ensures { KeptBut (is_number new) place index.old index.new }
{
    if !is_number(new, old) {
        index.take(old, place);
    }
}

// Ends the pair of a place's former group, where it is none of the new ones.
#[tactic(auto, using(crate::proofs::PairLaws::kept_same, crate::proofs::PairLaws::ended))]
fn end_group(index: &mut Index, old: u64, new: Option<(u64, u64)>, place: u64)
    ensures { KeptBut (is_group new) place index.old index.new }
{
    if !is_group(new, old) {
        index.take(old, place);
    }
}
