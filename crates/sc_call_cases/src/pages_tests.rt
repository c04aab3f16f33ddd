//! Lists in pages, with ample memory.

ghost use Rattle.std.specs.Prelude.{◌==◌, false, not};

use sc_pages::{Change, Paged, Pages, Probe, Run, Scope};
use sc_value::{CloneIn, List, NoMemory};
use std::alloc::Global;
use std::test::Fail;

/// An item that rests unless it is busy.
#[derive(Clone, Copy)]
struct Item {
    number: u32,
    busy: bool,
}

impl CloneIn for Item {
    fn clone_in(&self, _alloc: Global) -> Result<Item, NoMemory> {
        Ok(*self)
    }
}

impl Paged for Item {
    ghost number = { λ item. item.number };

    ghost rests = { λ item. not item.busy };

    fn number(&self) -> u32 {
        self.number
    }

    fn rests(&self) -> bool {
        !self.busy
    }
}

/// Items that are busy.
#[derive(Clone, Copy)]
struct Busy;

impl Probe<Item> for Busy {
    ghost passes = { λ _ item. item.busy };

    fn passes(&self, item: &Item) -> bool {
        item.busy
    }
}

/// Items of this number.
#[derive(Clone, Copy)]
struct Numbered(u32);

impl Probe<Item> for Numbered {
    ghost passes = { λ p item. item.number == p.0 };

    fn passes(&self, item: &Item) -> bool {
        item.number == self.0
    }
}

/// An item rests from now on.
#[derive(Clone, Copy)]
struct Resting;

impl Change<Item> for Resting {
    ghost changed = { λ _ item. record { number = item.number; busy = false } };

    fn change(&self, item: &mut Item) -> Result<(), NoMemory> {
        item.busy = false;
        Ok(())
    }
}

fn is_one_of(number: u32, numbers: &[u32]) -> bool {
    for one in numbers {
        if *one == number {
            return true;
        }
    }
    false
}

fn put(pages: &mut Pages<Item>, number: u32, busy: bool) -> Result<(), NoMemory> {
    pages.push(Item { number, busy })
}

/// The numbers below this one, in their order, of which these are busy.
fn rising(alloc: Global, count: u32, busy: &[u32]) -> Result<Pages<Item>, NoMemory> {
    let mut pages = Pages::new(alloc);
    for number in 0..count {
        put(&mut pages, number, is_one_of(number, busy))?;
    }
    Ok(pages)
}

fn number_of(found: Option<&Item>) -> Option<u32> {
    match found {
        Some(found) => Some(found.number),
        None => None,
    }
}

/// Whether a number is within one of these runs.
fn is_within(runs: &List<Run>, number: u64) -> bool {
    for run in runs.as_slice() {
        if run.from <= number && number < run.to {
            return true;
        }
    }
    false
}

// The 32 newest items stand for themselves, the others in pages of 32.
#[test]
fn an_item_is_found_by_its_number(rt: HostRuntime) -> Result<(), Fail> {
    let pages = rising(rt.alloc(), 100, &[])?;
    for number in [0, 31, 32, 63, 64, 95, 96, 99] {
        let found = pages.find(Scope::Number(number), &Numbered(number));
        assert_eq!(rt; number_of(found), Some(number), "{number}");
    }
    let found = pages.find(Scope::Number(100), &Numbered(100));
    assert_eq!(rt; number_of(found), None);
    Ok(())
}

// Among resting pages, in the first of them and among the newest.
#[test]
fn the_first_busy_item_is_found(rt: HostRuntime) -> Result<(), Fail> {
    for (busy, first) in [
        ([200, 200], None),
        ([70, 98], Some(70)),
        ([98, 0], Some(0)),
        ([98, 99], Some(98)),
    ] {
        let pages = rising(rt.alloc(), 100, &busy)?;
        assert_eq!(rt; number_of(pages.find(Scope::Busy, &Busy)), first);
    }
    Ok(())
}

#[test]
fn a_change_leaves_a_copy_as_it_was(rt: HostRuntime) -> Result<(), Fail> {
    let mut pages = rising(rt.alloc(), 100, &[5, 99])?;
    let copy = pages.clone_in(rt.alloc())?;
    pages.change_first(Scope::Busy, &Busy, &Resting)?;
    assert_eq!(rt; number_of(pages.find(Scope::Busy, &Busy)), Some(99));
    assert_eq!(rt; number_of(copy.find(Scope::Busy, &Busy)), Some(5));
    pages.change_all(Scope::Busy, &Busy, &Resting)?;
    assert!(rt; !pages.any(Scope::Busy, &Busy));
    assert_eq!(rt; pages.to_list()?.len(), 100);
    Ok(())
}

#[test]
fn what_passes_is_kept(rt: HostRuntime) -> Result<(), Fail> {
    let mut pages = rising(rt.alloc(), 100, &[5, 40, 41, 99])?;
    pages.keep(Scope::All, &Busy)?;
    let kept = pages.to_list()?;
    assert_eq!(rt; kept.len(), 4);
    for (at, number) in [(0, 5), (1, 40), (2, 41), (3, 99)] {
        assert_eq!(rt; number_of(kept.as_slice().get(at)), Some(number), "at {at}");
    }
    Ok(())
}

// Pages of which each item rests and no number is wanting make runs. The newest items make none.
#[test]
fn resting_items_make_runs(rt: HostRuntime) -> Result<(), Fail> {
    let runs = rising(rt.alloc(), 200, &[40])?.resting()?;
    for (number, within) in [(0, true), (31, true), (40, false), (64, true), (199, false)] {
        assert_eq!(rt; is_within(&runs, number), within, "{number}");
    }
    let few = rising(rt.alloc(), 20, &[])?.resting()?;
    assert!(rt; !is_within(&few, 0));
    Ok(())
}
