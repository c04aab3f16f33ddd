//! Changes that go into their base in place.

ghost use Rattle.std.specs.Prelude.{◌≡◌, true, OnOk, OnErr};
ghost use Rattle.std.specs.Arc.{arc_value};
ghost use Rattle.std.specs.Ordering.{nat_cmp};
ghost use Rattle.std.specs.FinMap.Entries.{is_sorted};
ghost use Rattle.sc_book.specs.Places.{all_laid, with_item_at};
ghost use Rattle.sc_book.specs.Groups.{KeepsBook};
ghost use Rattle.sc_book.specs.Tops.{topped};

use crate::Item;
use crate::base::Base;
use crate::entry::Entry;
use crate::top::Top;
use sc_value::{CloneIn, NoMemory};
use std::alloc::Global;
use std::collections::BTreeMap;
use std::sync::Arc;

/// Lets the changes go into a base that nobody else has. Where memory is wanting some stay.
#[tactic(auto, using(crate::proofs::FreshLaws::kept_own))]
pub fn settle_in<T: Item>(
    alloc: Global,
    base: &mut Arc<Base<T>>,
    changes: &mut BTreeMap<u64, Option<Entry<T>>>,
)
    ensures same { all_laid (arc_value base.new) changes.new.entries
        ≡ all_laid (arc_value base.old) changes.old.entries }
    ensures kept { KeepsBook T.groups (arc_value base.old) changes.old.entries (arc_value base.new)
        changes.new.entries }
{
    match Arc::get_mut(base) {
        Some(own) => settle_all(alloc, own, changes),
        None => {}
    }
}

/// Lets a change that lies over a base go in, where nobody else has the base.
pub fn settle_top_in<T: Item>(alloc: Global, base: &mut Arc<Base<T>>, top: &mut Option<Box<Top<T>>>)
    ensures { topped (arc_value base.new) top.new ≡ topped (arc_value base.old) top.old }
{
    match Arc::get_mut(base) {
        Some(own) => settle_top(alloc, own, top),
        None => {}
    }
}

fn settle_top<T: Item>(alloc: Global, base: &mut Base<T>, top: &mut Option<Box<Top<T>>>)
    ensures { topped base.new top.new ≡ topped base.old top.old }
{
    let (place, change) = match &*top {
        Some(top) => (top.place, top.change.clone_in(alloc)),
        None => return,
    };
    let change = match change {
        Ok(change) => change,
        Err(NoMemory) => return,
    };
    match lay(place, change, base) {
        Ok(()) => *top = None,
        Err(NoMemory) => {}
    }
}

fn settle_all<T: Item>(
    alloc: Global,
    base: &mut Base<T>,
    changes: &mut BTreeMap<u64, Option<Entry<T>>>,
)
    ensures same { all_laid base.new changes.new.entries ≡ all_laid base.old changes.old.entries }
    ensures kept { KeepsBook T.groups base.old changes.old.entries base.new changes.new.entries }
{
    for _ in 0..changes.len() {
        settle_first(alloc, base, changes);
    }
}

// Lets the first change go in, where there is one and memory for it.
#[tactic(auto, using(crate::proofs::FreshLaws::kept_own, crate::proofs::FreshLaws::settled_first, crate::proofs::FreshLaws::kept_first))]
fn settle_first<T: Item>(
    alloc: Global,
    base: &mut Base<T>,
    changes: &mut BTreeMap<u64, Option<Entry<T>>>,
)
    ensures same { all_laid base.new changes.new.entries ≡ all_laid base.old changes.old.entries }
    ensures kept { KeepsBook T.groups base.old changes.old.entries base.new changes.new.entries }
{
    let (place, change) = match changes.first_key_value() {
        Some((place, change)) => (*place, change.clone_in(alloc)),
        None => return,
    };
    let change = match change {
        Ok(change) => change,
        Err(NoMemory) => return,
    };
    match lay(place, change, base) {
        Ok(()) => drop(changes.pop_first()),
        Err(NoMemory) => {}
    }
}

// With this at a place: None takes the item away.
#[tactic(auto, unfolding(crate::specs::Places::with_item_at))]
fn lay<T: Item>(place: u64, change: Option<Entry<T>>, base: &mut Base<T>) -> Result<(), NoMemory>
    ensures ok { OnOk result (base.new ≡ with_item_at base.old place change) }
    ensures err { OnErr result (base.new ≡ base.old) }
    ensures sorted { is_sorted nat_cmp base.new ≡ true }
{
    match change {
        Some(entry) => base.put(place, entry),
        None => {
            base.take(place);
            Ok(())
        }
    }
}
