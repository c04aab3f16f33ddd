//! Lists that grow at their end.

ghost use Rattle.std.specs.Prelude.{◌≡◌, ◌++◌, ◌+◌, ◌∷◌, ◌≤◌, [], length, drop, take, slice_get, IfOk, OnOk, OnErr};
ghost use Rattle.std.specs.Option.{option_copied};
ghost use Rattle.sc_queue.specs.Joined.{joined};

use crate::joining::grown;
use sc_value::{CloneIn, List, NoMemory, Shared, SharedList};
use std::alloc::Global;
use std::marker::Model;

/// How many items a list has of its own at most.
const MOST_OWN: usize = 32;

/// A list that grows at its end. All but its newest items stand in parts that its copies have in
/// common: a copy takes little time and memory, and an item more as little in the long run.
#[derive(Drop)]
pub struct LongList<T> {
    /// The older items, in parts of which none is changed.
    parts: SharedList<Shared<List<T>>>,
    /// The newest items.
    newest: List<T>,
    /// How many items there are.
    count: usize,
    alloc: Global,
}

impl<T> Model for LongList<T> {
    ghost use Rattle.std.specs.Prelude.{◌≡◌, ◌++◌, List as Items, length};
    ghost use Rattle.sc_queue.specs.Joined.{joined};

    ghost Value = { Items T };

    ghost view = { λ l. joined l.parts ++ l.newest };

    ghost invariant = { λ l. l.count ≡ length (joined l.parts ++ l.newest) };
}

impl<T> LongList<T> {
    /// The empty list. It takes no memory.
    pub fn new(alloc: Global) -> LongList<T>
        ensures { result ≡ [] }
    {
        LongList {
            parts: SharedList::new(alloc),
            newest: List::new(alloc),
            count: 0,
            alloc,
        }
    }

    /// How many items there are.
    pub fn len(&self) -> usize
        ensures { result ≡ length self.now }
    {
        self.count
    }

    /// The item at this place, None past the end.
    pub fn get(&self, at: usize) -> Option<&T>
        ensures { option_copied result ≡ slice_get self.now at }
    {
        item_at(self.parts.as_slice(), self.newest.as_slice(), at)
    }

    /// These items.
    pub fn from_list(alloc: Global, items: List<T>) -> Result<LongList<T>, NoMemory>
    where
        T: Drop,
        ensures { IfOk result (λ list. list ≡ items) }
    {
        let count = items.len();
        if count <= MOST_OWN {
            return Ok(LongList {
                parts: SharedList::new(alloc),
                newest: items,
                count,
                alloc,
            });
        }
        let parts = one_part(alloc, items)?;
        Ok(LongList {
            parts,
            newest: List::new(alloc),
            count,
            alloc,
        })
    }
}

impl<T: CloneIn> LongList<T> {
    /// Puts an item at the end. `Err` for want of memory alone, and nothing is changed then.
    #[tactic(auto, using(crate::proofs::Parts::count_more))]
    pub fn push(&mut self, item: T) -> Result<(), NoMemory>
        ensures ok { OnOk result (self.new ≡ self.old ++ item ∷ []) }
        ensures err { OnErr result (self.new ≡ self.old) }
    {
        let count = one_more(self.count)?;
        put(self.alloc, &mut self.parts, &mut self.newest, item)?;
        self.count = count;
        Ok(())
    }

    /// A list of its own of the items from this place on.
    pub fn behind(&self, from: usize) -> Result<List<T>, NoMemory>
        ensures { IfOk result (λ items. items ≡ drop from self.now) }
    {
        if self.count <= from {
            return Ok(List::new(self.alloc));
        }
        copied(self.alloc, self, from, self.count)
    }
}

impl<T: CloneIn> CloneIn for LongList<T> {
    fn clone_in(&self, alloc: Global) -> Result<LongList<T>, NoMemory> {
        let parts = self.parts.clone_in(alloc)?;
        let newest = self.newest.clone_in(alloc)?;
        Ok(LongList {
            parts,
            newest,
            count: self.count,
            alloc,
        })
    }
}

fn one_more(count: usize) -> Result<usize, NoMemory>
    ensures { IfOk result (λ more. more ≡ count + 1) }
{
    match count.checked_add(1) {
        Some(more) => Ok(more),
        None => Err(NoMemory),
    }
}

fn one_part<T: Drop>(alloc: Global, items: List<T>) -> Result<SharedList<Shared<List<T>>>, NoMemory>
    ensures { IfOk result (λ parts. joined parts ≡ items) }
{
    let part = Shared::new(alloc, items)?;
    let mut parts = List::new(alloc);
    parts.push(part)?;
    SharedList::from_list(alloc, parts)
}

fn nth<T>(items: &[T], at: usize) -> Option<&T>
    ensures { option_copied result ≡ slice_get items.now at }
{
    items.get(at)
}

// The item at this place of the parts and the newest items.
#[tactic(auto, using(crate::proofs::Parts::in_part, crate::proofs::Parts::past_part, crate::proofs::Parts::past_all))]
fn item_at<'a, T>(parts: &'a [Shared<List<T>>], newest: &'a [T], at: usize) -> Option<&'a T>
    ensures { option_copied result ≡ slice_get (joined parts.now ++ newest.now) at }
{
    let mut left = at;
    for part in parts {
        let items = part.get();
        if left < items.len() {
            return nth(items.as_slice(), left);
        }
        left -= items.len();
    }
    nth(newest, left)
}

// A copy of the item at this place, where there is one.
#[tactic(auto, using(crate::proofs::Behind::one_some, crate::proofs::Behind::none_more))]
fn add_at<T: CloneIn>(
    alloc: Global,
    all: &LongList<T>,
    at: usize,
    items: &mut List<T>,
) -> Result<(), NoMemory>
    ensures { OnOk result (items.new ≡ items.old ++ drop at (take (at + 1) all.now)) }
{
    match all.get(at) {
        Some(item) => {
            let copy = item.clone_in(alloc)?;
            items.push(copy)?;
            Ok(())
        }
        None => Ok(()),
    }
}

// Copies of the items from one place on to another.
#[tactic(auto, using(crate::proofs::Behind::copied_more))]
fn copied<T: CloneIn>(
    alloc: Global,
    all: &LongList<T>,
    from: usize,
    to: usize,
) -> Result<List<T>, NoMemory>
    requires { from ≤ to }
    ensures { IfOk result (λ items. items ≡ drop from (take to all.now)) }
{
    let mut items = List::new(alloc);
    for at in from..to {
        add_at(alloc, all, at, &mut items)?;
    }
    Ok(items)
}

#[tactic(auto, using(crate::proofs::Parts::joined_more))]
fn put<T: CloneIn>(
    alloc: Global,
    parts: &mut SharedList<Shared<List<T>>>,
    newest: &mut List<T>,
    item: T,
) -> Result<(), NoMemory>
    ensures ok { OnOk result
        (joined parts.new ++ newest.new ≡ (joined parts.old ++ newest.old) ++ item ∷ []) }
    ensures err_parts { OnErr result (parts.new ≡ parts.old) }
    ensures err_newest { OnErr result (newest.new ≡ newest.old) }
{
    if newest.len() < MOST_OWN {
        newest.push(item)?;
        return Ok(());
    }
    put_apart(alloc, parts, newest, item)
}

// The newest items become a part, and this one is the first of the newest.
fn put_apart<T: CloneIn>(
    alloc: Global,
    parts: &mut SharedList<Shared<List<T>>>,
    newest: &mut List<T>,
    item: T,
) -> Result<(), NoMemory>
    ensures ok { OnOk result
        (joined parts.new ++ newest.new ≡ (joined parts.old ++ newest.old) ++ item ∷ []) }
    ensures err_parts { OnErr result (parts.new ≡ parts.old) }
    ensures err_newest { OnErr result (newest.new ≡ newest.old) }
{
    let mut next = List::new(alloc);
    next.push(item)?;
    let all = grown(alloc, parts.as_slice(), newest.as_slice())?;
    *parts = SharedList::from_list(alloc, all)?;
    *newest = next;
    Ok(())
}
