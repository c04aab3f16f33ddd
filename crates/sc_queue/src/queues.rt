//! Queues: items come at the end and go at the front.

ghost use Rattle.std.specs.Prelude.{◌≡◌, ◌==◌, ◌++◌, ◌∷◌, ◌≤◌, [], length, drop, slice_get, IfOk, OnOk, OnErr};
ghost use Rattle.std.specs.Option.{option_copied};

use crate::LongList;
use sc_value::{CloneIn, List, NoMemory};
use std::alloc::Global;
use std::marker::Model;

/// A queue. A copy takes little time and memory however many items wait, and so does an item that
/// comes or goes, in the long run.
#[derive(Drop)]
pub struct Queue<T> {
    /// The items that wait, behind some that are gone.
    all: LongList<T>,
    /// How many are gone: fewer than wait, where one is gone at all.
    gone: usize,
}

impl<T> Model for Queue<T> {
    ghost use Rattle.std.specs.Prelude.{List as Items, ◌≤◌, length, drop};

    ghost Value = { Items T };

    ghost view = { λ q. drop q.gone q.all };

    ghost invariant = { λ q. q.gone ≤ length q.all };
}

impl<T> Queue<T> {
    /// The empty queue. It takes no memory.
    pub fn new(alloc: Global) -> Queue<T>
        ensures { result ≡ [] }
    {
        Queue {
            all: LongList::new(alloc),
            gone: 0,
        }
    }

    /// How many items wait.
    pub fn len(&self) -> usize
        ensures { result ≡ length self.now }
    {
        self.all.len() - self.gone
    }

    /// Whether no item waits.
    pub fn is_empty(&self) -> bool
        ensures { result ≡ (length self.now == 0) }
    {
        self.len() == 0
    }

    /// The item that came first of those that wait.
    #[tactic(auto, using(crate::proofs::Behind::first_behind))]
    pub fn first(&self) -> Option<&T>
        ensures { option_copied result ≡ slice_get self.now 0 }
    {
        self.all.get(self.gone)
    }
}

impl<T: CloneIn> Queue<T> {
    /// An item comes. `Err` for want of memory alone, and nothing is changed then.
    #[tactic(auto, using(crate::proofs::Behind::item_behind))]
    pub fn push(&mut self, item: T) -> Result<(), NoMemory>
        ensures ok { OnOk result (self.new ≡ self.old ++ item ∷ []) }
        ensures err { OnErr result (self.new ≡ self.old) }
    {
        self.all.push(item)
    }

    /// The first item goes, where one waits. `Err` for want of memory alone, and nothing is changed
    /// then.
    pub fn pop(&mut self, alloc: Global) -> Result<(), NoMemory>
        ensures ok { OnOk result (self.new ≡ drop 1 self.old) }
        ensures err { OnErr result (self.new ≡ self.old) }
    {
        pop_in(alloc, &mut self.all, &mut self.gone)
    }

    /// A list of its own of the items that wait.
    pub fn to_list(&self) -> Result<List<T>, NoMemory>
        ensures { IfOk result (λ items. items ≡ self.now) }
    {
        self.all.behind(self.gone)
    }
}

// What stands behind so many.
fn left_behind<T: CloneIn>(
    alloc: Global,
    all: &LongList<T>,
    gone: usize,
) -> Result<LongList<T>, NoMemory>
    ensures { IfOk result (λ left. left ≡ drop gone all.now) }
{
    let items = all.behind(gone)?;
    LongList::from_list(alloc, items)
}

// One more is gone; once as many are gone as wait, those that wait get a list of their own.
#[tactic(auto, using(crate::proofs::Behind::nothing_waits, crate::proofs::Behind::one_more_gone))]
fn pop_in<T: CloneIn>(
    alloc: Global,
    all: &mut LongList<T>,
    gone: &mut usize,
) -> Result<(), NoMemory>
    ensures ok { OnOk result (drop gone.new all.new ≡ drop 1 (drop gone.old all.old)) }
    ensures within { gone.old ≤ length all.old → gone.new ≤ length all.new }
    ensures err_all { OnErr result (all.new ≡ all.old) }
    ensures err_gone { OnErr result (gone.new ≡ gone.old) }
{
    let count = all.len();
    if count <= *gone {
        return Ok(());
    }
    let more = *gone + 1;
    if more < count - more {
        *gone = more;
        return Ok(());
    }
    let left = left_behind(alloc, all, more)?;
    *all = left;
    *gone = 0;
    Ok(())
}

impl<T: CloneIn> CloneIn for Queue<T> {
    fn clone_in(&self, alloc: Global) -> Result<Queue<T>, NoMemory> {
        let all = self.all.clone_in(alloc)?;
        Ok(Queue {
            all,
            gone: self.gone,
        })
    }
}
