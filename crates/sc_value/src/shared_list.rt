ghost use Rattle.std.specs.Prelude.{◌≡◌, ◌==◌, ◌++◌, ◌∷◌, [], length, IfOk, OnOk, OnErr};

use crate::list::same_items;
use crate::{CloneIn, List, NoMemory, Same};
use std::alloc::Global;
use std::marker::Model;
use std::sync::Arc;

/// A list with several owners where it was copied: a copy takes no memory, and an owner that puts an
/// item behind it while others have it gets a list of its own first. The empty list takes none. A
/// contract sees its items.
#[derive(Drop)]
pub struct SharedList<T> {
    list: Option<Arc<List<T>>>,
    alloc: Global,
}

impl<T> Model for SharedList<T> {
    ghost use Rattle.std.specs.Prelude.{List as Items};
    ghost use Rattle.sc_value.specs.SharedItems.{items_of};

    ghost Value = { Items T };

    ghost view = { λ l. items_of l.list };
}

impl<T> SharedList<T> {
    /// The empty list.
    pub fn new(alloc: Global) -> SharedList<T>
        ensures { result ≡ [] }
    {
        SharedList { list: None, alloc }
    }

    /// Gives a list its first owner.
    pub fn from_list(alloc: Global, list: List<T>) -> Result<SharedList<T>, NoMemory>
    where
        T: Drop,
        ensures { IfOk result (λ l. l ≡ list) }
    {
        if list.is_empty() {
            return Ok(SharedList::new(alloc));
        }
        let list = Some(Arc::new(alloc, list)?);
        Ok(SharedList { list, alloc })
    }

    /// The items in order.
    pub fn as_slice(&self) -> &[T]
        ensures { result.now ≡ self.now }
    {
        match &self.list {
            Some(list) => list.as_slice(),
            None => &[],
        }
    }

    /// How many items there are.
    pub fn len(&self) -> usize
        ensures { result ≡ length self.now }
    {
        self.as_slice().len()
    }

    /// Whether there is no item.
    pub fn is_empty(&self) -> bool
        ensures { result ≡ (length self.now == 0) }
    {
        self.as_slice().is_empty()
    }
}

impl<T: CloneIn> SharedList<T> {
    /// A list of its own with the same items.
    pub fn to_list(&self) -> Result<List<T>, NoMemory>
        ensures { IfOk result (λ l. l ≡ self.now) }
    {
        match &self.list {
            Some(list) => list.clone_in(self.alloc),
            None => Ok(List::new(self.alloc)),
        }
    }

    /// Puts an item at the end. `Err` for want of memory alone, and nothing is changed then.
    pub fn push(&mut self, item: T) -> Result<(), NoMemory>
        ensures ok { OnOk result (self.new ≡ self.old ++ item ∷ []) }
        ensures err { OnErr result (self.new ≡ self.old) }
    {
        if let Some(list) = &mut self.list {
            if let Some(own) = Arc::get_mut(list) {
                own.push(item)?;
                return Ok(());
            }
        }
        let mut all = self.to_list()?;
        all.push(item)?;
        *self = SharedList::from_list(self.alloc, all)?;
        Ok(())
    }
}

impl<T: Drop> CloneIn for SharedList<T> {
    fn clone_in(&self, _alloc: Global) -> Result<SharedList<T>, NoMemory> {
        let list = match &self.list {
            Some(list) => Some(Arc::try_clone(list)?),
            None => None,
        };
        Ok(SharedList {
            list,
            alloc: self.alloc,
        })
    }
}

impl<T: Same> Same for SharedList<T> {
    fn same(&self, other: &SharedList<T>) -> bool {
        same_items(self.as_slice(), other.as_slice())
    }
}
