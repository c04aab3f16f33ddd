ghost use Rattle.std.specs.Prelude.{◌≡◌, IfOk};

use crate::{CloneIn, NoMemory, Same};
use std::alloc::Global;
use std::marker::Model;

/// A value on the heap. A contract sees the value itself.
#[derive(Drop)]
pub struct Boxed<T> {
    item: Box<T>,
}

impl<T> Model for Boxed<T> {
    ghost Value = { T };

    ghost view = { λ b. b.item.value };
}

impl<T> Boxed<T> {
    /// Moves a value to the heap.
    pub fn new(alloc: Global, value: T) -> Result<Boxed<T>, NoMemory>
    where
        T: Drop,
        ensures { IfOk result (λ b. b ≡ value) }
    {
        let item = Box::new(alloc, value)?;
        Ok(Boxed { item })
    }

    /// The value.
    pub fn get(&self) -> &T
        ensures { result.now ≡ self.now }
    {
        &self.item
    }

    /// The value, moved from the heap.
    pub fn into_inner(self) -> T
        ensures { result ≡ self }
    {
        Box::into_inner(self.item)
    }
}

impl<T: CloneIn> CloneIn for Boxed<T> {
    fn clone_in(&self, alloc: Global) -> Result<Boxed<T>, NoMemory> {
        Boxed::new(alloc, self.get().clone_in(alloc)?)
    }
}

impl<T: Same> Same for Boxed<T> {
    fn same(&self, other: &Boxed<T>) -> bool {
        self.get().same(other.get())
    }
}
