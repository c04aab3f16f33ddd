ghost use Rattle.std.specs.Prelude.{◌≡◌, IfOk};
ghost use Rattle.std.specs.Option.{option_copied};

use crate::{CloneIn, NoMemory, Same};
use std::alloc::Global;
use std::marker::Model;
use std::ops::Deref;
use std::sync::Arc;

/// A value with several owners, none of which changes it: a copy is one owner more, and costs no
/// memory. A contract sees the value itself.
#[derive(Drop)]
pub struct Shared<T> {
    item: Arc<T>,
}

impl<T> Model for Shared<T> {
    ghost use Rattle.std.specs.Arc.{arc_value};

    ghost Value = { T };

    ghost view = { λ s. arc_value s.item };
}

impl<T> Shared<T> {
    /// Gives a value its first owner.
    pub fn new(alloc: Global, value: T) -> Result<Shared<T>, NoMemory>
    where
        T: Drop,
        ensures { IfOk result (λ s. s ≡ value) }
    {
        let item = Arc::new(alloc, value)?;
        Ok(Shared { item })
    }

    /// The value.
    pub fn get(&self) -> &T
        ensures { result.now ≡ self.now }
    {
        &self.item
    }
}

impl<T> Deref for Shared<T> {
    type Target = T;

    ghost deref_gives = { λ s x. x ≡ s };

    fn deref(&self) -> &T {
        self.get()
    }
}

impl<T: Drop> CloneIn for Shared<T> {
    fn clone_in(&self, _alloc: Global) -> Result<Shared<T>, NoMemory> {
        let item = Arc::try_clone(&self.item)?;
        Ok(Shared { item })
    }
}

impl<T: Same> Same for Shared<T> {
    fn same(&self, other: &Shared<T>) -> bool {
        self.get().same(other.get())
    }
}

/// The value, where there is one.
pub fn shared_value<T>(item: &Option<Shared<T>>) -> Option<&T>
    ensures { option_copied result ≡ item.now }
{
    match item {
        Some(item) => Some(item.get()),
        None => None,
    }
}
