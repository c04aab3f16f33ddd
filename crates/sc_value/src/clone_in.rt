ghost use Rattle.std.specs.Prelude.{◌≡◌, IfOk};
ghost use Rattle.std.specs.Option.{option_copied};

use crate::NoMemory;
use std::alloc::Global;

/// A value that can be copied.
pub trait CloneIn: Drop {
    /// An equal value, with memory of its own.
    fn clone_in(&self, alloc: Global) -> Result<Self, NoMemory>
        ensures { IfOk result (λ copy. copy ≡ self.now) };
}

impl<T: CloneIn> CloneIn for Option<T> {
    fn clone_in(&self, alloc: Global) -> Result<Option<T>, NoMemory> {
        match self {
            Some(value) => Ok(Some(value.clone_in(alloc)?)),
            None => Ok(None),
        }
    }
}

/// A copy of what is looked at, where there is something.
pub fn copied<T: CloneIn>(alloc: Global, value: Option<&T>) -> Result<Option<T>, NoMemory>
    ensures { IfOk result (λ copy. copy ≡ option_copied value.entry) }
{
    match value {
        Some(value) => Ok(Some(value.clone_in(alloc)?)),
        None => Ok(None),
    }
}
