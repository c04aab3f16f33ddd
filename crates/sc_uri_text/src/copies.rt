//! Parts of a text that may be missing.

ghost use Rattle.std.specs.Prelude.{◌≡◌, IfOk};
ghost use Rattle.std.specs.Option.{option_copied};

use sc_value::{NoMemory, Shared, Text};
use std::alloc::Global;

/// A copy of the text, where there is one. The one error is want of memory.
pub fn copy_of(alloc: Global, text: Option<&[u8]>) -> Result<Option<Text>, NoMemory>
    ensures { IfOk result (λ copy. copy ≡ option_copied text.entry) }
{
    match text {
        Some(text) => {
            let copy = Text::from_slice(alloc, text)?;
            Ok(Some(copy))
        }
        None => Ok(None),
    }
}

/// The same, with its first owner.
pub fn shared_copy_of(alloc: Global, text: Option<&[u8]>) -> Result<Option<Shared<Text>>, NoMemory>
    ensures { IfOk result (λ copy. copy ≡ option_copied text.entry) }
{
    match text {
        Some(text) => {
            let copy = Text::from_slice(alloc, text)?;
            Ok(Some(Shared::new(alloc, copy)?))
        }
        None => Ok(None),
    }
}
