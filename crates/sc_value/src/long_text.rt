ghost use Rattle.std.specs.Prelude.{◌≡◌, ◌++◌, IfOk, OnOk, OnErr};

use crate::NoMemory;
use std::alloc::Global;
use std::marker::Model;
use std::sync::Arc;

/// A text in memory of its own, with several owners where it was copied: a copy takes no memory, and
/// an owner that changes the text while others have it gets bytes of its own first. A contract sees
/// its bytes.
#[derive(Drop)]
pub struct LongText {
    bytes: Arc<Vec<u8>>,
}

impl Model for LongText {
    ghost use Rattle.std.specs.Prelude.{List, ℕ};
    ghost use Rattle.std.specs.Arc.{arc_value};

    ghost Value = { List ℕ };

    ghost view = { λ t. (arc_value t.bytes).items };
}

impl LongText {
    /// The text of these bytes, which are moved.
    pub fn new(alloc: Global, bytes: Vec<u8>) -> Result<LongText, NoMemory>
        ensures { IfOk result (λ t. t ≡ bytes.items) }
    {
        let bytes = Arc::new(alloc, bytes)?;
        Ok(LongText { bytes })
    }

    /// The bytes in order.
    pub fn as_bytes(&self) -> &[u8]
        ensures { result.now ≡ self.now }
    {
        self.bytes.as_slice()
    }

    /// The same text with one owner more.
    pub fn copied(&self) -> Result<LongText, NoMemory>
        ensures { IfOk result (λ t. t ≡ self.now) }
    {
        let bytes = Arc::try_clone(&self.bytes)?;
        Ok(LongText { bytes })
    }

    /// The bytes, moved where nobody else has them, else copied.
    pub fn into_vec(self, alloc: Global) -> Result<Vec<u8>, NoMemory>
        ensures { IfOk result (λ bytes. bytes.items ≡ self) }
    {
        match Arc::try_unwrap(self.bytes) {
            Ok(bytes) => Ok(bytes),
            Err(shared) => Ok(Vec::from_slice(alloc, shared.as_slice())?),
        }
    }

    /// Puts bytes at the end, all of them or, for want of memory, none.
    pub fn extend(&mut self, alloc: Global, more: &[u8]) -> Result<(), NoMemory>
        ensures ok { OnOk result (self.new ≡ self.old ++ more.now) }
        ensures err { OnErr result (self.new ≡ self.old) }
    {
        if let Some(own) = Arc::get_mut(&mut self.bytes) {
            own.extend_from_slice(more)?;
            return Ok(());
        }
        *self = LongText::joined(alloc, self.as_bytes(), more)?;
        Ok(())
    }

    /// These bytes, and those behind them.
    pub fn joined(alloc: Global, bytes: &[u8], more: &[u8]) -> Result<LongText, NoMemory>
        ensures { IfOk result (λ t. t ≡ bytes.now ++ more.now) }
    {
        let mut all = Vec::new(alloc);
        all.extend_from_slice(bytes)?;
        all.extend_from_slice(more)?;
        LongText::new(alloc, all)
    }
}
