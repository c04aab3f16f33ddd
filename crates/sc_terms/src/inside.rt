//! What an application asks for inside a dialog.

use sc_value::{CloneIn, Discard, Field, List, NoMemory, Same, Text};
use std::alloc::Global;

/// A request that an application asks for inside a dialog. All that the dialog knows, such as
/// Request-URI, Route, From, To, Call-ID and CSeq number, is added by the dialog (RFC 3261 section
/// 12.2.1.1).
#[derive(Drop)]
pub struct Inside {
    pub method: Text,
    pub fields: List<Field>,
    pub body: Text,
}

impl CloneIn for Inside {
    fn clone_in(&self, alloc: Global) -> Result<Inside, NoMemory> {
        Ok(Inside {
            method: self.method.clone_in(alloc)?,
            fields: self.fields.clone_in(alloc)?,
            body: self.body.clone_in(alloc)?,
        })
    }
}

impl Same for Inside {
    fn same(&self, other: &Inside) -> bool {
        self.method.same(&other.method)
            && self.fields.same(&other.fields)
            && self.body.same(&other.body)
    }
}

impl Discard for Inside {
    fn discard(self) {
        drop(self);
    }
}
