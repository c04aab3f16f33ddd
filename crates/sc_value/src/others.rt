//! The headers of a message that have no structure here.

ghost use Rattle.std.specs.Prelude.{◌≡◌, ◌==◌, ◌<◌, ◌∷◌, [], ◌++◌, Some, length, slice_get, IfOk, OnOk, OnErr, IsTrue, ◌↔◌};
ghost use Rattle.sc_value.specs.OtherFields.{IsOther, AreOthers};

use crate::{
    CloneIn, Field, List, NoMemory, Same, SharedList, is_system_name, is_token, is_value, long_name,
};
use std::alloc::Global;
use std::marker::Model;

/// The headers without structure, in order. Each name is a token, never in compact form, and none
/// that the container reads or sets itself; each value is one line without a blank at an end (RFC
/// 3261 sections 7.3.1, 7.3.3 and 20). A copy takes no memory. A contract sees them as a list of
/// fields.
#[derive(Drop)]
pub struct Others {
    list: SharedList<Field>,
}

impl Model for Others {
    ghost use Rattle.std.specs.Prelude.{List as Items};
    ghost use Rattle.sc_value.specs.declared.parts.Field.{Field};
    ghost use Rattle.sc_value.specs.OtherFields.{AreOthers};

    ghost Value = { Items Field };

    ghost view = { λ o. o.list };

    ghost invariant = { λ o. AreOthers o.list };
}

impl Others {
    /// No header. It takes no memory.
    #[tactic(auto, unfolding(crate::specs::OtherFields::AreOthers))]
    pub fn new(alloc: Global) -> Others
        ensures { result ≡ [] }
    {
        Others {
            list: SharedList::new(alloc),
        }
    }

    /// The headers in order.
    pub fn as_slice(&self) -> &[Field]
        ensures { result.now ≡ self.now }
    {
        self.list.as_slice()
    }

    /// A list of its own with the same headers.
    pub fn to_list(&self) -> Result<List<Field>, NoMemory>
        ensures { IfOk result (λ l. l ≡ self.now) }
    {
        self.list.to_list()
    }

    /// How many headers there are.
    pub fn len(&self) -> usize
        ensures { result ≡ length self.now }
    {
        self.list.len()
    }

    /// Whether there is no header.
    pub fn is_empty(&self) -> bool
        ensures { result ≡ (length self.now == 0) }
    {
        self.list.is_empty()
    }

    /// Puts a header at the end. `Err` for want of memory alone, and nothing is changed then.
    #[tactic(auto, using(crate::proofs::OtherLaws::others_with))]
    pub fn push(&mut self, field: Field) -> Result<(), NoMemory>
        requires { IsOther field }
        ensures ok { OnOk result (self.new ≡ self.old ++ field ∷ []) }
        ensures err { OnErr result (self.new ≡ self.old) }
    {
        self.list.push(field)?;
        Ok(())
    }

    /// Puts a copy of the header at this place of others at the end. `Err` for want of memory
    /// alone, and nothing is changed then.
    #[tactic(auto, using(crate::proofs::OtherLaws::other_at, crate::proofs::OtherLaws::is_at))]
    pub fn push_copy(&mut self, alloc: Global, others: &Others, at: usize) -> Result<(), NoMemory>
        requires { at < length others.now }
        ensures ok { OnOk result
            ((field : Field) → slice_get others.now at ≡ Some field
            → self.new ≡ self.old ++ field ∷ []) }
        ensures err { OnErr result (self.new ≡ self.old) }
    {
        others.known();
        self.put_copy(alloc, &others.as_slice()[at])
    }

    fn put_copy(&mut self, alloc: Global, field: &Field) -> Result<(), NoMemory>
        requires { IsOther field.now }
        ensures ok { OnOk result (self.new ≡ self.old ++ field.now ∷ []) }
        ensures err { OnErr result (self.new ≡ self.old) }
    {
        let copy = field.clone_in(alloc)?;
        self.push(copy)
    }

    /// Each is a header without structure.
    pub fn known(&self)
        ensures { AreOthers self.now }
    {
        let _ = &self.list;
    }
}

impl CloneIn for Others {
    fn clone_in(&self, alloc: Global) -> Result<Others, NoMemory> {
        let list = self.list.clone_in(alloc)?;
        Ok(Others { list })
    }
}

impl Same for Others {
    fn same(&self, other: &Others) -> bool {
        self.list.same(&other.list)
    }
}

/// Whether the field can be a header without structure: its name is a token, never in compact form,
/// and none that the container reads or sets itself, and its value is that of a header.
#[tactic(auto)]
pub fn is_other(field: &Field) -> bool
    ensures { IsTrue result ↔ IsOther field.now }
{
    let name = field.name.as_bytes();
    is_token(name)
        && long_name(name) == name
        && !is_system_name(name)
        && is_value(field.value.as_bytes())
}
