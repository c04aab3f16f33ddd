//! What a header line leaves of the values that are read from it (RFC 3261 section 20).

ghost use Rattle.std.specs.Prelude.{◌≡◌, ◌++◌, ◌∷◌, [], OnOk};
ghost use Rattle.sc_syntax.specs.declared.left.Left.{Left};
ghost use Rattle.sc_syntax.specs.Judging.{begins_well, has_branch, with_call_id, with_contacts, with_cseq, with_field, with_from, with_hops, with_length, with_record_routes, with_routes, with_to, with_values, with_vias};
ghost use Rattle.sc_value.specs.OtherFields.{IsOther};
ghost use Rattle.sc_message_text.specs.Answers.{Takes};

use crate::refused::LineRefused;
use sc_syntax::Left;
use sc_value::{
    Address, CSeq, Contact, Field, HeaderValue, List, NoMemory, Others, Shared, Via, branch,
};
use std::alloc::Global;

// So many values more, where there is room for them.
#[tactic(auto, unfolding(sc_syntax::specs::Judging::with_values))]
fn count(left: &mut Left, n: usize) -> Result<(), LineRefused>
    ensures { Takes result left.new (with_values n left.old) }
{
    if n > left.room {
        return Err(LineRefused::Fault(11));
    }
    left.room -= n;
    Ok(())
}

// All items of the second list, behind those of the first. Where there are none yet, they keep
// their room, as most headers stand once.
fn append<T: Drop>(items: &mut List<T>, more: List<T>) -> Result<(), NoMemory>
    ensures { OnOk result (items.new ≡ items.old ++ more) }
{
    if items.is_empty() {
        *items = more;
        return Ok(());
    }
    let mut more = more.items;
    items.items.append(&mut more)?;
    Ok(())
}

fn put_last(fields: &mut Others, field: Field) -> Result<(), NoMemory>
    requires { IsOther field }
    ensures { OnOk result (fields.new ≡ fields.old ++ field ∷ []) }
{
    fields.push(field)?;
    Ok(())
}

/// Whether the Via's parameter `branch` is there and isn't empty (RFC 3261 section 8.1.1.7).
#[tactic(auto, unfolding(sc_syntax::specs::Judging::has_branch, sc_value::specs::Params::branch_name))]
pub fn has_branch(via: &Via) -> bool
    ensures { result ≡ has_branch via.now }
{
    match branch(via) {
        Some(branch) => !branch.is_empty(),
        None => false,
    }
}

// Whether the first Via of the message has its branch.
#[tactic(auto, unfolding(sc_syntax::specs::Judging::begins_well))]
fn begins_well(left: &Left, vias: &[Via]) -> bool
    ensures { result ≡ begins_well left.now vias.now }
{
    if !left.lists.via.is_empty() {
        return true;
    }
    match vias.first() {
        Some(via) => has_branch(via),
        None => false,
    }
}

#[tactic(auto, unfolding(sc_syntax::specs::Judging::with_vias))]
pub fn keep_vias(left: &mut Left, vias: List<Via>) -> Result<(), LineRefused>
    ensures { Takes result left.new (with_vias left.old vias) }
{
    if !begins_well(left, vias.as_slice()) {
        return Err(LineRefused::Fault(9));
    }
    let n = vias.len();
    append(&mut left.lists.via, vias)?;
    count(left, n)
}

#[tactic(auto, unfolding(sc_syntax::specs::Judging::with_routes))]
pub fn keep_routes(left: &mut Left, items: List<Address>) -> Result<(), LineRefused>
    ensures { Takes result left.new (with_routes left.old items) }
{
    let n = items.len();
    append(&mut left.lists.route, items)?;
    count(left, n)
}

#[tactic(auto, unfolding(sc_syntax::specs::Judging::with_record_routes))]
pub fn keep_record_routes(left: &mut Left, items: List<Address>) -> Result<(), LineRefused>
    ensures { Takes result left.new (with_record_routes left.old items) }
{
    let n = items.len();
    append(&mut left.lists.record_route, items)?;
    count(left, n)
}

#[tactic(auto, unfolding(sc_syntax::specs::Judging::with_contacts))]
pub fn keep_contacts(left: &mut Left, items: List<Contact>) -> Result<(), LineRefused>
    ensures { Takes result left.new (with_contacts left.old items) }
{
    let n = items.len();
    append(&mut left.lists.contact, items)?;
    count(left, n)
}

#[tactic(auto, unfolding(sc_syntax::specs::Judging::with_from))]
pub fn keep_from(left: &mut Left, alloc: Global, address: Address) -> Result<(), LineRefused>
    ensures { Takes result left.new (with_from left.old address) }
{
    left.singles.from = Some(Shared::new(alloc, address)?);
    count(left, 1)
}

#[tactic(auto, unfolding(sc_syntax::specs::Judging::with_to))]
pub fn keep_to(left: &mut Left, alloc: Global, address: Address) -> Result<(), LineRefused>
    ensures { Takes result left.new (with_to left.old address) }
{
    left.singles.to = Some(Shared::new(alloc, address)?);
    count(left, 1)
}

#[tactic(auto, unfolding(sc_syntax::specs::Judging::with_call_id))]
pub fn keep_call_id(left: &mut Left, text: HeaderValue) -> Result<(), LineRefused>
    ensures { Takes result left.new (with_call_id left.old text) }
{
    left.singles.call_id = Some(text);
    count(left, 1)
}

#[tactic(auto, unfolding(sc_syntax::specs::Judging::with_cseq))]
pub fn keep_cseq(left: &mut Left, cseq: CSeq) -> Result<(), LineRefused>
    ensures { Takes result left.new (with_cseq left.old cseq) }
{
    left.singles.cseq = Some(cseq);
    count(left, 1)
}

#[tactic(auto, unfolding(sc_syntax::specs::Judging::with_hops))]
pub fn keep_hops(left: &mut Left, hops: u8) -> Result<(), LineRefused>
    ensures { Takes result left.new (with_hops left.old hops) }
{
    left.singles.hops = Some(hops);
    count(left, 1)
}

#[tactic(auto, unfolding(sc_syntax::specs::Judging::with_length))]
pub fn keep_length(left: &mut Left, len: u64) -> Result<(), LineRefused>
    ensures { Takes result left.new (with_length left.old len) }
{
    left.singles.length = Some(len);
    count(left, 1)
}

#[tactic(auto, unfolding(sc_syntax::specs::Judging::with_field))]
pub fn keep_field(left: &mut Left, field: Field) -> Result<(), LineRefused>
    requires { IsOther field }
    ensures { Takes result left.new (with_field left.old field.name field.value) }
{
    put_last(&mut left.lists.others, field)?;
    count(left, 1)
}
