//! What an answer takes from a head that is at fault (RFC 3261 section 8.2.6.2).

ghost use Rattle.std.specs.Prelude.{◌≡◌, ◌++◌, Some, Option, IfOk, IfSome, OnOk, false, slice_get, filter_map};
ghost use Rattle.std.specs.Option.{option_copied, option_map, option_map_or, option_zip};
ghost use Rattle.sc_tokens.specs.HeaderNames.{call_id_name, cseq_name, from_name, to_name};
ghost use Rattle.sc_value.specs.AnswerableValues.{BeginsWithBranch};
ghost use Rattle.sc_syntax.specs.Addresses.{address_of};
ghost use Rattle.sc_syntax.specs.Sequences.{cseq_of};
ghost use Rattle.sc_syntax.specs.Vias.{vias_of};
ghost use Rattle.sc_syntax.specs.Judging.{has_branch, in_line};
ghost use Rattle.sc_syntax.specs.Lines.{lines_behind};
ghost use Rattle.sc_syntax.specs.Folds.{text_without_folds};
ghost use Rattle.sc_syntax.specs.Fronts.{answerable_in, answerable_of, answerable_with, field_of, once, vias_in, with_branch};
ghost use Rattle.sc_head_text.specs.Answers.{Gives};
ghost use Rattle.sc_stream.specs.Answers.{TakesVias, all_vias, vias_at};
ghost use Rattle.sc_stream.specs.Fields.{AreTrimmed};

use crate::fields::{fields_behind, only_value};
use sc_head_text::{Unread, read_address, read_cseq, read_vias};
use sc_message_text::{
    call_id_name, cseq_name, from_name, has_branch, is_status_line, split_start, to_name, via_name,
};
use sc_value::{
    Address, Answerable, CSeq, Field, HeaderValue, List, NoMemory, Via, is_one_line, same_name,
};
use std::alloc::Global;

// The Vias, From and To, and Call-ID and CSeq.
type Parts = ((List<Via>, (Address, Address)), (HeaderValue, CSeq));

// What an answer to a head with a fault of this kind needs, where the head has it.
#[tactic(auto, unfolding(sc_syntax::specs::Fronts::answerable_of, sc_syntax::specs::Lines::header_lines))]
pub fn answerable_of(alloc: Global, head: &[u8], kind: u8) -> Result<Option<Answerable>, NoMemory>
    ensures { IfOk result
        (λ heads. heads ≡ answerable_of head.now (record { at = 0; kind = kind })) }
{
    let (line, rest) = split_start(head);
    if is_status_line(line) || kind == 1 {
        return Ok(None);
    }
    answerable_behind(alloc, rest)
}

#[tactic(auto, using(crate::proofs::ReadSteps::are_trimmed))]
fn answerable_behind(alloc: Global, rest: Option<&[u8]>) -> Result<Option<Answerable>, NoMemory>
    ensures { IfOk result
        (λ heads.
        heads
        ≡ answerable_in
        (filter_map (λ line. field_of (text_without_folds line))
        (lines_behind (option_copied rest.entry)))) }
{
    let fields = fields_behind(alloc, rest)?;
    answerable_in(alloc, fields.as_slice())
}

// The five headers, where each is there, readable and not doubled.
#[tactic(auto, unfolding(sc_syntax::specs::Fronts::answerable_in))]
fn answerable_in(alloc: Global, fields: &[Field]) -> Result<Option<Answerable>, NoMemory>
    requires { AreTrimmed fields.now }
    ensures { IfOk result (λ heads. heads ≡ answerable_in fields.now) }
{
    let call = read_call(alloc, fields)?;
    let via = vias_in(alloc, fields)?;
    let peers = read_peers(alloc, fields)?;
    Ok(with_parts(via.zip(peers).zip(call)))
}

#[tactic(auto, unfolding(sc_syntax::specs::Fronts::answerable_with))]
fn with_parts(parts: Option<Parts>) -> Option<Answerable>
    requires { IfSome parts (λ parts. BeginsWithBranch parts.0.0) }
    ensures { result ≡ option_map answerable_with parts }
{
    match parts {
        Some(((via, (from, to)), (call_id, cseq))) => Some(Answerable {
            via,
            from,
            to,
            call_id,
            cseq,
        }),
        None => None,
    }
}

// From and To.
fn read_peers(alloc: Global, fields: &[Field]) -> Result<Option<(Address, Address)>, NoMemory>
    ensures { IfOk result
        (λ peers.
        peers
        ≡ option_zip (once address_of from_name fields.now)
        (once address_of to_name fields.now)) }
{
    let from = read_peer(alloc, fields, from_name())?;
    let to = read_peer(alloc, fields, to_name())?;
    Ok(from.zip(to))
}

#[tactic(auto, unfolding(sc_syntax::specs::Fronts::once, sc_syntax::specs::Judging::in_line))]
fn read_peer(alloc: Global, fields: &[Field], name: &[u8]) -> Result<Option<Address>, NoMemory>
    ensures { IfOk result (λ peer. peer ≡ once address_of name.now fields.now) }
{
    match only_value(fields, name) {
        Some(value) => {
            if !is_one_line(value) {
                return Ok(None);
            }
            told(read_address(alloc, value))
        }
        None => Ok(None),
    }
}

// What is read, or None where the value is at fault.
fn told<X: Drop>(read: Result<X, Unread>) -> Result<Option<X>, NoMemory>
    ensures { (o : Option X) → Gives read o → IfOk result (λ x. x ≡ o) }
{
    match read {
        Ok(x) => Ok(Some(x)),
        Err(Unread::Fault) => Ok(None),
        Err(Unread::NoMemory) => Err(NoMemory),
    }
}

// Call-ID and CSeq.
fn read_call(alloc: Global, fields: &[Field]) -> Result<Option<(HeaderValue, CSeq)>, NoMemory>
    requires { AreTrimmed fields.now }
    ensures { IfOk result
        (λ call.
        call
        ≡ option_zip (once Some call_id_name fields.now) (once cseq_of cseq_name fields.now)) }
{
    let call_id = read_call_id(alloc, fields)?;
    let cseq = read_sequence(alloc, fields)?;
    Ok(call_id.zip(cseq))
}

#[tactic(auto, unfolding(sc_syntax::specs::Fronts::once, sc_syntax::specs::Judging::in_line), using(crate::proofs::ReadSteps::only_is_value))]
fn read_call_id(alloc: Global, fields: &[Field]) -> Result<Option<HeaderValue>, NoMemory>
    requires { AreTrimmed fields.now }
    ensures { IfOk result (λ text. text ≡ once Some call_id_name fields.now) }
{
    match only_value(fields, call_id_name()) {
        Some(value) => {
            if !is_one_line(value) {
                return Ok(None);
            }
            Ok(Some(HeaderValue::from_slice(alloc, value)?))
        }
        None => Ok(None),
    }
}

#[tactic(auto, unfolding(sc_syntax::specs::Fronts::once, sc_syntax::specs::Judging::in_line))]
fn read_sequence(alloc: Global, fields: &[Field]) -> Result<Option<CSeq>, NoMemory>
    ensures { IfOk result (λ cseq. cseq ≡ once cseq_of cseq_name fields.now) }
{
    match only_value(fields, cseq_name()) {
        Some(value) => {
            if !is_one_line(value) {
                return Ok(None);
            }
            told(read_cseq(alloc, value))
        }
        None => Ok(None),
    }
}

// All Vias, where each is readable and the first has its branch.
#[tactic(auto, unfolding(sc_syntax::specs::Fronts::vias_in))]
fn vias_in(alloc: Global, fields: &[Field]) -> Result<Option<List<Via>>, NoMemory>
    ensures { IfOk result (λ vias. vias ≡ vias_in fields.now) }
{
    match all_vias(alloc, fields) {
        Ok(vias) => Ok(with_branch(vias)),
        Err(Unread::Fault) => Ok(None),
        Err(Unread::NoMemory) => Err(NoMemory),
    }
}

#[tactic(auto, unfolding(sc_syntax::specs::Fronts::with_branch))]
fn with_branch(vias: List<Via>) -> Option<List<Via>>
    ensures { result ≡ with_branch vias }
{
    if begins_well(vias.as_slice()) {
        Some(vias)
    } else {
        None
    }
}

// Whether there is a first Via, with its branch.
fn begins_well(vias: &[Via]) -> bool
    ensures { result ≡ option_map_or has_branch (slice_get vias.now 0) false }
{
    match vias.first() {
        Some(via) => has_branch(via),
        None => false,
    }
}

// The Vias of all fields of that name.
fn all_vias(alloc: Global, fields: &[Field]) -> Result<List<Via>, Unread>
    ensures { Gives result (all_vias fields.now) }
{
    let mut vias = List::new(alloc);
    for i in 0..fields.len() {
        match put_field(&mut vias, alloc, &fields[i]) {
            Ok(()) => {}
            Err(unread) => return Err(unread),
        }
    }
    Ok(vias)
}

// The Vias of a field, where it has that name, at the end.
#[tactic(auto, unfolding(crate::specs::Answers::vias_at))]
fn put_field(vias: &mut List<Via>, alloc: Global, field: &Field) -> Result<(), Unread>
    ensures { TakesVias result vias.old vias.new (vias_at field.now) }
{
    if !same_name(field.name.as_bytes(), via_name()) {
        return Ok(());
    }
    put_vias(vias, alloc, field.value.as_bytes())
}

// The Vias of one value, at the end.
#[tactic(auto, unfolding(sc_syntax::specs::Judging::in_line))]
fn put_vias(vias: &mut List<Via>, alloc: Global, value: &[u8]) -> Result<(), Unread>
    ensures { TakesVias result vias.old vias.new (in_line vias_of value.now) }
{
    if !is_one_line(value) {
        return Err(Unread::Fault);
    }
    let more = read_vias(alloc, value)?;
    append(vias, more)?;
    Ok(())
}

// All items of the second list, behind those of the first.
fn append(items: &mut List<Via>, more: List<Via>) -> Result<(), NoMemory>
    ensures { OnOk result (items.new ≡ items.old ++ more) }
{
    let mut more = more.items;
    items.items.append(&mut more)?;
    Ok(())
}
