//! Tags, and the greatest sequence number that came from each (RFC 3261 section 12.2.2).

ghost use Rattle.std.specs.Prelude.{◌≡◌, ◌++◌, ◌∷◌, [], OnOk, position};
ghost use Rattle.std.specs.List.{list_any};
ghost use Rattle.std.specs.Option.{option_copied};
ghost use Rattle.sc_value.specs.Lists.{change_first};
ghost use Rattle.sc_hosts.specs.Legs.{from_tag, greatest_got, is_low, same_tag, to_tag, with_got};
ghost use Rattle.sc_legs.specs.Numbers.{is_from, with_number_at_least};

use sc_methods::is_ack;
use sc_state::{Got, Leg};
use sc_value::{CloneIn, List, NoMemory, Request, Text, tag};
use std::alloc::Global;

/// Whether two tags are the same; that there is none is a value of its own.
#[tactic(auto, unfolding(sc_hosts::specs::Legs::same_tag))]
pub fn same_tag(a: Option<&Text>, b: Option<&Text>) -> bool
    ensures { result ≡ same_tag (option_copied a.entry) (option_copied b.entry) }
{
    match (a, b) {
        (Some(a), Some(b)) => a.as_bytes() == b.as_bytes(),
        (None, None) => true,
        (Some(_), None) | (None, Some(_)) => false,
    }
}

/// The tag of a request's From.
pub fn from_tag(request: &Request) -> Option<&Text>
    ensures { option_copied result ≡ from_tag request.now }
{
    tag(&request.head.from)
}

/// The tag of a request's To.
pub fn to_tag(request: &Request) -> Option<&Text>
    ensures { option_copied result ≡ to_tag request.now }
{
    tag(&request.head.to)
}

/// Whether a number came from this tag.
#[tactic(auto, unfolding(crate::specs::Numbers::is_from))]
pub fn is_from(got: &Got, tag: Option<&Text>) -> bool
    ensures { result ≡ is_from (option_copied tag.entry) got.now }
{
    same_tag(got.tag.as_ref(), tag)
}

fn got_place(got: &[Got], tag: Option<&Text>) -> Option<usize>
    ensures { result ≡ position (is_from (option_copied tag.entry)) got.now }
{
    got.iter().position(|got| is_from(got, tag))
}

fn has_got(got: &[Got], tag: Option<&Text>) -> bool
    ensures { result ≡ list_any (is_from (option_copied tag.entry)) got.now }
{
    got.iter().any(|got| is_from(got, tag))
}

#[tactic(auto, unfolding(crate::specs::Numbers::with_number_at_least))]
fn raise(got: &mut Got, number: u32)
    ensures { got.new ≡ with_number_at_least number got.old }
{
    got.number = got.number.max(number);
}

#[tactic(auto, using(sc_value::proofs::ListFacts::change_first_position, sc_value::proofs::ListFacts::change_first_none))]
fn raise_in(got: &mut [Got], tag: Option<&Text>, number: u32)
    ensures { got.new
        ≡ change_first (is_from (option_copied tag.entry)) (with_number_at_least number) got.old }
{
    match got_place(got, tag) {
        Some(at) => raise(&mut got[at], number),
        None => {}
    }
}

fn add_got(
    alloc: Global,
    got: &mut List<Got>,
    tag: Option<&Text>,
    number: u32,
) -> Result<(), NoMemory>
    ensures { OnOk result
        (got.new ≡ got.old ++ record { tag = option_copied tag.entry; number = number } ∷ []) }
{
    let tag = match tag {
        Some(tag) => Some(tag.clone_in(alloc)?),
        None => None,
    };
    got.push(Got { tag, number })?;
    Ok(())
}

/// Notes that a request with this number came from this tag.
#[tactic(auto, unfolding(sc_hosts::specs::Legs::with_got, crate::specs::Numbers::is_from, crate::specs::Numbers::with_number_at_least))]
pub fn with_got(
    alloc: Global,
    got: &mut List<Got>,
    tag: Option<&Text>,
    number: u32,
) -> Result<(), NoMemory>
    ensures { OnOk result (got.new ≡ with_got (option_copied tag.entry) number got.old) }
{
    if has_got(got.as_slice(), tag) {
        raise_in(&mut got.items, tag, number);
        return Ok(());
    }
    add_got(alloc, got, tag, number)
}

#[tactic(auto, unfolding(sc_hosts::specs::Legs::greatest_got, crate::specs::Numbers::is_from), using(sc_value::proofs::ListFacts::find_position, sc_value::proofs::ListFacts::find_none))]
fn greatest_got(got: &[Got], tag: Option<&Text>) -> u32
    ensures { result ≡ greatest_got (option_copied tag.entry) got.now }
{
    match got_place(got, tag) {
        Some(at) => got[at].number,
        None => 0,
    }
}

/// Whether the request's number is lower than one that came before from its tag. An ACK may have a
/// lower one.
#[tactic(auto, unfolding(sc_hosts::specs::Legs::is_low))]
pub fn is_low(leg: Option<&Leg>, request: &Request) -> bool
    ensures { result ≡ is_low (option_copied leg.entry) request.now }
{
    if is_ack(request.method.as_bytes()) {
        return false;
    }
    match leg {
        Some(leg) => request.head.cseq.number < greatest_got(leg.got.as_slice(), from_tag(request)),
        None => false,
    }
}
