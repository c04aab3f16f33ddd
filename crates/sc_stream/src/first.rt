//! What is known of the first message of a stream, so that no byte is looked at again and again
//! (RFC 3261 sections 7.5 and 18.3).

ghost use Rattle.std.specs.Prelude.{◌≡◌, ◌≤◌, ◌<◌, ◌+◌, ◌^◌, false, None, IfOk, IfSome, length, take, drop};
ghost use Rattle.sc_syntax.specs.declared.ending.Ending.TheVariants.{Empty};
ghost use Rattle.sc_tokens.specs.Bytes.{Bytes};
ghost use Rattle.sc_syntax.specs.Lines.{begins_break, end_of};
ghost use Rattle.sc_syntax.specs.Fronts.{behind_breaks, front_of};
ghost use Rattle.sc_stream.specs.declared.first.First.{First};
ghost use Rattle.sc_stream.specs.declared.first.Known.TheVariants.{Searched, Read};
ghost use Rattle.sc_stream.specs.Knowing.{IsFirst, IsKnown};

use crate::fronts::{Wanted, body_in, sized, unended, wanted_by, whole, within_limit};
use sc_message_text::{begins_break, end_of};
use sc_syntax::{Ending, Front, HeadParts};
use sc_value::{Boxed, NoMemory, Text};
use std::alloc::Global;

/// What is known of the first message.
#[derive(Drop)]
pub struct First {
    /// So many bytes of line ends stand before it.
    pub breaks: usize,
    /// What is known of its head.
    pub known: Known,
}

/// What is known of a head.
#[derive(Drop)]
pub enum Known {
    /// No empty line ends within so many bytes.
    Searched(usize),
    /// The head ends at `end`, and is read: it has no fault. With its body it has `len` bytes.
    Read {
        end: usize,
        len: usize,
        parts: Boxed<HeadParts>,
    },
}

/// Nothing is known.
#[tactic(auto, using(crate::proofs::Knowing::first_none))]
pub fn nothing_known() -> First
    ensures { (text : Bytes) → IsFirst result text }
{
    First {
        breaks: 0,
        known: Known::Searched(0),
    }
}

/// What stands from this place on.
pub fn behind(text: &[u8], place: usize) -> &[u8]
    requires { place ≤ length text.now }
    ensures exact { result.now ≡ drop place text.now }
    ensures room { length text.now < 2 ^ 63 }
{
    &text[place..]
}

/// Passes line ends that stand before the message.
#[tactic(auto, using(crate::proofs::Knowing::first_on, crate::proofs::Knowing::first_room, crate::proofs::Knowing::none_on, crate::proofs::Knowing::none_here))]
pub fn pass_breaks(text: &[u8], first: First) -> First
    requires { IsFirst first text.now }
    ensures known { IsFirst result text.now }
    ensures none { begins_break (drop result.breaks text.now) ≡ false }
    ensures within { result.breaks ≤ length text.now }
    ensures room { length text.now < 2 ^ 63 }
{
    let passed = breaks_len(behind(text, first.breaks));
    if passed == 0 {
        return first;
    }
    let breaks = first.breaks + passed;
    First {
        breaks,
        known: Known::Searched(0),
    }
}

// How many bytes of line ends stand before a message.
fn breaks_len(text: &[u8]) -> usize
    ensures exact { drop result text.now ≡ behind_breaks text.now }
    ensures none { begins_break (drop result text.now) ≡ false }
    ensures within { result ≤ length text.now }
    ensures room { length text.now < 2 ^ 63 }
{
    let mut place = 0;
    while begins_break(&text[place..]) {
        place += 2;
    }
    place
}

/// What stands behind the line ends begins with this, and so much is known of it then.
pub fn look(alloc: Global, text: &[u8], known: Known) -> (Result<Front, NoMemory>, Known)
    requires known { IsKnown known text.now }
    requires none { begins_break text.now ≡ false }
    ensures front { IfOk result.0 (λ front. front ≡ front_of text.now) }
    ensures known { IsKnown result.1 text.now }
{
    match known {
        Known::Searched(searched) => search(alloc, text, searched),
        Known::Read { end, len, parts } => look_read(alloc, text, end, len, parts),
    }
}

fn head_in(text: &[u8], end: usize) -> &[u8]
    requires { end ≤ length text.now }
    ensures exact { result.now ≡ take end text.now }
    ensures len { length result.now ≡ end }
{
    &text[..end]
}

// The same, where the head is read. It stays so until the body is there and copied.
#[tactic(auto, using(crate::proofs::Knowing::nothing_searched))]
fn look_read(
    alloc: Global,
    text: &[u8],
    end: usize,
    len: usize,
    parts: Boxed<HeadParts>,
) -> (Result<Front, NoMemory>, Known)
    requires { IsKnown (Read end len parts) text.now }
    ensures front { IfOk result.0 (λ front. front ≡ front_of text.now) }
    ensures known { IsKnown result.1 text.now }
{
    if len > text.len() {
        return (Ok(Front::Open), Known::Read { end, len, parts });
    }
    match Text::from_slice(alloc, body_in(text, end, len)) {
        Ok(body) => {
            let front = whole(alloc, head_in(text, end), body, len, parts.into_inner());
            (front, Known::Searched(0))
        }
        Err(NoMemory) => (Err(NoMemory), Known::Read { end, len, parts }),
    }
}

// The same, where the empty line is still looked for.
#[tactic(auto, using(crate::proofs::Knowing::open_front, crate::proofs::Knowing::searched_all))]
fn search(alloc: Global, text: &[u8], searched: usize) -> (Result<Front, NoMemory>, Known)
    requires known { IsKnown (Searched searched) text.now }
    requires none { begins_break text.now ≡ false }
    ensures front { IfOk result.0 (λ front. front ≡ front_of text.now) }
    ensures known { IsKnown result.1 text.now }
{
    match end_behind(text, searched) {
        Some(end) => judge(alloc, text, end, searched),
        None => (Ok(unended(text)), Known::Searched(within_limit(text).len())),
    }
}

// The place of the empty line within the limit. It ends behind the bytes that were searched.
#[tactic(auto, using(crate::proofs::Knowing::search_on, crate::proofs::Knowing::search_room))]
fn end_behind(text: &[u8], searched: usize) -> Option<usize>
    requires { IsKnown (Searched searched) text.now }
    ensures exact { result ≡ end_of Empty (take 65535 text.now) }
    ensures whole { IfSome result (λ end. end + 4 ≤ length text.now) }
    ensures within { IfSome result (λ end. end + 4 ≤ 65535) }
{
    let passed = searched.saturating_sub(3);
    match end_of(Ending::Empty, behind(within_limit(text), passed)) {
        Some(end) => Some(passed + end),
        None => None,
    }
}

// The head ends here: what it tells.
#[tactic(auto, using(crate::proofs::Knowing::is_read))]
fn judge(
    alloc: Global,
    text: &[u8],
    end: usize,
    searched: usize,
) -> (Result<Front, NoMemory>, Known)
    requires known { IsKnown (Searched searched) text.now }
    requires none { begins_break text.now ≡ false }
    requires ended { end_of Empty (take 65535 text.now) ≡ Some end }
    requires whole { end + 4 ≤ length text.now }
    requires within { end + 4 ≤ 65535 }
    ensures front { IfOk result.0 (λ front. front ≡ front_of text.now) }
    ensures known { IsKnown result.1 text.now }
{
    match wanted_by(alloc, &text[..end]) {
        Ok(Wanted::Body { len, parts }) => judge_body(alloc, text, end, searched, len, parts),
        Ok(Wanted::Nothing(front)) => (Ok(front), Known::Searched(searched)),
        Err(NoMemory) => (Err(NoMemory), Known::Searched(searched)),
    }
}

// The head is read: the message, where it is there whole. Else the head is kept so, where there is
// memory for it; where there is none, it will be read again.
fn judge_body(
    alloc: Global,
    text: &[u8],
    end: usize,
    searched: usize,
    len: usize,
    parts: HeadParts,
) -> (Result<Front, NoMemory>, Known)
    requires known { IsKnown (Searched searched) text.now }
    requires read { IsKnown (Read end len parts) text.now }
    ensures front { IfOk result.0 (λ front. front ≡ front_of text.now) }
    ensures known { IsKnown result.1 text.now }
{
    if len > text.len() {
        return match Boxed::new(alloc, parts) {
            Ok(parts) => (Ok(Front::Open), Known::Read { end, len, parts }),
            Err(NoMemory) => (Ok(Front::Open), Known::Searched(searched)),
        };
    }
    let front = sized(alloc, text, head_in(text, end), len, parts);
    (front, Known::Searched(searched))
}
