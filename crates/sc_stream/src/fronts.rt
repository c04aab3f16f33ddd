//! What the bytes of a stream begin with (RFC 3261 sections 7.5 and 18.3).

ghost use Rattle.std.specs.Prelude.{◌≡◌, ◌≤◌, ◌+◌, [], Ok, None, IfOk, IfSome, if◌then◌else◌, drop, length, nat_le, take, unwrap_or};
ghost use Rattle.sc_syntax.specs.declared.ending.Ending.TheVariants.{Empty};
ghost use Rattle.sc_syntax.specs.Lines.{end_of};
ghost use Rattle.sc_syntax.specs.Messages.{lacking, message_in, parts_in};
ghost use Rattle.sc_syntax.specs.Fronts.{bad_front, front_after_head, front_of, front_of_length, whole};
ghost use Rattle.sc_syntax.specs.declared.front.Front.TheVariants.{Open, Long};
ghost use Rattle.sc_stream.specs.declared.fronts.Wanted.TheVariants.{Nothing};
ghost use Rattle.sc_stream.specs.Knowing.{IsLenOf, Tells};

use crate::answering::answerable_of;
use sc_message_text::{MessageRefused, end_of, lacking, put_together, read_head};
use sc_syntax::{Ending, Front, HeadParts};
use sc_value::{NoMemory, Text};
use std::alloc::Global;

/// What a text begins with whose first bytes are no CR LF (RFC 3261 sections 7.5 and 18.3): exactly
/// `front_of`. `Whole` is a message of at most 65,535 bytes, with its length and itself. `Bad` comes as
/// soon as the empty line of a head has come that spells none, and says the place and the kind of
/// its first fault. `Long` comes exactly where the first 65,535 bytes hold no empty line and a
/// further byte has come, or where head and body together have more. Else it is `Open`. `NoMemory`
/// says nothing of the text.
#[tactic(auto, unfolding(sc_syntax::specs::Fronts::front_of))]
pub fn front(alloc: Global, b: &[u8]) -> Result<Front, NoMemory>
    ensures { IfOk result (λ front. front ≡ front_of b.now) }
{
    match head_end(b) {
        Some(end) => headed(alloc, b, &b[..end]),
        None => Ok(unended(b)),
    }
}

// The place of the empty line, which lies within the limit.
fn head_end(text: &[u8]) -> Option<usize>
    ensures exact { result ≡ end_of Empty (take 65535 text.now) }
    ensures whole { IfSome result (λ end. end + 4 ≤ length text.now) }
    ensures within { IfSome result (λ end. end + 4 ≤ 65535) }
{
    end_of(Ending::Empty, within_limit(text))
}

/// As many bytes as a message has at most.
pub fn within_limit(text: &[u8]) -> &[u8]
    ensures exact { result.now ≡ take 65535 text.now }
    ensures whole { length result.now ≤ length text.now }
    ensures within { length result.now ≤ 65535 }
{
    if text.len() < 65_535 {
        text
    } else {
        &text[..65_535]
    }
}

/// What a text begins with that has no empty line within the limit.
pub fn unended(text: &[u8]) -> Front
    ensures { result ≡ if nat_le (length text.now) 65535 then Open else Long }
{
    if text.len() <= 65_535 {
        Front::Open
    } else {
        Front::Long
    }
}

// A text with this head.
fn headed(alloc: Global, text: &[u8], head: &[u8]) -> Result<Front, NoMemory>
    requires { length head.now + 4 ≤ 65535 }
    ensures { IfOk result
        (λ front. front ≡ front_after_head text.now head.now (message_in head.now [])) }
{
    match wanted_by(alloc, head) {
        Ok(Wanted::Body { len, parts }) => sized(alloc, text, head, len, parts),
        Ok(Wanted::Nothing(front)) => Ok(front),
        Err(NoMemory) => Err(NoMemory),
    }
}

/// What a head tells of its message.
#[derive(Drop)]
pub enum Wanted {
    /// It has so many bytes with its body, at most 65,535, and its head is read.
    Body { len: usize, parts: HeadParts },
    /// No more is wanted: every text with the head begins with this.
    Nothing(Front),
}

/// What this head tells, which is read once. Only the length of its body can't be at fault yet.
pub fn wanted_by(alloc: Global, head: &[u8]) -> Result<Wanted, NoMemory>
    requires { length head.now + 4 ≤ 65535 }
    ensures { IfOk result (λ wanted. Tells wanted head.now) }
{
    match read_head(alloc, head) {
        Ok(parts) => wanted_with(alloc, head, parts),
        Err(MessageRefused::Refused { at, kind }) => wanted_never(alloc, head, at, kind),
        Err(MessageRefused::NoMemory) => Err(NoMemory),
    }
}

// A head with this fault, which isn't the length of its body.
fn wanted_never(alloc: Global, head: &[u8], at: usize, kind: u8) -> Result<Wanted, NoMemory>
    ensures { IfOk result
        (λ wanted. wanted ≡ Nothing (bad_front head.now (record { at = at; kind = kind }))) }
{
    match bad(alloc, head, at, kind) {
        Ok(front) => Ok(Wanted::Nothing(front)),
        Err(NoMemory) => Err(NoMemory),
    }
}

// A head whose lines have no fault.
fn wanted_with(alloc: Global, head: &[u8], parts: HeadParts) -> Result<Wanted, NoMemory>
    requires within { length head.now + 4 ≤ 65535 }
    requires read { parts_in head.now ≡ Ok parts }
    ensures { IfOk result (λ wanted. Tells wanted head.now) }
{
    match lacking(&parts) {
        Some(kind) => wanted_never(alloc, head, head.len() + 2, kind),
        None => Ok(wanted_body(head, parts)),
    }
}

// A head that lacks nothing.
#[tactic(auto, using(crate::proofs::Telling::body_told, crate::proofs::Telling::long_told))]
fn wanted_body(head: &[u8], parts: HeadParts) -> Wanted
    requires within { length head.now + 4 ≤ 65535 }
    requires read { parts_in head.now ≡ Ok parts }
    requires none { lacking parts ≡ None }
    ensures { Tells result head.now }
{
    match len_with(head, parts.left.singles.length) {
        Some(len) => Wanted::Body { len, parts },
        None => Wanted::Nothing(Front::Long),
    }
}

// How many bytes a head has with a body of this Content-Length, where they are within the limit.
fn len_with(head: &[u8], told: Option<u64>) -> Option<usize>
    requires { length head.now + 4 ≤ 65535 }
    ensures { IsLenOf result (length head.now + 4 + unwrap_or told 0) }
{
    let body = told.unwrap_or(0);
    if body > 65_535 {
        return None;
    }
    let len = head.len() + 4 + body as usize;
    if len > 65_535 {
        return None;
    }
    Some(len)
}

/// Head and body, which have so many bytes together. The head is read.
#[tactic(auto, unfolding(sc_syntax::specs::Fronts::front_of_length))]
pub fn sized(
    alloc: Global,
    text: &[u8],
    head: &[u8],
    len: usize,
    parts: HeadParts,
) -> Result<Front, NoMemory>
    requires whole { length head.now + 4 ≤ len }
    requires within { len ≤ 65535 }
    requires read { parts_in head.now ≡ Ok parts }
    ensures { IfOk result (λ front. front ≡ front_of_length text.now head.now len) }
{
    if len > text.len() {
        return Ok(Front::Open);
    }
    match Text::from_slice(alloc, body_in(text, head.len(), len)) {
        Ok(body) => whole(alloc, head, body, len, parts),
        Err(NoMemory) => Err(NoMemory),
    }
}

/// The body of a message of so many bytes, whose head ends at this place.
pub fn body_in(text: &[u8], end: usize, len: usize) -> &[u8]
    requires whole { end + 4 ≤ len }
    requires there { len ≤ length text.now }
    requires within { len ≤ 65535 }
    ensures { result.now ≡ drop (end + 4) (take len text.now) }
{
    let message = &text[..len];
    &message[end + 4..]
}

/// A message that is there whole. Its head is read.
#[tactic(auto, using(crate::proofs::Telling::whole_bad))]
pub fn whole(
    alloc: Global,
    head: &[u8],
    body: Text,
    len: usize,
    parts: HeadParts,
) -> Result<Front, NoMemory>
    requires within { length head.now + 4 ≤ 65535 }
    requires read { parts_in head.now ≡ Ok parts }
    ensures { IfOk result (λ front. front ≡ whole head.now len (message_in head.now body)) }
{
    match put_together(alloc, parts, body)? {
        Ok(message) => Ok(Front::Whole { len, message }),
        Err(kind) => bad(alloc, head, head.len() + 2, kind),
    }
}

// A head with this fault.
#[tactic(auto, unfolding(sc_syntax::specs::Fronts::bad_front, sc_syntax::specs::Fronts::answerable_of))]
fn bad(alloc: Global, head: &[u8], at: usize, kind: u8) -> Result<Front, NoMemory>
    ensures { IfOk result (λ front. front ≡ bad_front head.now (record { at = at; kind = kind })) }
{
    let heads = answerable_of(alloc, head, kind)?;
    Ok(Front::Bad { at, kind, heads })
}
