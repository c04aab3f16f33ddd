//! Whole messages from text (RFC 3261 section 7).

ghost use Rattle.std.specs.Prelude.{◌≤◌, ◌+◌, ◌^◌, length};
ghost use Rattle.std.specs.Option.{option_copied, option_map_or};
ghost use Rattle.sc_syntax.specs.Messages.{fault_at_place, message_from_parts, message_in, message_of, parts_in};
ghost use Rattle.sc_syntax.specs.StartLines.{start_of};
ghost use Rattle.sc_message_text.specs.Answers.{Reads};
ghost use Rattle.sc_message_text.specs.Pieces.{parts_behind};

use crate::ends::{begins_break, end_of, split_start};
use crate::finishing::put_together;
use crate::heads::{nothing_left, refused_at, take_lines};
use crate::refused::MessageRefused;
use crate::starts::read_start;
use sc_syntax::{Ending, HeadParts, Start};
use sc_value::{Message, NoMemory, Text};
use std::alloc::Global;

/// The message that a text spells (RFC 3261 section 7): all of the text is read, the body as what
/// stands behind the empty line. Header names compare without case and may be compact, folds are
/// joined, and lists may stand in several headers.
///
/// `Refused` comes exactly where the text spells none, with the place, in bytes from 0, and the kind
/// of the first fault. Lines are judged in order, each at its first byte: the start line with 1
/// (the line), 2 (the version), 3 (the method), 4 (the Request-URI) or 5 (the status code), a
/// header line with 6 (its name), 8 (a header that stands twice), 9 (its value) or 11 (the 129th
/// value). Then come, at the empty line, 7 (no From, To, Call-ID, CSeq or Via), 10 (a CSeq of
/// another method) and 12 (a body of another length than Content-Length, which is 0 where it is
/// missing). A text without an empty line has 1 at its end. Of several faults of one line the
/// lowest kind counts. `NoMemory` says nothing of the text.
#[tactic(auto, unfolding(sc_syntax::specs::Messages::message_of))]
pub fn read_message(alloc: Global, b: &[u8]) -> Result<Message, MessageRefused>
    ensures { Reads result (message_of b.now) }
{
    if begins_break(b) {
        return Err(MessageRefused::Refused { at: 0, kind: 1 });
    }
    match end_of(Ending::Empty, b) {
        Some(end) => read_parts(alloc, &b[..end], &b[end + 4..]),
        None => Err(MessageRefused::Refused {
            at: b.len(),
            kind: 1,
        }),
    }
}

/// The message of a head, which is all before its empty line without the CR LF of the last line,
/// and of a body, or the place and the kind of its first fault (RFC 3261 section 7). `NoMemory`
/// says nothing of them.
#[tactic(auto, using(crate::proofs::WholeSteps::parts_finished, crate::proofs::WholeSteps::parts_refused))]
pub fn read_parts(alloc: Global, head: &[u8], body: &[u8]) -> Result<Message, MessageRefused>
    requires { length head.now + 4 ≤ 2 ^ 63 }
    ensures { Reads result (message_in head.now body.now) }
{
    match read_head(alloc, head) {
        Ok(parts) => finish_at(alloc, parts, body, head.len() + 2),
        Err(refused) => Err(refused),
    }
}

/// The start line of a head and what its header lines leave, or the place and the kind of the first
/// fault of the lines (RFC 3261 section 7). [`lacking`](crate::lacking) tells what the head lacks
/// then, and [`put_together`](crate::put_together) makes the message, once the body is there.
/// `NoMemory` says nothing of the head.
pub fn read_head(alloc: Global, head: &[u8]) -> Result<HeadParts, MessageRefused>
    requires { length head.now + 4 ≤ 2 ^ 63 }
    ensures { Reads result (parts_in head.now) }
{
    let (line, rest) = split_start(head);
    match read_first(alloc, line) {
        Ok(start) => read_behind(alloc, start, rest, line.len() + 2),
        Err(refused) => Err(refused),
    }
}

// The start line, which begins at 0.
#[tactic(auto, unfolding(sc_syntax::specs::Messages::fault_at_place), using(crate::proofs::HeadSteps::refusal_placed))]
fn read_first(alloc: Global, line: &[u8]) -> Result<Start, MessageRefused>
    ensures { Reads result (fault_at_place 0 (start_of line.now)) }
{
    match read_start(alloc, line) {
        Ok(start) => Ok(start),
        Err(refused) => Err(refused_at(0, refused)),
    }
}

// What stands behind the start line: header lines, of which the first begins at this place.
fn read_behind(
    alloc: Global,
    start: Start,
    rest: Option<&[u8]>,
    at: usize,
) -> Result<HeadParts, MessageRefused>
    requires { option_map_or (λ text. at + length text) (option_copied rest) 0 ≤ 2 ^ 63 }
    ensures { Reads result (parts_behind start (option_copied rest.entry) at) }
{
    let mut left = nothing_left(alloc);
    match take_lines(&mut left, alloc, rest, at) {
        Ok(()) => Ok(HeadParts { start, left }),
        Err(refused) => {
            drop(left);
            drop(start);
            Err(refused)
        }
    }
}

// The message, or the fault that shows at the empty line, which ends a line at this place.
#[tactic(auto, unfolding(sc_syntax::specs::Messages::fault_at_place))]
fn finish_at(
    alloc: Global,
    parts: HeadParts,
    body: &[u8],
    end: usize,
) -> Result<Message, MessageRefused>
    ensures { Reads result
        (fault_at_place end (message_from_parts parts.start parts.left body.now)) }
{
    match Text::from_slice(alloc, body) {
        Ok(body) => match put_together(alloc, parts, body) {
            Ok(Ok(message)) => Ok(message),
            Ok(Err(kind)) => Err(MessageRefused::Refused { at: end, kind }),
            Err(NoMemory) => Err(MessageRefused::NoMemory),
        },
        Err(NoMemory) => Err(MessageRefused::NoMemory),
    }
}
