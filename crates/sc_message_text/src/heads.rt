//! The header lines of a message, one after the other (RFC 3261 section 7.3).

ghost use Rattle.std.specs.Prelude.{◌≡◌, ◌≤◌, ◌+◌, ◌^◌, ◌∷◌, Some, None, IfSome, IsTrue, length, take};
ghost use Rattle.std.specs.Option.{option_copied, option_map_or};
ghost use Rattle.sc_syntax.specs.declared.ending.Ending.TheVariants.{Any, Unfolded};
ghost use Rattle.sc_syntax.specs.Folds.{text_without_folds};
ghost use Rattle.sc_syntax.specs.Judging.{left_with_line};
ghost use Rattle.sc_syntax.specs.Lines.{end_of, pieces_at};
ghost use Rattle.sc_syntax.specs.Messages.{all_judged, fault_at_place, no_lists, no_singles, nothing_left as nothing};
ghost use Rattle.sc_message_text.specs.Answers.{Takes, TakesAll, placed_refusal};
ghost use Rattle.sc_message_text.specs.Pieces.{pieces_behind};

use crate::ends::{end_of, is_end, split_piece};
use crate::folds::join;
use crate::refused::{LineRefused, MessageRefused};
use crate::taking::take_line;
use memchr::memchr;
use sc_syntax::{Ending, Left, Lists, Singles};
use sc_value::{List, Others};
use std::alloc::Global;

// What is left before the first header line.
#[tactic(auto, unfolding(sc_syntax::specs::Messages::nothing_left, sc_syntax::specs::Messages::no_lists, sc_syntax::specs::Messages::no_singles))]
pub fn nothing_left(alloc: Global) -> Left
    ensures { result ≡ nothing }
{
    Left {
        room: 128,
        lists: Lists {
            via: List::new(alloc),
            route: List::new(alloc),
            record_route: List::new(alloc),
            contact: List::new(alloc),
            others: Others::new(alloc),
        },
        singles: Singles {
            from: None,
            to: None,
            call_id: None,
            cseq: None,
            hops: None,
            length: None,
        },
    }
}

// The header lines behind an end, of which the first begins at this place, in bytes from the
// message's first one: what they leave, or the place and the kind of the first fault.
pub fn take_lines(
    left: &mut Left,
    alloc: Global,
    rest: Option<&[u8]>,
    at: usize,
) -> Result<(), MessageRefused>
    requires { option_map_or (λ text. at + length text) (option_copied rest) 0 ≤ 2 ^ 63 }
    ensures { TakesAll result left.new
        (all_judged at left.old (pieces_behind Unfolded (option_copied rest.entry))) }
{
    let mut rest = rest;
    let mut place = at;
    loop {
        let text = match rest {
            Some(text) => text,
            None => return Ok(()),
        };
        let (line, more, plain) = split_line(text);
        match take_placed(left, alloc, line, plain, place) {
            Ok(done) => done,
            Err(refused) => return Err(refused),
        }
        place = place + line.len() + 2;
        rest = more;
    }
}

// The first header line, what stands behind its end, where there is one, and whether it is known to
// have no fold.
fn split_line(text: &[u8]) -> (&[u8], Option<&[u8]>, bool)
    ensures exact { pieces_at Unfolded text.now
        ≡ result.0.now ∷ pieces_behind Unfolded (option_copied result.1) }
    ensures within { length result.0.now ≤ length text.now }
    ensures less { IfSome result.1
        (λ rest. length result.0.now + 2 + length rest.now ≡ length text.now) }
    ensures plain { IsTrue result.2 → end_of Any result.0.now ≡ None }
{
    match plain_end(text) {
        Some(end) => (&text[..end], Some(&text[end + 2..]), true),
        None => {
            let (line, more) = split_piece(Ending::Unfolded, text);
            (line, more, false)
        }
    }
}

// The end of the first header line, where the first CR of the text begins it, as in most lines. None
// says nothing of the line.
#[tactic(auto, using(crate::proofs::LineSteps::ends_there, crate::proofs::LineSteps::none_before))]
fn plain_end(text: &[u8]) -> Option<usize>
    ensures exact { IfSome result (λ end. end_of Unfolded text.now ≡ Some end) }
    ensures plain { IfSome result (λ end. end_of Any (take end text.now) ≡ None) }
    ensures within { IfSome result (λ end. end + 2 ≤ length text.now) }
{
    match memchr(b'\r', text) {
        Some(end) => {
            if is_end(Ending::Unfolded, &text[end..]) {
                Some(end)
            } else {
                None
            }
        }
        None => None,
    }
}

// A header line, which begins at this place.
#[tactic(auto, unfolding(sc_syntax::specs::Messages::fault_at_place), using(crate::proofs::HeadSteps::refusal_placed))]
fn take_placed(
    left: &mut Left,
    alloc: Global,
    line: &[u8],
    plain: bool,
    at: usize,
) -> Result<(), MessageRefused>
    requires { IsTrue plain → end_of Any line.now ≡ None }
    ensures { TakesAll result left.new
        (fault_at_place at (left_with_line left.old (text_without_folds line.now))) }
{
    match take_folded(left, alloc, line, plain) {
        Ok(()) => Ok(()),
        Err(refused) => Err(refused_at(at, refused)),
    }
}

// A header line, whose folds are joined first.
#[tactic(auto, using(crate::proofs::FoldSteps::joined_plain))]
fn take_folded(left: &mut Left, alloc: Global, line: &[u8], plain: bool) -> Result<(), LineRefused>
    requires { IsTrue plain → end_of Any line.now ≡ None }
    ensures { Takes result left.new (left_with_line left.old (text_without_folds line.now)) }
{
    if plain || end_of(Ending::Any, line).is_none() {
        return take_line(left, alloc, line);
    }
    let text = join(alloc, line)?;
    take_line(left, alloc, text.as_slice())
}

// A line's refusal, at this place.
pub fn refused_at(at: usize, refused: LineRefused) -> MessageRefused
    ensures { result ≡ placed_refusal at refused }
{
    match refused {
        LineRefused::Fault(kind) => MessageRefused::Refused { at, kind },
        LineRefused::NoMemory => MessageRefused::NoMemory,
    }
}
