//! Values cut at their separators, and each part read.

ghost use Rattle.std.specs.Prelude.{◌≡◌, ◌≤◌, ◌<◌, ◌∷◌, ◌++◌, [], Option, IfSome, OnOk, length, true};
ghost use Rattle.std.specs.List.{list_all};
ghost use Rattle.std.specs.Option.{option_copied};
ghost use Rattle.sc_tokens.specs.Bytes.{Bytes};
ghost use Rattle.sc_tokens.specs.Tokens.{is_one_line};
ghost use Rattle.sc_syntax.specs.Scanning.{all_read, parts};
ghost use Rattle.sc_head_text.specs.Answers.{Gives};
ghost use Rattle.sc_head_text.specs.Parts.{part_len, parts_behind};

use crate::Unread;
use crate::scanning::{is_part_end, past};
use memchr::memchr;
use sc_syntax::Scan;
use sc_value::{List, NoMemory};
use std::alloc::Global;

// A value that one part of a text has, whole. The part is of one line.
pub trait Readable: Drop {
    ghost read_of: { Bytes → Option Self };

    fn read(alloc: Global, text: &[u8]) -> Result<Self, Unread>
        requires { is_one_line text.now ≡ true }
        ensures { Gives result (read_of text.now) };
}

// Each part of the text, read; none where there is no text.
pub fn read_parts<T: Readable>(
    alloc: Global,
    text: Option<&[u8]>,
    sign: u8,
    start: Scan,
) -> Result<List<T>, Unread>
    requires { list_all is_one_line (parts_behind start sign (option_copied text)) ≡ true }
    ensures { Gives result
        (all_read T.read_of (parts_behind start sign (option_copied text.entry))) }
{
    let mut items = List::new(alloc);
    let mut rest = text;
    loop {
        let text = match rest {
            Some(text) => text,
            None => return Ok(items),
        };
        let (part, more) = split_part(text, sign, start);
        let item = match T::read(alloc, part) {
            Ok(item) => item,
            Err(unread) => return Err(unread),
        };
        put_last(&mut items, item)?;
        rest = more;
    }
}

fn put_last<T: Readable>(items: &mut List<T>, item: T) -> Result<(), NoMemory>
    ensures { OnOk result (items.new ≡ items.old ++ item ∷ []) }
{
    match items.push(item) {
        Ok(()) => Ok(()),
        Err(_) => Err(NoMemory),
    }
}

// The first part, and what stands behind its separator, where there is one.
#[tactic(auto, unfolding(crate::specs::Parts::parts_behind), using(crate::proofs::PartSteps::parts_last, crate::proofs::PartSteps::parts_more))]
pub fn split_part(text: &[u8], sign: u8, at: Scan) -> (&[u8], Option<&[u8]>)
    ensures exact { (restart : Scan)
        → parts restart sign at text.now
        ≡ result.0.now ∷ parts_behind restart sign (option_copied result.1) }
    ensures less { IfSome result.1 (λ rest. length rest.now < length text.now) }
{
    let len = part_len(text, sign, at);
    if len == text.len() {
        (text, None)
    } else {
        (&text[..len], Some(&text[len + 1..]))
    }
}

// How many bytes stand before the first separator that parts. A text without such a byte isn't
// scanned.
fn part_len(text: &[u8], sign: u8, at: Scan) -> usize
    ensures exact { result ≡ part_len sign at text.now }
    ensures within { result ≤ length text.now }
{
    match memchr(sign, text) {
        Some(_) => scanned_len(text, sign, at),
        None => text.len(),
    }
}

#[tactic(auto, using(crate::proofs::PartSteps::part_here, crate::proofs::PartSteps::part_more, crate::proofs::PartSteps::part_past))]
fn scanned_len(text: &[u8], sign: u8, at: Scan) -> usize
    ensures exact { result ≡ part_len sign at text.now }
    ensures within { result ≤ length text.now }
{
    let mut scan = at;
    for i in 0..text.len() {
        if is_part_end(scan, sign, text[i]) {
            return i;
        }
        scan = past(scan, text[i]);
    }
    text.len()
}
