//! Streams: bytes go in in any pieces, and messages come out whole (RFC 3261 section 18.3). A
//! stream that has ended lets its bytes go.

ghost use Rattle.std.specs.Prelude.{◌≡◌, ◌≤◌, ◌<◌, ◌^◌, ◌++◌, [], List, IfOk, OnOk, OnErr, drop, length};
ghost use Rattle.sc_value.specs.declared.message.Message.{Message};
ghost use Rattle.sc_tokens.specs.Bytes.{Bytes};
ghost use Rattle.sc_syntax.specs.Fronts.{behind_breaks};
ghost use Rattle.sc_stream.specs.Frames.{Splits, front_behind};
ghost use Rattle.sc_stream.specs.Hearing.{Hears, IsBad, given_after};
ghost use Rattle.sc_stream.specs.Knowing.{IsFirst};

use crate::ends::{Ended, again, parted};
use crate::first::{First, behind, look, nothing_known, pass_breaks};
use crate::gone::Gone;
use sc_syntax::Front;
use sc_terms::Bad;
use sc_value::{Answerable, Boxed, Message, NoMemory};
use std::alloc::Global;
use std::marker::Model;
use std::mem::replace;

/// What a stream answers.
#[derive(Drop)]
pub enum Heard {
    /// The next message.
    Message(Message),
    /// Bytes are missing for the next message.
    NotYet,
    /// The stream goes on with a head that spells no message.
    Bad(Bad),
    /// The stream goes on with more than 65,535 bytes that are no message.
    Long,
    /// There was no memory. It says nothing of the stream, which is as before.
    NoMemory,
}

/// The bytes of a stream behind the messages that were given. A contract sees these bytes.
///
/// What is known of the first message there is kept, so that the work grows with the bytes that
/// come, in whatever pieces, and not with those that are kept. Its head is read once, when its
/// empty line has come, and is kept read beside its bytes until the body has come; only for want of
/// memory it is read again.
///
/// Once `Bad` or `Long` was answered the stream has ended: it keeps that answer, no byte and no
/// memory for one, and what comes is let go at once. The model's invariant says so. The bytes of
/// which contracts speak are there in proofs alone then, and the kept answer is the one that they
/// call for.
#[derive(Drop)]
pub struct Stream {
    alloc: Global,
    kept: Vec<u8>,
    from: usize,
    first: First,
    ended: Option<Ended>,
    gone: Gone,
}

impl Model for Stream {
    ghost use Rattle.std.specs.Prelude.{List, ℕ, drop};
    ghost use Rattle.std.specs.Vec.{vec_capacity};
    ghost use Rattle.sc_stream.specs.Ends.{IsKept, bytes_of};

    ghost Value = { List ℕ };

    ghost view = { λ s. bytes_of s.ended (drop s.from s.kept.items) s.gone.bytes };

    ghost invariant = { λ s.
        IsKept s.ended s.from s.first s.kept.items (vec_capacity s.kept) s.gone.bytes };
}

impl Stream {
    /// A stream of which nothing has come. It takes no memory.
    #[tactic(auto, unfolding(crate::specs::Frames::Splits))]
    pub fn new(alloc: Global) -> Stream
        ensures empty { result ≡ [] }
        ensures stands { Splits [] [] result }
    {
        Stream {
            alloc,
            kept: Vec::new(alloc),
            from: 0,
            first: nothing_known(),
            ended: None,
            gone: Gone::of(&[]),
        }
    }

    /// A piece of the stream has come. For want of memory all is as before. An ended stream lets
    /// the piece go, and takes no memory.
    pub fn feed(&mut self, piece: &[u8]) -> Result<(), NoMemory>
        ensures kept { OnOk result (self.new ≡ self.old ++ piece.now) }
        ensures stands { OnOk result
            ((fed : Bytes) (given : List Message) → Splits given fed self.old
            → Splits given (fed ++ piece.now) self.new) }
        ensures err { OnErr result (self.new ≡ self.old) }
    {
        if self.ended.is_some() {
            self.gone = self.gone.with(piece);
            return Ok(());
        }
        self.kept.extend_from_slice(piece)?;
        Ok(())
    }

    /// The next message, which is taken from the stream. `NotYet` comes exactly where more bytes
    /// may end it, `Bad` and `Long` exactly as [`front`](crate::front) says; then nothing changes,
    /// and the stream answers the same for ever, by a copy of what it keeps. `NoMemory` changes
    /// nothing.
    pub fn next(&mut self) -> Heard
        ensures hears { Hears result self.old self.new }
        ensures stands { (fed : Bytes) (given : List Message) → Splits given fed self.old
            → Splits (given_after given result) fed self.new }
    {
        if let Some(ended) = &self.ended {
            return again(self.alloc, ended);
        }
        let first = replace(&mut self.first, nothing_known());
        let text = behind(self.kept.as_slice(), self.from);
        let (heard, first, taken) = hear(self.alloc, text, first);
        match parted(heard) {
            Ok(heard) => {
                self.first = first;
                self.from = let_go(&mut self.kept, self.from + taken, taken == 0);
                heard
            }
            Err(ended) => {
                drop(first);
                let heard = again(self.alloc, &ended);
                self.gone = Gone::of(text);
                self.kept = Vec::new(self.alloc);
                self.ended = Some(ended);
                heard
            }
        }
    }
}

// Bytes before `from` are let go of once they are all that there are. Where no message ends in what
// is left, they are so once they are half of all: each byte is moved for one that was given. How
// many of them are still there.
fn let_go(bytes: &mut Vec<u8>, from: usize, open: bool) -> usize
    requires { from ≤ length bytes.old.items }
    ensures exact { drop result bytes.new.items ≡ drop from bytes.old.items }
    ensures within { result ≤ length bytes.new.items }
{
    let len = bytes.len();
    if len <= from {
        bytes.clear();
        return 0;
    }
    if !open || from < len - from {
        return from;
    }
    remove_front(bytes, from);
    0
}

// So many bytes at the front go.
fn remove_front(bytes: &mut Vec<u8>, count: usize)
    requires { count ≤ length bytes.old.items }
    ensures { bytes.new.items ≡ drop count bytes.old.items }
{
    let len = bytes.len();
    bytes.copy_within(count..len, 0);
    bytes.truncate(len - count);
}

// What is heard, what is known of the bytes that are left then, and how many bytes it takes.
#[tactic(auto, using(crate::proofs::Knowing::first_known, crate::proofs::Knowing::first_with, crate::proofs::Knowing::first_behind, crate::proofs::Knowing::front_seen))]
fn hear(alloc: Global, text: &[u8], first: First) -> (Heard, First, usize)
    requires { IsFirst first text.now }
    ensures hears { Hears result.0 text.now (drop result.2 text.now) }
    ensures known { IsFirst result.1 (drop result.2 text.now) }
    ensures within { result.2 ≤ length text.now }
{
    let first = pass_breaks(text, first);
    let breaks = first.breaks;
    let (front, known) = look(alloc, behind(text, breaks), first.known);
    hear_front(alloc, text, front, First { breaks, known })
}

// The same, where the bytes behind the line ends begin with this.
#[tactic(auto, using(crate::proofs::HearSteps::room_in, crate::proofs::HearSteps::message_heard, crate::proofs::HearSteps::bad_heard))]
fn hear_front(
    alloc: Global,
    text: &[u8],
    front: Result<Front, NoMemory>,
    first: First,
) -> (Heard, First, usize)
    requires known { IsFirst first text.now }
    requires within { first.breaks ≤ length text.now }
    requires room { length text.now < 2 ^ 63 }
    requires behind { drop first.breaks text.now ≡ behind_breaks text.now }
    requires front { IfOk front (λ front. front ≡ front_behind text.now) }
    ensures hears { Hears result.0 text.now (drop result.2 text.now) }
    ensures known { IsFirst result.1 (drop result.2 text.now) }
    ensures within { result.2 ≤ length text.now }
{
    match front {
        Ok(Front::Open) => (Heard::NotYet, first, 0),
        Ok(Front::Whole { len, message }) => {
            let taken = first.breaks + len;
            (Heard::Message(message), nothing_known(), taken)
        }
        Ok(Front::Bad { at, kind, heads }) => (hear_bad(alloc, at, kind, heads), first, 0),
        Ok(Front::Long) => (Heard::Long, first, 0),
        Err(NoMemory) => (Heard::NoMemory, first, 0),
    }
}

fn hear_bad(alloc: Global, at: usize, kind: u8, heads: Option<Answerable>) -> Heard
    ensures { IsBad result at kind heads }
{
    match boxed(alloc, heads) {
        Ok(heads) => Heard::Bad(Bad { at, kind, heads }),
        Err(NoMemory) => Heard::NoMemory,
    }
}

fn boxed(alloc: Global, heads: Option<Answerable>) -> Result<Option<Boxed<Answerable>>, NoMemory>
    ensures { IfOk result (λ boxed. boxed ≡ heads) }
{
    match heads {
        Some(heads) => Ok(Some(Boxed::new(alloc, heads)?)),
        None => Ok(None),
    }
}
