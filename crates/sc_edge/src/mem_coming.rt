ghost use Rattle.std.specs.Prelude.{◌≡◌, ◌<◌, ◌≤◌, ◌+◌, ◌++◌, ◌∷◌, [], false, length, take, vec_len, vec_capacity, IfOk};
ghost use Rattle.std.proofs.Math.ListN.{drop};
ghost use Rattle.sc_edge.specs.EdgeComing.{after_answer, after_item, answer_of, answers_with_bytes, count_of, counts, failed_put, front, got_of, is_passed, left_of, less, live_from, next_answer, rest_of, weight, weights};
ghost use Rattle.sc_edge.specs.EdgeCalls.{is_end};
ghost use Rattle.sc_edge.specs.Edges.{polled_of};

use crate::mem_places::Places;
use crate::{Got, Polled};
use sc_value::{List, NoMemory, Place};
use std::alloc::Global;
use std::marker::Model;

// What comes to an edge in memory, from the item `next` on without its first `from` bytes, and what
// came so far: what its polls answered, and its failed puts. There is the memory for all answers
// that are still to come, and for `spare` failed puts.
#[derive(Drop)]
pub struct Coming {
    items: List<Polled>,
    next: usize,
    from: usize,
    answers: Vec<Got>,
    bytes: Vec<u8>,
    is_closed: bool,
    spare: usize,
}

impl Model for Coming {
    ghost use Rattle.std.specs.Prelude.{◌≡◌, ◌≤◌, ◌+◌, false, length, vec_len, vec_capacity};
    ghost use Rattle.std.proofs.Math.ListN.{drop};
    ghost use Rattle.sc_edge.specs.EdgeComing.{ComingState, answers_with_bytes, counts, left_of, weights};

    ghost Value = { ComingState };

    ghost view = { λ s.
        record {
          left = left_of s.from (drop s.next s.items);
          polled = answers_with_bytes s.answers.items s.bytes.items;
          is_closed = s.is_closed;
          spare = s.spare;
        } };

    ghost invariant = { λ s.
        (counts s.answers.items ≡ length s.bytes.items)
        × (s.is_closed ≡ false
        → vec_len s.answers + weights (left_of s.from (drop s.next s.items)) + 1
        + s.spare ≤ vec_capacity s.answers)
        × (s.is_closed ≡ false
        → vec_len s.bytes
        + weights (left_of s.from (drop s.next s.items)) ≤ vec_capacity s.bytes)
        × (vec_len s.answers + s.spare ≤ vec_capacity s.answers) };
}

// How many answers the item gives at most.
fn weight_of(item: &Polled) -> usize
    ensures { result ≡ weight item.now }
{
    match item {
        Polled::Bytes(_, bytes) => bytes.len(),
        _ => 1,
    }
}

// How many answers the items give at most.
fn weights_of(items: &[Polled]) -> Result<usize, NoMemory>
    ensures { IfOk result (λ n. n ≡ weights items.now) }
{
    let mut total: usize = 0;
    for item in items {
        total = total.checked_add(weight_of(item)).ok_or(NoMemory)?;
    }
    Ok(total)
}

// Whether the item, without its first `from` bytes, is passed over.
fn is_skipped(item: &Polled, from: usize, places: &Places) -> bool
    ensures { result ≡ is_passed places.now (less from item.now) }
{
    match item {
        Polled::Bytes(place, bytes) => places.at(*place).is_silent || bytes.len() <= from,
        Polled::End(place) => places.at(*place).is_silent,
        Polled::Failed(place) => places.at(*place).is_silent,
        Polled::Closed => false,
        Polled::NotYet => false,
        Polled::Fault => false,
    }
}

// Where the first item stands that isn't passed over.
fn first_live(items: &[Polled], next: usize, from: usize, places: &Places) -> (usize, usize)
    ensures { left_of result.1 (drop result.0 items.now)
        ≡ live_from places.now (left_of from (drop next items.now)) }
{
    let mut next = next;
    let mut from = from;
    while next < items.len() {
        if !is_skipped(&items[next], from, places) {
            return (next, from);
        }
        next += 1;
        from = 0;
    }
    (next, from)
}

// Copies bytes from `from` on into the room, as many as there is room for, and answers how many,
// and where they end.
fn copy(bytes: &[u8], from: usize, room: &mut [u8]) -> (usize, usize)
    ensures count { result.0 ≡ length (take (length room.old) (drop from bytes.now)) }
    ensures bytes { take result.0 room.new ≡ take (length room.old) (drop from bytes.now) }
    ensures left { drop result.1 bytes.now ≡ drop (length room.old) (drop from bytes.now) }
{
    let rest = &bytes[from.min(bytes.len())..];
    let count = rest.len().min(room.len());
    room[..count].copy_from_slice(&rest[..count]);
    (count, from.min(bytes.len()) + count)
}

// The answer of the item without its first `from` bytes, how many items it ends, and how many bytes
// of the next one have come.
#[tactic(auto, using(crate::proofs::ComingFacts::left_of_zero))]
fn give(item: &Polled, from: usize, room: &mut [u8]) -> (Got, usize, usize)
    ensures got { result.0 ≡ got_of (front (length room.old) (less from item.now)) }
    ensures bytes { polled_of result.0 room.new ≡ front (length room.old) (less from item.now) }
    ensures steps { result.1 ≤ 1 }
    ensures left { (xs : List Polled)
        → left_of result.2 (drop result.1 (item.now ∷ xs))
        ≡ after_item (length room.old) (less from item.now) xs }
{
    match item {
        Polled::Bytes(place, bytes) => {
            let (count, end) = copy(bytes.as_bytes(), from, room);
            (Got::Bytes(*place, count), 0, end)
        }
        Polled::End(place) => (Got::End(*place), 1, 0),
        Polled::Failed(place) => (Got::Failed(*place), 1, 0),
        Polled::Closed => (Got::Closed, 1, 0),
        Polled::NotYet => (Got::NotYet, 1, 0),
        Polled::Fault => (Got::Fault, 1, 0),
    }
}

// The answer of the items from `next` on, without the first `from` bytes, and where the rest
// begins.
#[tactic(auto, using(crate::proofs::ComingFacts::drop_steps))]
fn give_next(items: &[Polled], next: usize, from: usize, room: &mut [u8]) -> (Got, usize, usize)
    ensures got { result.0
        ≡ got_of (answer_of (length room.old) (left_of from (drop next items.now))) }
    ensures bytes { polled_of result.0 room.new
        ≡ answer_of (length room.old) (left_of from (drop next items.now)) }
    ensures left { left_of result.2 (drop result.1 items.now)
        ≡ rest_of (length room.old) (left_of from (drop next items.now)) }
{
    match items.get(next) {
        None => (Got::Closed, next, from),
        Some(item) => {
            let (got, steps, from) = give(item, from, room);
            (got, next + steps, from)
        }
    }
}

// How many bytes an answer has.
fn bytes_of(got: Got) -> usize
    ensures { result ≡ count_of got }
{
    match got {
        Got::Bytes(_, count) => count,
        _ => 0,
    }
}

// Puts bytes at the end, for which there is the memory.
fn add_bytes(bytes: &mut Vec<u8>, more: &[u8])
    requires { vec_len bytes.old + length more.now ≤ vec_capacity bytes.old }
    ensures items { bytes.new.items ≡ bytes.old.items ++ more.now }
    ensures len { vec_len bytes.new ≡ vec_len bytes.old + length more.now }
    ensures capacity { vec_capacity bytes.old ≤ vec_capacity bytes.new }
{
    bytes.extend_from_slice(more).unwrap();
}

// Puts an answer at the end, for which there is the memory.
fn add_answer(answers: &mut Vec<Got>, got: Got)
    requires { vec_len answers.old < vec_capacity answers.old }
    ensures items { answers.new.items ≡ answers.old.items ++ got ∷ [] }
    ensures len { vec_len answers.new ≡ vec_len answers.old + 1 }
    ensures capacity { vec_capacity answers.old ≤ vec_capacity answers.new }
{
    answers.push(got).unwrap();
}

// Notes an answer, for which there is the memory.
fn note(answers: &mut Vec<Got>, bytes: &mut Vec<u8>, got: Got, room: &[u8])
    requires fits { count_of got ≤ length room.now }
    requires answers { vec_len answers.old < vec_capacity answers.old }
    requires bytes { vec_len bytes.old + count_of got ≤ vec_capacity bytes.old }
    requires counted { counts answers.old.items ≡ length bytes.old.items }
    ensures told { answers_with_bytes answers.new.items bytes.new.items
        ≡ answers_with_bytes answers.old.items bytes.old.items ++ polled_of got room.now ∷ [] }
    ensures counted { counts answers.new.items ≡ length bytes.new.items }
    ensures answers { (vec_len answers.new ≡ vec_len answers.old + 1)
        × (vec_capacity answers.old ≤ vec_capacity answers.new) }
    ensures bytes { (vec_len bytes.new ≡ vec_len bytes.old + count_of got)
        × (vec_capacity bytes.old ≤ vec_capacity bytes.new) }
{
    add_bytes(bytes, &room[..bytes_of(got)]);
    add_answer(answers, got);
}

// Nothing comes after this answer.
fn ends(got: Got) -> bool
    ensures { result ≡ is_end got }
{
    matches!(got, Got::Closed)
}

impl Coming {
    // These items are to come, with room for `spare` failed puts.
    pub(crate) fn new(alloc: Global, items: List<Polled>, spare: usize) -> Result<Coming, NoMemory>
        ensures { IfOk result
            (λ s. s ≡ record { left = items; polled = []; is_closed = false; spare = spare }) }
    {
        let count = weights_of(items.as_slice())?;
        let more = spare.checked_add(1).ok_or(NoMemory)?;
        let room = count.checked_add(more).ok_or(NoMemory)?;
        let answers = Vec::with_capacity(alloc, room)?;
        let bytes = Vec::with_capacity(alloc, count)?;
        Ok(Coming {
            items,
            next: 0,
            from: 0,
            answers,
            bytes,
            is_closed: false,
            spare,
        })
    }

    // The next answer, to a poll with this room, and its bytes at the room's front.
    pub(crate) fn poll(&mut self, places: &Places, room: &mut [u8]) -> Got
        requires { 0 < length room.old }
        ensures got { result ≡ got_of (next_answer places.now self.old (length room.old)) }
        ensures bytes { polled_of result room.new
            ≡ next_answer places.now self.old (length room.old) }
        ensures after { self.new ≡ after_answer places.now self.old (length room.old) }
    {
        if self.is_closed {
            return Got::Closed;
        }
        let items = self.items.as_slice();
        let (next, from) = first_live(items, self.next, self.from, places);
        let (got, next, from) = give_next(items, next, from, room);
        note(&mut self.answers, &mut self.bytes, got, room);
        self.next = next;
        self.from = from;
        self.is_closed = ends(got);
        got
    }

    // Notes that a put to this place failed, for which there is room.
    pub(crate) fn fail(&mut self, place: Place)
        requires { 0 < self.old.spare }
        ensures { self.new ≡ failed_put self.old place }
    {
        note(&mut self.answers, &mut self.bytes, Got::Failed(place), &[]);
        self.spare -= 1;
    }

    // For how many failed puts there is room.
    pub(crate) fn spare(&self) -> usize
        ensures { result ≡ self.now.spare }
    {
        self.spare
    }
}
