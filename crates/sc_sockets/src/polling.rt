//! The parts of a poll.

ghost use Rattle.std.specs.Prelude.{◌≡◌, ◌<◌, ◌≤◌, length, true};
ghost use Rattle.sc_value.specs.declared.ids.Place.{Place};
ghost use Rattle.sc_edge.specs.Edges.{IsWithin};
ghost use Rattle.sc_edge.specs.Faults.{Rose};
ghost use Rattle.sc_edge.specs.declared.edge.Got.{Got};
ghost use Rattle.sc_sockets.specs.Calls.{Gives, Grows, Polls};
ghost use Rattle.sc_sockets.specs.Lines.{edge_state, is_heard, place_after_close};

use crate::book::Book;
use crate::reading::Heard;
use crate::sockets::{Opened, Sockets};
use sc_edge::Got;
use sc_value::Place;
use std::time::Clock;

// Drops a connection for good.
pub(crate) fn leave(book: &mut Book, sockets: &mut Sockets, place: Place)
    ensures { book.new ≡ place_after_close place book.old }
{
    sockets.close(place);
    book.shut(place);
}

// Drops a peer that sends no more and won't be written to any more.
fn drop_spent(book: &mut Book, sockets: &mut Sockets)
    ensures { Grows book.old book.new }
{
    if let Some(place) = sockets.spent() {
        leave(book, sockets, place);
    }
}

// Makes room for one more peer, for which one that sends no more may have to go. It answers whether
// there is room.
fn make_room(book: &mut Book, sockets: &mut Sockets) -> bool
    ensures { Grows book.old book.new }
{
    if sockets.has_room() {
        return true;
    }
    match sockets.ended() {
        Some(place) => {
            leave(book, sockets, place);
            true
        }
        None => false,
    }
}

// Takes in a peer's connection, under the next number.
fn admit(book: &mut Book, sockets: &mut Sockets, opened: Opened)
    ensures { Grows book.old book.new }
{
    if let Some(number) = book.accept() {
        keep(book, sockets, Place::Back(number), opened);
    }
}

// Keeps the socket of a connection that has its number; where that fails the connection is dropped.
fn keep(book: &mut Book, sockets: &mut Sockets, place: Place, opened: Opened)
    ensures { Grows book.old book.new }
{
    if !sockets.add(place, opened) {
        book.shut(place);
    }
}

// Takes in a connection that waits; one for which there is no room is dropped.
fn welcome(book: &mut Book, sockets: &mut Sockets)
    ensures { Grows book.old book.new }
{
    if let Some(opened) = sockets.accept() {
        if make_room(book, sockets) {
            admit(book, sockets, opened);
        }
    }
}

// What comes before a read.
fn begin<R: Clock>(rt: &R, book: &mut Book, sockets: &mut Sockets)
    ensures { Grows book.old book.new }
{
    sockets.refill(rt);
    drop_spent(book, sockets);
    welcome(book, sockets);
}

// Reads from the connection of a place, which stands in a slot.
#[tactic(auto, unfolding(crate::specs::Calls::Gives))]
fn hear(book: &mut Book, sockets: &mut Sockets, at: usize, place: Place, room: &mut [u8]) -> Got
    requires room { 0 < length room.old }
    requires heard { is_heard book.old place ≡ true }
    ensures gives { Gives book.old book.new result }
    ensures within { IsWithin result (length room.new) }
    ensures later { book.old.failures ≤ book.new.failures }
    ensures rose { (place : Place) → result ≡ Got.Failed place
        → Rose book.old.failures book.new.failures }
{
    match sockets.read(at, room) {
        Heard::Some(count) => Got::Bytes(place, count),
        Heard::End => {
            sockets.end(at, place);
            book.end(place);
            Got::End(place)
        }
        Heard::Failed => {
            sockets.close(place);
            book.fail(place);
            Got::Failed(place)
        }
        Heard::NotYet => Got::NotYet,
    }
}

// Reads from the next connection that may give something.
#[tactic(auto, unfolding(crate::specs::Calls::Gives))]
fn hear_next(book: &mut Book, sockets: &mut Sockets, room: &mut [u8]) -> Got
    requires { 0 < length room.old }
    ensures gives { Gives book.old book.new result }
    ensures within { IsWithin result (length room.new) }
    ensures later { book.old.failures ≤ book.new.failures }
    ensures rose { (place : Place) → result ≡ Got.Failed place
        → Rose book.old.failures book.new.failures }
{
    match sockets.next_ready() {
        Some((at, place)) if book.is_heard(place) => hear(book, sockets, at, place, room),
        _ => Got::NotYet,
    }
}

// A poll.
pub(crate) fn poll<R: Clock>(rt: &R, book: &mut Book, sockets: &mut Sockets, room: &mut [u8]) -> Got
    requires { 0 < length room.old }
    ensures polls { Polls (edge_state book.old) (edge_state book.new) result }
    ensures within { IsWithin result (length room.new) }
{
    book.count_poll();
    begin(rt, book, sockets);
    hear_next(book, sockets, room)
}

// A poll where there are no sockets.
pub(crate) fn poll_nowhere(book: &mut Book) -> Got
    ensures polls { Polls (edge_state book.old) (edge_state book.new) result }
    ensures fault { result ≡ Got.Fault }
{
    book.count_poll();
    book.count_fault();
    Got::Fault
}
