//! The parts of a put.

ghost use Rattle.std.specs.Prelude.{◌≡◌, ◌≤◌, length};
ghost use Rattle.sc_edge.specs.EdgeCalls.{IsPart};
ghost use Rattle.sc_edge.specs.Faults.{Rose};
ghost use Rattle.sc_edge.specs.declared.edge.Put.{Put};
ghost use Rattle.sc_sockets.specs.Answers.{IsTaken};
ghost use Rattle.sc_sockets.specs.Calls.{PutBy, after_put};
ghost use Rattle.sc_sockets.specs.Lines.{standing};
ghost use Rattle.sc_sockets.specs.declared.line.Standing.{Standing};
ghost use Rattle.sc_sockets.specs.declared.writing.Taken.{Taken};

use crate::book::Book;
use crate::line::Standing;
use crate::sockets::Sockets;
use crate::writing::Taken;
use sc_edge::Put;
use sc_value::Place;
use std::net::Net;

// Notes what a write to a place came to, of a piece of this length.
fn conclude(book: &mut Book, sockets: &mut Sockets, to: Place, taken: Taken, len: usize) -> Put
    requires { IsTaken taken len }
    ensures after { book.new ≡ after_put to len result book.old }
    ensures part { IsPart result len }
    ensures later { book.old.failures ≤ book.new.failures }
    ensures rose { result ≡ Put.Failed → Rose book.old.failures book.new.failures }
    ensures failed { taken ≡ Taken.Failed → result ≡ Put.Failed }
{
    match taken {
        Taken::Some(count) => {
            book.serve(to, count, len);
            Put::Wrote(count)
        }
        Taken::NotYet => Put::NotYet,
        Taken::Failed => {
            sockets.close(to);
            book.fail(to);
            Put::Failed
        }
    }
}

// The same at an address without a connection, which is connected first.
fn put_first<R: Net>(rt: &R, book: &mut Book, sockets: &mut Sockets, to: Place, bytes: &[u8]) -> Put
    ensures by { PutBy Standing.Closed book.old book.new to (length bytes.now) result }
    ensures part { IsPart result (length bytes.now) }
    ensures later { book.old.failures ≤ book.new.failures }
    ensures rose { result ≡ Put.Failed → Rose book.old.failures book.new.failures }
{
    if !book.open(to) {
        return conclude(book, sockets, to, Taken::Failed, bytes.len());
    }
    let taken = sockets.write_first(rt, to, bytes);
    conclude(book, sockets, to, taken, bytes.len())
}

// Puts bytes to a place, from the front.
pub(crate) fn put<R: Net>(
    rt: &R,
    book: &mut Book,
    sockets: &mut Sockets,
    to: Place,
    bytes: &[u8],
) -> Put
    ensures by { PutBy (standing book.old to) book.old book.new to (length bytes.now) result }
    ensures part { IsPart result (length bytes.now) }
    ensures later { book.old.failures ≤ book.new.failures }
    ensures rose { result ≡ Put.Failed → Rose book.old.failures book.new.failures }
{
    match book.standing(to) {
        Standing::Unborn => Put::NotYet,
        Standing::Gone => conclude(book, sockets, to, Taken::Failed, bytes.len()),
        Standing::Closed => put_first(rt, book, sockets, to, bytes),
        Standing::Open => {
            let taken = sockets.write(to, bytes);
            conclude(book, sockets, to, taken, bytes.len())
        }
    }
}

// A put of a piece of this length, where there are no sockets.
pub(crate) fn put_nowhere(book: &mut Book, to: Place, len: usize) -> Put
    ensures by { PutBy (standing book.old to) book.old book.new to len result }
    ensures part { IsPart result len }
    ensures later { book.old.failures ≤ book.new.failures }
    ensures rose { result ≡ Put.Failed → Rose book.old.failures book.new.failures }
{
    match book.standing(to) {
        Standing::Unborn => Put::NotYet,
        _ => {
            book.fail(to);
            Put::Failed
        }
    }
}
