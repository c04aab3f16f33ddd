//! The edge over sockets.

ghost use Rattle.std.specs.Prelude.{◌≡◌, ◌<◌, ◌≤◌, length, IfOk};
ghost use Rattle.sc_edge.specs.Edges.{IsWithin};
ghost use Rattle.sc_edge.specs.EdgeCalls.{IsPart};
ghost use Rattle.sc_edge.specs.Faults.{Rose};
ghost use Rattle.sc_edge.specs.declared.edge.Put.{Put};
ghost use Rattle.sc_sockets.specs.Calls.{Polls, PutBy};
ghost use Rattle.sc_sockets.specs.Lines.{edge_state, known_at_first, place_after_close, standing};

use crate::book::Book;
use crate::polling::{leave, poll, poll_nowhere};
use crate::putting::{put, put_nowhere};
use crate::sockets::Sockets;
use sc_edge::{Edge, Got, Put};
use sc_value::Place;
use std::alloc::Global;
use std::io;
use std::marker::Model;
use std::net::Net;
use std::time::Clock;

/// Connections over TCP sockets. Peers open connections to the address that it listens at, up to
/// 256 at once; one more is dropped at once, unless one of them has sent its end. To other
/// addresses it connects at the first put, up to 512 at once; one more put to a new address fails.
///
/// - `poll` reads once, from the connections that gave something in turn. A connection that ended
///   is named once; a peer's is still written to, until it fails, until 64 s without a put, or
///   until another peer needs its room.
/// - `put` writes once. It fails where the connection failed, where a connect lasts longer than 10
///   s, and where the peer takes nothing and more than 1 MiB is to be put; the connection is
///   dropped then. A number that no connection has yet takes nothing.
/// - `close` drops the connection. A number that no connection has yet, and all below it, are given
///   to none later.
/// - `rest` returns as soon as something comes. The first 32 rests after something came or was put
///   only look and return at once, so that what other threads make ready is put soon.
///
/// Where connections are used again ([`MioEdge::set_reuse`]), a put to an address that isn't
/// connected goes out by the open connection that came from there, whole pieces of the one place
/// after whole pieces of the other. When that connection is lost both places are: each is named by
/// a poll of its own. When the peer sends its end the address is lost, and the peer is still
/// written to.
///
/// A put to the address that it listens at fails.
///
/// An address whose connection was lost after it took only a part of a piece is remembered until it
/// takes a whole one; once 16,384 are, a put to an address that isn't among them fails.
///
/// What came, what was taken and its closes aren't told. The failures of all places are counted
/// together. It never answers `Closed`.
#[derive(Drop)]
pub struct MioEdge<'a, R> {
    rt: &'a R,
    book: Book,
    // None where it can't listen.
    sockets: Option<Sockets>,
}

impl<'a, R> Model for MioEdge<'a, R> {
    ghost use Rattle.sc_sockets.specs.Lines.{Known};

    ghost Value = { Known };

    ghost view = { λ s. s.book };
}

impl<'a, R: Net + Clock> MioEdge<'a, R> {
    /// Listens at an IPv4 address and a port, with which the peers' connections come; at all of the
    /// machine's addresses where `ip` is 0.0.0.0, and at a port that the system picks where `port`
    /// is 0. It fails where the system refuses that: `AddrInUse` where another program listens
    /// there, `AddrNotAvailable` where the address isn't one of the machine's, `PermissionDenied`
    /// where the port is reserved, `OutOfMemory` where the memory is short; with other kinds where
    /// the system has no room for one more descriptor, or its clock can't be read.
    pub fn new(rt: &'a R, alloc: Global, ip: [u8; 4], port: u16) -> io::Result<MioEdge<'a, R>>
        ensures { IfOk result (λ s. s ≡ known_at_first) }
    {
        let sockets = Sockets::new(rt, alloc, ip, port)?;
        Ok(MioEdge {
            rt,
            book: Book::new(alloc),
            sockets: Some(sockets),
        })
    }

    /// An edge that can't listen: each poll answers `Fault`, which is counted, each put to an
    /// address fails, and `rest` returns at once.
    pub fn deaf(rt: &'a R, alloc: Global) -> MioEdge<'a, R>
        ensures { result ≡ known_at_first }
    {
        MioEdge {
            rt,
            book: Book::new(alloc),
            sockets: None,
        }
    }

    /// As `new`; where that fails, an edge that can't listen, as `deaf`.
    pub fn new_or_deaf(rt: &'a R, alloc: Global, ip: [u8; 4], port: u16) -> MioEdge<'a, R>
        ensures { result ≡ known_at_first }
    {
        MioEdge {
            rt,
            book: Book::new(alloc),
            sockets: Sockets::new(rt, alloc, ip, port).ok(),
        }
    }

    /// Whether a put to an address goes out by an open connection that comes from that address from
    /// now on, in place of one that is made to it (RFC 5923, without TLS). It is off at the
    /// beginning.
    pub fn set_reuse(&mut self, is_on: bool)
        ensures { self.new ≡ self.old }
    {
        if let Some(sockets) = &mut self.sockets {
            sockets.set_reuse(is_on);
        }
    }

    /// The address and the port that it listens at; an error where it can't listen, or the system
    /// doesn't tell.
    pub fn local_address(&self) -> io::Result<([u8; 4], u16)> {
        match &self.sockets {
            Some(sockets) => sockets.local_address(),
            None => Err(io::Error::from(io::ErrorKind::NotConnected)),
        }
    }

    // A poll, of which the clauses are stated at once.
    fn poll_once(&mut self, room: &mut [u8]) -> Got
        requires { 0 < length room.old }
        ensures polls { Polls (edge_state self.old) (edge_state self.new) result }
        ensures within { IsWithin result (length room.new) }
    {
        match &mut self.sockets {
            Some(sockets) => poll(self.rt, &mut self.book, sockets, room),
            None => poll_nowhere(&mut self.book),
        }
    }

    // A put, by what it meets.
    fn put_once(&mut self, to: Place, bytes: &[u8]) -> Put
        ensures by { PutBy (standing self.old to) self.old self.new to (length bytes.now) result }
        ensures part { IsPart result (length bytes.now) }
        ensures later { self.old.failures ≤ self.new.failures }
        ensures rose { result ≡ Put.Failed → Rose self.old.failures self.new.failures }
    {
        match &mut self.sockets {
            Some(sockets) => put(self.rt, &mut self.book, sockets, to, bytes),
            None => put_nowhere(&mut self.book, to, bytes.len()),
        }
    }

    // A close.
    fn close_once(&mut self, at: Place)
        ensures { self.new ≡ place_after_close at self.old }
    {
        match &mut self.sockets {
            Some(sockets) => leave(&mut self.book, sockets, at),
            None => self.book.shut(at),
        }
    }
}

impl<R: Net + Clock> Edge for MioEdge<'_, R> {
    ghost use Rattle.sc_sockets.specs.Lines.{edge_state};

    ghost state = { edge_state };

    fn poll(&mut self, room: &mut [u8]) -> Got {
        self.poll_once(room)
    }

    fn put(&mut self, to: Place, bytes: &[u8]) -> Put {
        self.put_once(to, bytes)
    }

    fn close(&mut self, at: Place) {
        self.close_once(at);
    }

    fn rest(&mut self, ms: u64) {
        if let Some(sockets) = &mut self.sockets {
            sockets.rest(self.rt, ms);
        }
    }
}
