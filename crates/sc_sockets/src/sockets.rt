//! The sockets: the listener, the connections, and the waits for more.

ghost use Rattle.std.specs.Prelude.{◌<◌, length};
ghost use Rattle.sc_sockets.specs.Answers.{IsHeard, IsTaken};

use crate::reading::Heard;
use crate::slots::Slots;
use crate::writing::Taken;
use mio::net::{TcpListener, TcpStream};
use mio::{Events, Interest, Poll, Token};
use sc_value::Place;
use std::alloc::Global;
use std::io::{self, ErrorKind};
use std::net::{Ipv4Addr, Net, SocketAddr, SocketAddrV4};
use std::time::{Clock, Duration, Instant};

// So many events are asked for at once.
const EVENTS: usize = 256;

// After so many reads the system is asked anew, though some connections still give something.
const READS: u32 = 256;

// After something came or was put, so many rests only look and don't wait.
const SPINS: u32 = 32;

// Where no connection could be taken in, it is tried again after so many milliseconds.
const HOLD: u64 = 100;

// Peers that send no more are looked through once in so many milliseconds.
const SWEEP: u64 = 1_000;

// The token of the listener. That of a connection is its slot.
const LISTENER: Token = Token(usize::MAX);

// A connection that a peer opened, with the address that it came from where what goes there is to
// go out by it.
#[derive(Drop)]
pub(crate) struct Opened {
    stream: TcpStream,
    origin: Option<Place>,
}

// The sockets of an edge.
#[derive(Drop)]
pub(crate) struct Sockets {
    // The address that it listens at.
    own: SocketAddr,
    // What goes to an address goes out by the open connection that came from there.
    is_reusing: bool,
    began: Instant,
    // Milliseconds since it began, when the system was asked last.
    now: u64,
    poll: Poll,
    events: Events<Global>,
    listener: TcpListener,
    slots: Slots,
    // How many reads are left until the system is asked anew.
    reads: u32,
    // How many rests have only looked since something came or was put.
    spins: u32,
    // A connection may wait at the listener.
    is_knocked: bool,
    // None could be taken in, and it is tried again from this moment on.
    held: Option<u64>,
    // The last rest found nothing.
    is_idle: bool,
    // Peers that send no more are to be looked through, and when it was begun last.
    is_sweeping: bool,
    swept: u64,
}

// The address in the form of the system.
fn address(ip: [u8; 4], port: u16) -> SocketAddr {
    SocketAddr::V4(SocketAddrV4::new(Ipv4Addr::from_octets(ip), port))
}

// The IPv4 address and the port; no address where it isn't one of IPv4.
fn parts(address: SocketAddr) -> ([u8; 4], u16) {
    match address {
        SocketAddr::V4(address) => (address.ip().octets(), address.port()),
        SocketAddr::V6(address) => ([0; 4], address.port()),
    }
}

// Notes the events. It answers whether one is of the listener.
fn note_all(events: &Events<Global>, slots: &mut Slots) -> bool {
    let mut is_knocked = false;
    for event in events.iter() {
        if event.token() == LISTENER {
            is_knocked = true;
        } else {
            slots.note(event);
        }
    }
    is_knocked
}

impl Sockets {
    // Listens at an address. Port 0 is one that the system picks.
    pub(crate) fn new<R: Net + Clock>(
        rt: &R,
        alloc: Global,
        ip: [u8; 4],
        port: u16,
    ) -> io::Result<Sockets> {
        let mut listener = TcpListener::bind(rt, address(ip, port))?;
        let poll = Poll::new(rt)?;
        poll.registry()
            .register(&mut listener, LISTENER, Interest::READABLE)?;
        Ok(Sockets {
            own: listener.local_addr()?,
            is_reusing: false,
            began: Instant::now(rt)?,
            now: 0,
            poll,
            events: Events::with_capacity(alloc, EVENTS)?,
            listener,
            slots: Slots::new(alloc)?,
            reads: READS,
            spins: 0,
            is_knocked: true,
            held: None,
            is_idle: false,
            is_sweeping: false,
            swept: 0,
        })
    }

    // Whether what goes to an address goes out by an open connection that comes from there from now
    // on.
    pub(crate) fn set_reuse(&mut self, is_reusing: bool) {
        self.is_reusing = is_reusing;
    }

    // The address that it listens at.
    pub(crate) fn local_address(&self) -> io::Result<([u8; 4], u16)> {
        let own = self.listener.local_addr()?;
        Ok(parts(own))
    }
}

// Waiting.
impl Sockets {
    // Reads the time. Where it can't be read it stands still.
    fn look_at_clock<R: Clock>(&mut self, rt: &R) {
        if let Ok(since) = self.began.elapsed(rt) {
            self.now = u64::try_from(since.as_millis()).unwrap_or(self.now);
        }
    }

    // Asks the system what is ready, for up to so many milliseconds, and notes it. It answers
    // whether there was something.
    fn wait<R: Clock>(&mut self, rt: &R, ms: u64) -> bool {
        self.reads = READS;
        let timeout = Duration::from_millis(ms);
        let is_asked = self.poll.poll(&mut self.events, Some(timeout)).is_ok();
        self.look_at_clock(rt);
        if is_asked && note_all(&self.events, &mut self.slots) {
            self.is_knocked = true;
        }
        self.take_up();
        is_asked && !self.events.is_empty()
    }

    // What is due at this moment: another try at the listener, and a look at silent peers.
    fn take_up(&mut self) {
        if let Some(at) = self.held {
            if at <= self.now {
                self.held = None;
                self.is_knocked = true;
            }
        }
        if self.now.saturating_sub(self.swept) >= SWEEP {
            self.swept = self.now;
            self.is_sweeping = true;
        }
    }

    // Asks what is ready, where nothing is known to be and the last rest hasn't just asked.
    pub(crate) fn refill<R: Clock>(&mut self, rt: &R) {
        if self.is_idle {
            self.is_idle = false;
        } else if !self.slots.has_ready() && !self.is_knocked || self.reads == 0 {
            self.wait(rt, 0);
        }
    }

    // Waits up to so many milliseconds, unless something is known to be ready.
    pub(crate) fn rest<R: Clock>(&mut self, rt: &R, ms: u64) {
        if self.is_knocked || self.slots.has_ready() {
            return;
        }
        let is_found = self.wait(rt, self.patience(ms));
        self.spins = self.spins.saturating_add(1);
        self.is_idle = !is_found && !self.is_knocked;
    }

    // How long a rest waits: the first ones after something came or was put only look.
    fn patience(&self, ms: u64) -> u64 {
        if self.spins < SPINS { 0 } else { ms }
    }
}

// Connections that come and go.
impl Sockets {
    // A connection that waits at the listener.
    pub(crate) fn accept(&mut self) -> Option<Opened> {
        if !self.is_knocked {
            return None;
        }
        match self.listener.accept() {
            Ok((stream, from)) => Some(self.opened(stream, from)),
            Err(e) => {
                self.refuse(e.kind());
                None
            }
        }
    }

    // A connection that came from an address.
    fn opened(&self, stream: TcpStream, from: SocketAddr) -> Opened {
        let (ip, port) = parts(from);
        let origin = if self.is_reusing {
            Some(Place::To(ip, port))
        } else {
            None
        };
        Opened { stream, origin }
    }

    // None could be taken in: none waits, the peer has left, or the system has no room for one now.
    fn refuse(&mut self, kind: ErrorKind) {
        match kind {
            ErrorKind::WouldBlock => self.is_knocked = false,
            ErrorKind::ConnectionAborted | ErrorKind::Interrupted => {}
            _ => {
                self.is_knocked = false;
                self.held = Some(self.now.saturating_add(HOLD));
            }
        }
    }

    // Whether there is room for one more peer.
    pub(crate) fn has_room(&self) -> bool {
        self.slots.has_room_for_peer()
    }

    // Keeps a peer's connection; `false` where the system or the memory has no room for it.
    pub(crate) fn add(&mut self, place: Place, opened: Opened) -> bool {
        let Opened { stream, origin } = opened;
        self.keep(place, stream, origin)
    }

    // The same of any connection.
    fn keep(&mut self, place: Place, mut stream: TcpStream, origin: Option<Place>) -> bool {
        let Some(at) = self.slots.free_slot() else {
            return false;
        };
        let both = Interest::READABLE | Interest::WRITABLE;
        if stream.set_nodelay(true).is_err()
            || self
                .poll
                .registry()
                .register(&mut stream, Token(at), both)
                .is_err()
        {
            return false;
        }
        self.slots.fill(at, place, stream, origin, self.now)
    }

    // Whether an address is the own one. One that listens at all addresses knows those of the
    // loopback.
    fn is_own(&self, ip: [u8; 4], port: u16) -> bool {
        let (own, own_port) = parts(self.own);
        port == own_port && (ip == own || own == [0; 4] && ip[0] == 127)
    }

    // Begins to connect to an address, or takes the open connection that came from there; `false`
    // where that fails at once, too many are connected, or the address is the own one.
    fn connect<R: Net>(&mut self, rt: &R, ip: [u8; 4], port: u16) -> bool {
        let place = Place::To(ip, port);
        self.slots.forget_lost(place);
        if self.slots.lend(place) {
            return true;
        }
        if self.is_own(ip, port) || !self.slots.has_room_for_address() {
            return false;
        }
        match TcpStream::connect(rt, address(ip, port)) {
            Ok(stream) => self.keep(place, stream, None),
            Err(_) => false,
        }
    }

    // Drops the connection with a place.
    pub(crate) fn close(&mut self, place: Place) {
        self.slots.close(place);
    }

    // A peer that sends no more and won't be written to any more.
    pub(crate) fn spent(&mut self) -> Option<Place> {
        if !self.is_sweeping {
            return None;
        }
        let spent = self.slots.spent(self.now);
        self.is_sweeping = spent.is_some();
        spent
    }

    // The peer that sends no more and was written to the longest ago.
    pub(crate) fn ended(&self) -> Option<Place> {
        self.slots.ended()
    }
}

// Reading and writing.
impl Sockets {
    // The next connection that may give something, with its slot.
    pub(crate) fn next_ready(&mut self) -> Option<(usize, Place)> {
        self.slots.next_ready()
    }

    // Reads from the connection in a slot, once.
    pub(crate) fn read(&mut self, at: usize, room: &mut [u8]) -> Heard
        requires { 0 < length room.old }
        ensures { IsHeard result (length room.new) }
    {
        self.reads = self.reads.saturating_sub(1);
        let heard = self.slots.read(at, room);
        if matches!(heard, Heard::Some(_)) {
            self.spins = 0;
        }
        heard
    }

    // The connection in a slot was read to its end. A peer's is still written to.
    pub(crate) fn end(&mut self, at: usize, place: Place) {
        self.slots.end(at, place, self.now);
    }

    // Writes to the connection with a place, once.
    pub(crate) fn write(&mut self, place: Place, bytes: &[u8]) -> Taken
        ensures { IsTaken result (length bytes.now) }
    {
        let taken = self.slots.write(place, bytes, self.now);
        if matches!(taken, Taken::Some(_)) {
            self.spins = 0;
        }
        taken
    }

    // Connects to an address, and writes to it, once.
    pub(crate) fn write_first<R: Net>(&mut self, rt: &R, to: Place, bytes: &[u8]) -> Taken
        ensures { IsTaken result (length bytes.now) }
    {
        match to {
            Place::To(ip, port) if self.connect(rt, ip, port) => self.write(to, bytes),
            _ => Taken::Failed,
        }
    }
}
