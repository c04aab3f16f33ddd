//! Reads of a connection.

ghost use Rattle.std.specs.Prelude.{◌<◌, length};
ghost use Rattle.sc_sockets.specs.Answers.{IsHeard};

use mio::net::TcpStream;
use std::io::{ErrorKind, Read};

// What a read came to.
#[derive(Clone, Copy, Debug, PartialEq, Eq)]
pub enum Heard {
    // So many bytes.
    Some(usize),
    // Nothing comes any more.
    End,
    // The connection failed.
    Failed,
    // Nothing came yet.
    NotYet,
}

// Reads what came, once.
pub(crate) fn read_some(stream: &mut TcpStream, room: &mut [u8]) -> Heard
    requires { 0 < length room.old }
    ensures { IsHeard result (length room.new) }
{
    match stream.read(room) {
        Ok(0) => Heard::End,
        Ok(count) => Heard::Some(count),
        Err(e) if matches!(e.kind(), ErrorKind::WouldBlock | ErrorKind::Interrupted) => {
            Heard::NotYet
        }
        Err(_) => Heard::Failed,
    }
}
