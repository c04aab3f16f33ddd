//! Writes to a connection.

ghost use Rattle.std.specs.Prelude.{length};
ghost use Rattle.sc_sockets.specs.Answers.{IsTaken};

use mio::net::TcpStream;
use std::io::{ErrorKind, Write};

// What a write came to.
#[derive(Clone, Copy, Debug, PartialEq, Eq)]
pub enum Taken {
    // So many bytes were taken.
    Some(usize),
    // The connection failed.
    Failed,
    // None were taken yet.
    NotYet,
}

// Writes from the front of the bytes, once.
pub(crate) fn write_some(stream: &mut TcpStream, bytes: &[u8]) -> Taken
    ensures { IsTaken result (length bytes.now) }
{
    match stream.write(bytes) {
        Ok(0) => none_taken(bytes),
        Ok(count) => Taken::Some(count),
        Err(e) if matches!(e.kind(), ErrorKind::WouldBlock | ErrorKind::Interrupted) => {
            Taken::NotYet
        }
        Err(_) => Taken::Failed,
    }
}

// Where none of the bytes were taken: all is well where there are none.
fn none_taken(bytes: &[u8]) -> Taken
    ensures { IsTaken result (length bytes.now) }
{
    if bytes.is_empty() {
        Taken::Some(0)
    } else {
        Taken::Failed
    }
}
