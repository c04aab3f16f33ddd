//! The console of `serve`: the lines of standard input, and what is answered on standard output.

use sc_console::{Operator, Typed};
use sc_edge::put_all;
use sc_limit::output;
use sc_value::{NoMemory, Text};
use std::io::Read;
use std::sync::Wait;

/// Answers the lines of standard input until it ends, can't be read, or what is answered can't be
/// written.
pub fn operate<W: Wait>(rt: &HostRuntime, wait: &W, operator: &mut Operator) {
    let mut typed = Typed::new(rt.alloc());
    let mut bytes = [0u8; 256];
    for _ in wait.forever() {
        match rt.stdin().read(&mut bytes) {
            Ok(0) | Err(_) => return,
            Ok(count) => {
                if take_all(rt, wait, operator, &mut typed, &bytes[..count]).is_err() {
                    return;
                }
            }
        }
    }
}

/// Standard output takes no more, or memory is wanting.
#[derive(Drop)]
struct Ended;

/// Takes bytes that were typed, and answers each line that they end.
fn take_all<W: Wait>(
    rt: &HostRuntime,
    wait: &W,
    operator: &mut Operator,
    typed: &mut Typed,
    bytes: &[u8],
) -> Result<(), Ended> {
    for byte in bytes {
        match typed.take(*byte) {
            Ok(true) => {
                answer(rt, wait, operator, typed.line())?;
                typed.clear(rt.alloc());
            }
            Ok(false) => {}
            Err(NoMemory) => return Err(Ended),
        }
    }
    Ok(())
}

/// Answers a line.
fn answer<W: Wait>(
    rt: &HostRuntime,
    wait: &W,
    operator: &mut Operator,
    line: &[u8],
) -> Result<(), Ended> {
    let mut text = Text::new(rt.alloc());
    match operator.answer(wait, line, &mut text) {
        Ok(_) => match put_all(&mut output(rt), text.as_bytes()) {
            Ok(()) => Ok(()),
            Err(_) => Err(Ended),
        },
        Err(NoMemory) => Err(Ended),
    }
}
