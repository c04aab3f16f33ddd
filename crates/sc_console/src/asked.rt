//! What a line of the console asks for.

ghost use Rattle.std.specs.Prelude.{◌≡◌, ◌≤◌, IfSome};
ghost use Rattle.std.specs.Option.{option_copied};
ghost use Rattle.sc_console.specs.Lines.{asked_of, asked_session, session_in, session_of};

use crate::cuts::cut;
use sc_script::decimal_upto;
use sc_value::AppId;

/// The greatest number of a host.
const MOST_HOST: u64 = 4_294_967_295;

/// The greatest serial.
const MOST_SERIAL: u64 = 9_223_372_036_854_775_808;

/// What a line asks for.
#[derive(Clone, Copy, Debug, PartialEq, Eq)]
pub enum Asked {
    /// `list`: what lives.
    List,
    /// `drop H S`: that this session be withdrawn.
    Drop(AppId),
    /// Any other line.
    Nothing,
}

/// What the line asks for, which is without its line feed. H and S are decimals without leading
/// zero, of at most 4,294,967,295 and 2^63.
#[tactic(auto, unfolding(crate::specs::Lines::asked_of))]
pub fn asked_of(line: &[u8]) -> Asked
    ensures { result ≡ asked_of line.now }
{
    if line == b"list".as_slice() {
        return Asked::List;
    }
    let (word, rest) = cut(line);
    if word == b"drop".as_slice() {
        return session_in(rest);
    }
    Asked::Nothing
}

/// `H S`, or nothing.
#[tactic(auto, unfolding(crate::specs::Lines::session_in))]
fn session_in(text: Option<&[u8]>) -> Asked
    ensures { result ≡ session_in (option_copied text.entry) }
{
    match text {
        Some(text) => {
            let (host, serial) = cut(text);
            session_of(host, serial)
        }
        None => Asked::Nothing,
    }
}

#[tactic(auto, unfolding(crate::specs::Lines::session_of))]
fn session_of(host: &[u8], serial: Option<&[u8]>) -> Asked
    ensures { result ≡ session_of host.now (option_copied serial.entry) }
{
    match serial {
        Some(serial) => named(
            decimal_upto(MOST_HOST, host),
            decimal_upto(MOST_SERIAL, serial),
        ),
        None => Asked::Nothing,
    }
}

/// The session of this host and serial, where both are there.
#[tactic(auto, unfolding(crate::specs::Lines::asked_session))]
fn named(host: Option<u64>, serial: Option<u64>) -> Asked
    requires { IfSome host (λ host. host ≤ 4294967295) }
    ensures { result ≡ asked_session host serial }
{
    match (host, serial) {
        (Some(host), Some(serial)) => Asked::Drop(AppId {
            host: host as u32,
            serial,
        }),
        (Some(_), None) => Asked::Nothing,
        (None, _) => Asked::Nothing,
    }
}
