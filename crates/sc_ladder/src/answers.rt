//! The answers of calls in short.

use sc_terms::{CallAnswer, Refusal, State};
use sc_value::{NoMemory, Text, write_counted, write_u64};

/// Appends the answer of a call: nothing of one that is fine.
pub fn write_answer(answer: CallAnswer, out: &mut Text) -> Result<(), NoMemory> {
    match answer {
        CallAnswer::Fine => Ok(()),
        CallAnswer::Number(number) => {
            out.append(b" = ")?;
            write_u64(number, out)
        }
        CallAnswer::Refused(refusal) => {
            out.append(b": refused ")?;
            write_refusal(refusal, out)
        }
    }
}

fn write_refusal(refusal: Refusal, out: &mut Text) -> Result<(), NoMemory> {
    match refusal {
        Refusal::WrongState(state) => {
            out.append(b"WrongState ")?;
            out.append(state_name(state))
        }
        Refusal::AlreadyLinked(sess) => write_counted(b"AlreadyLinked ", u64::from(sess.0), out),
        Refusal::Limit(number) => write_counted(b"Limit ", u64::from(number), out),
        Refusal::BadText(number) => write_counted(b"BadText ", u64::from(number), out),
        other => out.append(refusal_name(other)),
    }
}

fn refusal_name(refusal: Refusal) -> &'static [u8] {
    match refusal {
        Refusal::NotYours => b"NotYours",
        Refusal::AlreadyAnswered => b"AlreadyAnswered",
        Refusal::NotInitial => b"NotInitial",
        Refusal::WrongState(_) => b"WrongState",
        Refusal::AlreadyProxy => b"AlreadyProxy",
        Refusal::AlreadyLinked(_) => b"AlreadyLinked",
        Refusal::NotLinked => b"NotLinked",
        Refusal::Invalidated => b"Invalidated",
        Refusal::Limit(_) => b"Limit",
        Refusal::SystemHeader => b"SystemHeader",
        Refusal::BadText(_) => b"BadText",
        Refusal::NoHops => b"NoHops",
        Refusal::NotSent => b"NotSent",
        Refusal::NoMemory => b"NoMemory",
    }
}

fn state_name(state: State) -> &'static [u8] {
    match state {
        State::Initial => b"Initial",
        State::Early => b"Early",
        State::Confirmed => b"Confirmed",
        State::Terminated => b"Terminated",
    }
}
