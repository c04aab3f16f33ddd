//! What the calls of a turn answered.

ghost use Rattle.std.specs.Prelude.{◌≡◌, ◌++◌, OnOk};
ghost use Rattle.sc_recording.specs.CallTexts.{acting_on, answer_text, refusal_text, state_text, wrong_state_word};

use crate::parts::{put_acting, put_number};
use crate::words;
use sc_terms::{CallAnswer, Refusal, State};
use sc_value::{NoMemory, Text};

/// Appends what a call answered.
#[tactic(auto, unfolding(crate::specs::CallTexts::answer_text, crate::specs::CallTexts::acting_on))]
pub fn put_answer(answer: CallAnswer, out: &mut Text) -> Result<(), NoMemory>
    ensures { OnOk result (out.new ≡ out.old ++ answer_text answer) }
{
    match answer {
        CallAnswer::Fine => out.append(b" = fine"),
        CallAnswer::Number(n) => {
            out.append(b" =")?;
            put_number(n, out)
        }
        CallAnswer::Refused(refusal) => {
            out.append(b" = refused ")?;
            put_refusal(refusal, out)
        }
    }
}

#[tactic(auto, unfolding(crate::specs::CallTexts::refusal_text))]
fn put_refusal(refusal: Refusal, out: &mut Text) -> Result<(), NoMemory>
    ensures { OnOk result (out.new ≡ out.old ++ refusal_text refusal) }
{
    match refusal {
        Refusal::NotYours => out.append(b"not_yours"),
        Refusal::AlreadyAnswered => out.append(b"already_answered"),
        Refusal::NotInitial => out.append(b"not_initial"),
        Refusal::WrongState(state) => put_wrong_state(state, out),
        Refusal::AlreadyProxy => out.append(b"already_proxy"),
        Refusal::AlreadyLinked(sess) => put_acting(b"already_linked", sess.0, out),
        Refusal::NotLinked => out.append(b"not_linked"),
        Refusal::Invalidated => out.append(b"invalidated"),
        Refusal::Limit(n) => put_acting(b"limit", n, out),
        Refusal::SystemHeader => out.append(b"system_header"),
        Refusal::BadText(n) => put_acting(b"bad_text", n, out),
        Refusal::NoHops => out.append(b"no_hops"),
        Refusal::NotSent => out.append(b"not_sent"),
        Refusal::NoMemory => out.append(b"no_memory"),
    }
}

fn put_wrong_state(state: State, out: &mut Text) -> Result<(), NoMemory>
    ensures { OnOk result (out.new ≡ out.old ++ (wrong_state_word ++ state_text state)) }
{
    out.append(words::wrong_state())?;
    put_state(state, out)
}

#[tactic(auto, unfolding(crate::specs::CallTexts::state_text))]
fn put_state(state: State, out: &mut Text) -> Result<(), NoMemory>
    ensures { OnOk result (out.new ≡ out.old ++ state_text state) }
{
    match state {
        State::Initial => out.append(b" initial"),
        State::Early => out.append(b" early"),
        State::Confirmed => out.append(b" confirmed"),
        State::Terminated => out.append(b" terminated"),
    }
}
