//! The steps of a journal.

ghost use Rattle.std.specs.Prelude.{◌≡◌, ◌++◌, ◌∷◌, [], codes, IfOk, OnOk};
ghost use Rattle.sc_grammar.specs.Written.{text_of_message};
ghost use Rattle.sc_model.specs.Records.{place_text};
ghost use Rattle.sc_recording.specs.CallTexts.{calls_text, decimal_text};
ghost use Rattle.sc_recording.specs.StepTexts.{app_text, bad_text, ending_text, epoch_text, followed_by, heads_or, step_text, turn_text};

use crate::calls::calls_text;
use crate::heads::heads_text;
use crate::parts::put_number;
use sc_message_text::text_of;
use sc_names::put_place;
use sc_terms::{Bad, CallRecord, End, Step};
use sc_uri_text::put_byte;
use sc_value::{AppId, List, Message, NoMemory, Place, Text};
use std::alloc::Global;

/// The text of a step, its line and what stands behind it:
///
/// - `in PLACE N`, the N bytes of a message and a line feed: the message came from the place.
/// - `bad PLACE AT KIND N`, N bytes of headers and a line feed: a text came that is no message,
///   which goes wrong at this byte of it, from 0, in this way; the headers are those from which it
///   is answered, none where it isn't.
/// - `lost PLACE`: the place was lost.
/// - `tick MS`: the clock reached this moment, in milliseconds.
/// - `turn H S EVENT MS END N`, N bytes of lines and a line feed: the application session S of host
///   H handled the event of this number, lent to it at this moment, and END is `fine` or `fault`;
///   the lines are its calls.
/// - `drop H S`: the application session was ended from outside.
///
/// The one error is want of memory.
pub fn step_text(alloc: Global, step: &Step) -> Result<Text, NoMemory>
    ensures { IfOk result (λ text. text ≡ step_text step.now) }
{
    let mut text = Text::new(alloc);
    put_step(alloc, step, &mut text)?;
    Ok(text)
}

/// `epoch NUMBER BEGAN`: the epoch of this number, which began at this moment, ends behind the
/// steps before. The one error is want of memory.
#[tactic(auto, unfolding(crate::specs::StepTexts::epoch_text))]
pub fn epoch_text(alloc: Global, number: u32, began: u64) -> Result<Text, NoMemory>
    ensures { IfOk result (λ text. text ≡ epoch_text number began) }
{
    let mut text = Text::new(alloc);
    text.append(b"epoch")?;
    put_number(u64::from(number), &mut text)?;
    put_number(began, &mut text)?;
    put_byte(b'\n', &mut text)?;
    Ok(text)
}

#[tactic(auto, unfolding(crate::specs::StepTexts::step_text))]
fn put_step(alloc: Global, step: &Step, out: &mut Text) -> Result<(), NoMemory>
    ensures { OnOk result (out.new ≡ out.old ++ step_text step.now) }
{
    match step {
        Step::In(place, message) => put_in(alloc, *place, message, out),
        Step::Bad(place, bad) => put_bad(alloc, *place, bad, out),
        Step::Lost(place) => put_lost(*place, out),
        Step::Tick(now) => put_tick(*now, out),
        Step::Turn {
            app,
            event,
            now,
            calls,
            end,
        } => put_turn(alloc, *app, *event, *now, calls, *end, out),
        Step::Withdraw(app) => put_drop(*app, out),
    }
}

fn put_in(alloc: Global, place: Place, message: &Message, out: &mut Text) -> Result<(), NoMemory>
    ensures { OnOk result
        (out.new
        ≡ out.old ++ (codes "in " ++ place_text place ++ followed_by (text_of_message message.now))) }
{
    let text = text_of(alloc, message)?;
    out.append(b"in ")?;
    put_place(place, out)?;
    put_followed(text.as_bytes(), out)
}

fn put_bad(alloc: Global, place: Place, bad: &Bad, out: &mut Text) -> Result<(), NoMemory>
    ensures { OnOk result
        (out.new ≡ out.old ++ (bad_text place bad.now ++ followed_by (heads_or bad.now.heads))) }
{
    let text = heads_text(alloc, &bad.heads)?;
    put_fault(place, bad, out)?;
    put_followed(text.as_bytes(), out)
}

#[tactic(auto, unfolding(crate::specs::StepTexts::bad_text))]
fn put_fault(place: Place, bad: &Bad, out: &mut Text) -> Result<(), NoMemory>
    ensures { OnOk result (out.new ≡ out.old ++ bad_text place bad.now) }
{
    out.append(b"bad ")?;
    put_place(place, out)?;
    put_number(bad.at as u64, out)?;
    put_number(u64::from(bad.kind), out)
}

fn put_lost(place: Place, out: &mut Text) -> Result<(), NoMemory>
    ensures { OnOk result (out.new ≡ out.old ++ (codes "lost " ++ place_text place ++ 10 ∷ [])) }
{
    out.append(b"lost ")?;
    put_place(place, out)?;
    put_byte(b'\n', out)
}

fn put_tick(now: u64, out: &mut Text) -> Result<(), NoMemory>
    ensures { OnOk result (out.new ≡ out.old ++ (codes "tick" ++ decimal_text now ++ 10 ∷ [])) }
{
    out.append(b"tick")?;
    put_number(now, out)?;
    put_byte(b'\n', out)
}

fn put_turn(
    alloc: Global,
    app: AppId,
    event: u64,
    now: u64,
    calls: &List<CallRecord>,
    end: End,
    out: &mut Text,
) -> Result<(), NoMemory>
    ensures { OnOk result
        (out.new ≡ out.old ++ (turn_text app event now end ++ followed_by (calls_text calls.now))) }
{
    let text = calls_text(alloc, calls)?;
    put_turn_words(app, event, now, end, out)?;
    put_followed(text.as_bytes(), out)
}

#[tactic(auto, unfolding(crate::specs::StepTexts::turn_text))]
fn put_turn_words(
    app: AppId,
    event: u64,
    now: u64,
    end: End,
    out: &mut Text,
) -> Result<(), NoMemory>
    ensures { OnOk result (out.new ≡ out.old ++ turn_text app event now end) }
{
    out.append(b"turn")?;
    put_app(app, out)?;
    put_number(event, out)?;
    put_number(now, out)?;
    put_end(end, out)
}

fn put_drop(app: AppId, out: &mut Text) -> Result<(), NoMemory>
    ensures { OnOk result (out.new ≡ out.old ++ (codes "drop" ++ app_text app ++ 10 ∷ [])) }
{
    out.append(b"drop")?;
    put_app(app, out)?;
    put_byte(b'\n', out)
}

#[tactic(auto, unfolding(crate::specs::StepTexts::app_text))]
fn put_app(app: AppId, out: &mut Text) -> Result<(), NoMemory>
    ensures { OnOk result (out.new ≡ out.old ++ app_text app) }
{
    put_number(u64::from(app.host), out)?;
    put_number(app.serial, out)
}

#[tactic(auto, unfolding(crate::specs::StepTexts::ending_text))]
fn put_end(end: End, out: &mut Text) -> Result<(), NoMemory>
    ensures { OnOk result (out.new ≡ out.old ++ ending_text end) }
{
    match end {
        End::Fine => out.append(b" fine"),
        End::Fault => out.append(b" fault"),
        End::Starved => out.append(b" starved"),
    }
}

// How many bytes follow, the end of the line, the bytes, and a line feed.
#[tactic(auto, unfolding(crate::specs::StepTexts::followed_by))]
fn put_followed(text: &[u8], out: &mut Text) -> Result<(), NoMemory>
    ensures { OnOk result (out.new ≡ out.old ++ followed_by text.now) }
{
    put_number(text.len() as u64, out)?;
    put_byte(b'\n', out)?;
    out.append(text)?;
    put_byte(b'\n', out)
}
