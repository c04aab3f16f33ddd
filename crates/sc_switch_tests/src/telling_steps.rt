//! The steps of a journal, a line each.

use crate::telling::{tell_app, tell_message, tell_place};
use sc_switch::Journal;
use sc_terms::{Call, CallAnswer, CallRecord, End, Step};
use sc_value::{AppId, Message, NoMemory, Place, Text, write_counted};

/// Puts the lines of all steps.
pub fn tell_steps(journal: &Journal<Step>, told: &mut Text) -> Result<(), NoMemory> {
    for place in 0..journal.len() {
        if let Some(step) = journal.get(place) {
            tell_step(step, told)?;
            told.append(b"\n")?;
        }
    }
    Ok(())
}

fn tell_step(step: &Step, told: &mut Text) -> Result<(), NoMemory> {
    match step {
        Step::In(place, message) => tell_in(*place, message, told),
        Step::Bad(place, _) => tell_at(b"Bad ", *place, told),
        Step::Lost(place) => tell_at(b"Lost ", *place, told),
        Step::Tick(now) => write_counted(b"Tick ", *now, told),
        Step::Withdraw(app) => tell_app(b"Withdraw ", *app, told),
        Step::Turn {
            app,
            event,
            now,
            calls,
            end,
        } => {
            tell_turn(*app, *event, *now, told)?;
            tell_calls(calls.as_slice(), told)?;
            told.append(end_word(*end))
        }
    }
}

fn tell_in(place: Place, message: &Message, told: &mut Text) -> Result<(), NoMemory> {
    tell_at(b"In ", place, told)?;
    tell_message(message, told)
}

fn tell_at(words: &[u8], place: Place, told: &mut Text) -> Result<(), NoMemory> {
    told.append(words)?;
    tell_place(place, told)
}

fn tell_turn(app: AppId, event: u64, now: u64, told: &mut Text) -> Result<(), NoMemory> {
    tell_app(b"Turn ", app, told)?;
    write_counted(b" event ", event, told)?;
    write_counted(b" at ", now, told)
}

fn end_word(end: End) -> &'static [u8] {
    match end {
        End::Fine => b" Fine",
        End::Fault => b" Fault",
        End::Starved => b" Starved",
    }
}

fn tell_calls(calls: &[CallRecord], told: &mut Text) -> Result<(), NoMemory> {
    for made in calls {
        tell_call(made, told)?;
    }
    Ok(())
}

// An attribute is told with its value, another call as `call`, and one that was refused as such.
fn tell_call(made: &CallRecord, told: &mut Text) -> Result<(), NoMemory> {
    match &made.call {
        Call::SetAttribute { name, value } => tell_attribute(name, value, told)?,
        _ => told.append(b" call")?,
    }
    match made.answer {
        CallAnswer::Refused(_) => told.append(b" refused"),
        _ => Ok(()),
    }
}

fn tell_attribute(name: &Text, value: &Text, told: &mut Text) -> Result<(), NoMemory> {
    told.append(b" ")?;
    told.append(name.as_bytes())?;
    told.append(b"=")?;
    told.append(value.as_bytes())
}
