//! What a case keeps of what its switch does, a line each.

use sc_edge::Listing;
use sc_switch::{Committed, EpochRefused, StepRefused};
use sc_value::{
    AppId, Message, NoMemory, Place, Request, Response, Sent, Text, branch, tag, write_counted,
};

/// Puts words and the name of an application session.
pub fn tell_app(words: &[u8], app: AppId, told: &mut Text) -> Result<(), NoMemory> {
    write_counted(words, u64::from(app.host), told)?;
    write_counted(b"-", app.serial, told)
}

/// Puts a connection, or the port of an address.
pub fn tell_place(place: Place, told: &mut Text) -> Result<(), NoMemory> {
    match place {
        Place::Back(number) => write_counted(b"c", number, told),
        Place::To(_, port) => write_counted(b"", u64::from(port), told),
    }
}

/// Puts of a response the code and the tag of its To, of a request the method and the branch of its
/// first Via.
pub fn tell_message(message: &Message, told: &mut Text) -> Result<(), NoMemory> {
    match message {
        Message::Request(request) => tell_request(request.get(), told),
        Message::Response(response) => tell_response(response.get(), told),
    }
}

fn tell_request(request: &Request, told: &mut Text) -> Result<(), NoMemory> {
    told.append(b" ")?;
    told.append(request.method.as_bytes())?;
    match request.head.via.as_slice() {
        [first, ..] => tell_word(branch(first), told),
        [] => tell_word(None, told),
    }
}

fn tell_response(response: &Response, told: &mut Text) -> Result<(), NoMemory> {
    write_counted(b" ", u64::from(response.code), told)?;
    tell_word(tag(&response.head.to), told)
}

// The last word, `-` where there is none.
fn tell_word(word: Option<&Text>, told: &mut Text) -> Result<(), NoMemory> {
    told.append(b" ")?;
    match word {
        Some(word) => told.append(word.as_bytes()),
        None => told.append(b"-"),
    }
}

/// Puts the line of a message that was sent.
pub fn tell_sent(sent: &Sent, told: &mut Text) -> Result<(), NoMemory> {
    tell_place(sent.place, told)?;
    tell_message(&sent.message, told)?;
    told.append(b"\n")
}

/// Puts a line where a step was refused.
pub fn tell_taken(taken: Result<(), StepRefused>, told: &mut Text) -> Result<(), NoMemory> {
    match taken {
        Ok(()) => Ok(()),
        Err(cause) => tell_refused(cause, told),
    }
}

/// Puts the line of a refused step.
pub fn tell_refused(cause: StepRefused, told: &mut Text) -> Result<(), NoMemory> {
    match cause {
        StepRefused::JournalFull { steps, bytes } => tell_full(steps, bytes, told),
        StepRefused::NoMemory => told.append(b"NoMemory\n"),
    }
}

fn tell_full(steps: u64, bytes: u64, told: &mut Text) -> Result<(), NoMemory> {
    write_counted(b"JournalFull ", steps, told)?;
    write_counted(b" ", bytes, told)?;
    told.append(b"\n")
}

/// Puts the line of what became of a turn.
pub fn tell_answer(answer: Committed, told: &mut Text) -> Result<(), NoMemory> {
    match answer {
        Committed::Taken => told.append(b"Taken")?,
        Committed::Gone(number) => write_counted(b"Gone ", number, told)?,
        Committed::Other(number) => write_counted(b"Other ", number, told)?,
    }
    told.append(b"\n")
}

/// Puts the line of why an epoch goes on.
pub fn tell_unended(cause: EpochRefused, told: &mut Text) -> Result<(), NoMemory> {
    match cause {
        EpochRefused::Live(number) => write_counted(b"Live ", number, told)?,
        EpochRefused::Busy(number) => write_counted(b"Busy ", number, told)?,
        EpochRefused::Unsent(number) => write_counted(b"Unsent ", number, told)?,
        EpochRefused::Last => told.append(b"Last")?,
    }
    told.append(b"\n")
}

/// Puts the line of a listing.
pub fn tell_listing(listing: &Listing, told: &mut Text) -> Result<(), NoMemory> {
    write_counted(b"listing of epoch ", u64::from(listing.epoch), told)?;
    write_counted(b" steps ", listing.steps, told)?;
    write_counted(b" waiting ", listing.waiting, told)?;
    told.append(b" live")?;
    tell_apps(listing.live.as_slice(), told)?;
    told.append(b"\n")
}

fn tell_apps(apps: &[AppId], told: &mut Text) -> Result<(), NoMemory> {
    for app in apps {
        tell_app(b" ", *app, told)?;
    }
    Ok(())
}
