//! What a case tells of a run, a line each.

use crate::answers::{KNOWN, Known};
use sc_edge::{Closing, Listing, MemEdge, Noted};
use sc_switch::{Journal, Ran, Status};
use sc_terms::Step;
use sc_value::{NoMemory, Place, Text, write_counted};
use std::alloc::Global;

fn name_of(status: &Status) -> &'static [u8] {
    match status {
        Status::Done => b"Done",
        Status::Usage => b"Usage",
        Status::Config { .. } => b"Config",
        Status::Dar { .. } => b"Dar",
        Status::JournalFull => b"JournalFull",
        Status::Edge => b"Edge",
        Status::Read => b"Read",
        _ => b"another",
    }
}

/// Puts the name of a status.
pub fn tell_status(status: &Status, told: &mut Text) -> Result<(), NoMemory> {
    told.append(name_of(status))
}

/// Puts the status, and the number, the first moment and the length of the journal.
pub fn tell_ran(ran: &Ran, told: &mut Text) -> Result<(), NoMemory> {
    tell_status(&ran.status, told)?;
    match &ran.journal {
        Some(journal) => tell_journal(ran, journal, told)?,
        None => told.append(b" without a journal")?,
    }
    told.append(b"\n")
}

fn tell_journal(ran: &Ran, journal: &Journal<Step>, told: &mut Text) -> Result<(), NoMemory> {
    write_counted(b" epoch ", u64::from(ran.epoch), told)?;
    write_counted(b" from ", ran.began, told)?;
    write_counted(b" steps ", journal.len(), told)
}

/// Puts how often the edge was polled, what its places took, and its closes.
pub fn tell_edge(alloc: Global, edge: &MemEdge, told: &mut Text) -> Result<(), NoMemory> {
    write_counted(b"polls ", edge.polls(), told)?;
    told.append(b"\n")?;
    for number in 1..=3 {
        tell_took(number, &edge.took(alloc, Place::Back(number))?, told)?;
    }
    tell_closes(edge.closes(), told)
}

/// Puts the texts that a connection took, where it took some.
pub fn tell_took(number: u64, took: &Text, told: &mut Text) -> Result<(), NoMemory> {
    if took.is_empty() {
        return Ok(());
    }
    write_counted(b"c", number, told)?;
    tell_texts(took.as_bytes(), told)?;
    told.append(b"\n")
}

// The names of the known texts, up to four that stand at the front, and the number of bytes behind
// them.
fn tell_texts(took: &[u8], told: &mut Text) -> Result<(), NoMemory> {
    let mut rest = took;
    for _ in 0..4 {
        if let Some(known) = known_at(rest) {
            told.append(b" ")?;
            told.append(known.name)?;
            told.append(b";")?;
            rest = &rest[known.text.len().min(rest.len())..];
        }
    }
    tell_rest(rest.len() as u64, told)
}

fn tell_rest(count: u64, told: &mut Text) -> Result<(), NoMemory> {
    if count == 0 {
        return Ok(());
    }
    write_counted(b" ", count, told)?;
    told.append(b" bytes;")
}

fn known_at(text: &[u8]) -> Option<Known> {
    for known in &KNOWN {
        if text.starts_with(known.text) {
            return Some(*known);
        }
    }
    None
}

fn tell_closes(closes: Option<&[Closing]>, told: &mut Text) -> Result<(), NoMemory> {
    match closes {
        Some(closes) => {
            for closing in closes {
                tell_close(*closing, told)?;
            }
            Ok(())
        }
        None => told.append(b"no room for a close\n"),
    }
}

fn tell_close(closing: Closing, told: &mut Text) -> Result<(), NoMemory> {
    match closing.place {
        Place::Back(number) => write_counted(b"closed c", number, told)?,
        Place::To(_, port) => write_counted(b"closed ", u64::from(port), told)?,
    }
    write_counted(b" after poll ", closing.polls, told)?;
    told.append(b"\n")
}

/// Puts all that the notice was told.
pub fn tell_noted(noted: Option<&[Noted<Journal<Step>>]>, told: &mut Text) -> Result<(), NoMemory> {
    match noted {
        Some(noted) => {
            for one in noted {
                tell_note(one, told)?;
            }
            Ok(())
        }
        None => told.append(b"no room for a note\n"),
    }
}

fn tell_note(noted: &Noted<Journal<Step>>, told: &mut Text) -> Result<(), NoMemory> {
    match noted {
        Noted::Step(count) => write_counted(b"step ", *count, told)?,
        Noted::Part(journal) => write_counted(b"part of ", journal.len(), told)?,
        Noted::Epoch(number, began, journal) => {
            write_counted(b"epoch ", u64::from(*number), told)?;
            write_counted(b" from ", *began, told)?;
            write_counted(b" of ", journal.len(), told)?;
        }
        Noted::List(listing) => tell_listing(listing, told)?,
    }
    told.append(b"\n")
}

fn tell_listing(listing: &Listing, told: &mut Text) -> Result<(), NoMemory> {
    write_counted(b"list of epoch ", u64::from(listing.epoch), told)?;
    write_counted(b" steps ", listing.steps, told)?;
    write_counted(b" live ", listing.live.len() as u64, told)?;
    write_counted(b" waiting ", listing.waiting, told)
}
