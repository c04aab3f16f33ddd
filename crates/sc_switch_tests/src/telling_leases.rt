//! What a lease shows, as a line.

use crate::telling::tell_app;
use sc_servlets::Lease;
use sc_terms::{Event, SessionView, TimerView};
use sc_value::{NoMemory, Shared, Text, write_counted};

/// Puts the line of a lease: its numbers and its event, then each SipSession, and each timer with
/// the moment at which it is due.
pub fn tell_lease(lease: &Lease, told: &mut Text) -> Result<(), NoMemory> {
    write_counted(b"lease ", lease.number, told)?;
    write_counted(b" event ", lease.event_number, told)?;
    tell_app(b" of ", lease.app, told)?;
    tell_event(lease.event.as_ref().map(Shared::get), told)?;
    tell_sessions(lease.shown.get().sessions.as_slice(), told)?;
    tell_timers(lease.shown.get().timers.as_slice(), told)?;
    told.append(b"\n")
}

fn tell_event(event: Option<&Event>, told: &mut Text) -> Result<(), NoMemory> {
    match event {
        Some(Event::Timer { id, .. }) => write_counted(b" Timer ", u64::from(id.0), told),
        Some(event) => told.append(event_word(event)),
        None => told.append(b" Mute"),
    }
}

fn event_word(event: &Event) -> &'static [u8] {
    match event {
        Event::Initial { .. } => b" Initial",
        Event::Request { .. } => b" Request",
        Event::Response { .. } => b" Response",
        Event::Branch { .. } => b" Branch",
        Event::Cancelled { .. } => b" Cancelled",
        Event::Timer { .. } => b" Timer",
        Event::Expired => b" Expired",
        Event::Ready => b" Ready",
    }
}

fn tell_sessions(sessions: &[SessionView], told: &mut Text) -> Result<(), NoMemory> {
    for session in sessions {
        tell_session(session, told)?;
    }
    Ok(())
}

fn tell_session(session: &SessionView, told: &mut Text) -> Result<(), NoMemory> {
    write_counted(b", session ", u64::from(session.id.0), told)?;
    if session.gone {
        told.append(b" gone")?;
    }
    match session.linked {
        Some(other) => write_counted(b" linked to ", u64::from(other.0), told),
        None => Ok(()),
    }
}

fn tell_timers(timers: &[TimerView], told: &mut Text) -> Result<(), NoMemory> {
    for timer in timers {
        write_counted(b", timer ", u64::from(timer.id.0), told)?;
        write_counted(b" due ", timer.due, told)?;
    }
    Ok(())
}
