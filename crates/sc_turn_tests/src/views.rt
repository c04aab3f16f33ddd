//! The view that the cases begin with, and turns over it.
//!
//! SipSession 1 has the INVITE 1, which came and has no answer. 2 is that of the INVITE 2 that was
//! sent, whose 2xx waits for its ACK, and of the INFO 11. 3, of INVITE 3, is gone. 4 ended as its
//! INVITE 4 was answered 486. 5 is proxied by INVITE 5 to two targets. 6, of the INVITE 6 that was
//! sent, and 7, of INVITE 7, are linked; the INFO 8 and the ACK 10 came in 7. INVITE 9 of
//! SipSession 8 has no hops left. 9 is proxied by INVITE 12, which has its final response. INVITE
//! 13 of SipSession 10 was answered 180, and INVITE 14 of 11, which was sent, 486.

use crate::rows::{RequestRow, SessionRow, request_rows, session_rows};
use sc_pages::Pages;
use sc_terms::{Period, RequestView, SessionView, TimerView, View};
use sc_turn::Turn;
use sc_value::{AppId, HeaderValue, List, NoMemory, ReqId, SessId, Shared, Text, TimerId, Token};
use std::alloc::Global;

#[tactic(auto, unfolding(sc_tokens::specs::Tokens::is_token, sc_tokens::specs::Tokens::is_token_byte))]
fn salt(alloc: Global) -> Result<Token, NoMemory> {
    Token::from_slice(alloc, b"s1")
}

#[tactic(auto, unfolding(sc_tokens::specs::Tokens::is_value, sc_tokens::specs::Tokens::is_one_line, sc_tokens::specs::Tokens::is_line_break, sc_tokens::specs::Tokens::is_blank, sc_tokens::specs::Tokens::begins_blank, sc_tokens::specs::Tokens::ends_blank))]
fn call_id(alloc: Global) -> Result<HeaderValue, NoMemory> {
    HeaderValue::from_slice(alloc, b"c5")
}

// A SipSession's number, none for 0.
fn some_session(id: u32) -> Option<SessId> {
    if id == 0 { None } else { Some(SessId(id)) }
}

fn session_view(alloc: Global, row: &SessionRow) -> Result<SessionView, NoMemory> {
    let call_id = call_id(alloc)?;
    let own_tag = Text::from_slice(alloc, b"own")?;
    let peer_tag = Text::from_slice(alloc, b"peer")?;
    Ok(SessionView {
        id: SessId(row.id),
        state: row.state,
        role: row.role,
        call_id,
        own_tag,
        peer_tag: Some(peer_tag),
        linked: some_session(row.linked),
        ready_flag: true,
        gone: row.gone,
    })
}

fn unacked_of(alloc: Global, id: u32) -> Result<List<SessId>, NoMemory> {
    let mut sessions = List::new(alloc);
    if id != 0 {
        sessions.push(SessId(id))?;
    }
    Ok(sessions)
}

fn request_view(alloc: Global, row: &RequestRow) -> Result<RequestView, NoMemory> {
    let method = Text::from_slice(alloc, row.method)?;
    let unacked = unacked_of(alloc, row.unacked)?;
    Ok(RequestView {
        id: ReqId(row.id),
        sess: SessId(row.sess),
        method,
        received: row.received,
        initial: row.initial,
        hops: row.hops,
        answered: if row.answered == 0 {
            None
        } else {
            Some(row.answered)
        },
        proxied: row.branches != 0,
        branches: row.branches,
        unacked,
        ends: false,
    })
}

fn sessions(alloc: Global) -> Result<List<SessionView>, NoMemory> {
    let mut sessions = List::new(alloc);
    for row in &session_rows() {
        sessions.push(session_view(alloc, row)?)?;
    }
    Ok(sessions)
}

fn requests(alloc: Global) -> Result<Pages<RequestView>, NoMemory> {
    let mut requests = Pages::new(alloc);
    for row in &request_rows() {
        requests.push(request_view(alloc, row)?)?;
    }
    Ok(requests)
}

// The timer 1, which is active.
fn timers(alloc: Global) -> Result<List<TimerView>, NoMemory> {
    let mut timers = List::new(alloc);
    timers.push(TimerView {
        id: TimerId(1),
        due: 5000,
        period: Period::Once,
        info: Text::new(alloc),
    })?;
    Ok(timers)
}

// The view that the cases begin with.
fn view(alloc: Global) -> Result<View, NoMemory> {
    let salt = salt(alloc)?;
    let sessions = sessions(alloc)?;
    let requests = requests(alloc)?;
    let timers = timers(alloc)?;
    Ok(View {
        app: AppId { host: 0, serial: 1 },
        epoch: 0,
        salt,
        ip: [127, 0, 0, 1],
        params: List::new(alloc),
        now: 0,
        expires: None,
        ready_flag: true,
        counter: 20,
        next_request: 15,
        next_timer: 2,
        attributes: List::new(alloc),
        sessions,
        requests,
        timers,
    })
}

// A turn over this view.
fn turn_over(alloc: Global, view: View) -> Result<Turn, NoMemory> {
    match Turn::begin(alloc, Shared::new(alloc, view)?) {
        Ok(turn) => Ok(turn),
        Err(view) => {
            drop(view);
            Err(NoMemory)
        }
    }
}

/// A turn over the view that the cases begin with.
pub fn turn(alloc: Global) -> Result<Turn, NoMemory> {
    match view(alloc) {
        Ok(view) => turn_over(alloc, view),
        Err(NoMemory) => Err(NoMemory),
    }
}

fn session_at(turn: &Turn, id: u32) -> Option<&SessionView> {
    turn.view()
        .sessions
        .as_slice()
        .iter()
        .find(|session| session.id.0 == id)
}

/// The SipSession to which another is linked as the calls left it, 0 for none.
pub fn partner_of(turn: &Turn, id: u32) -> u32 {
    match session_at(turn, id) {
        Some(session) => match session.linked {
            Some(other) => other.0,
            None => 0,
        },
        None => 0,
    }
}

/// Whether the calls left a SipSession there.
pub fn is_there(turn: &Turn, id: u32) -> bool {
    match session_at(turn, id) {
        Some(session) => !session.gone,
        None => false,
    }
}

/// Whether a SipSession's flag is set as the calls left it.
pub fn is_flagged(turn: &Turn, id: u32) -> bool {
    match session_at(turn, id) {
        Some(session) => session.ready_flag,
        None => false,
    }
}

/// Whether the application session's flag is set as the calls left it.
pub fn is_own_flag_set(turn: &Turn) -> bool {
    turn.view().ready_flag
}

/// When the application session expires as the calls left it, 0 for never.
pub fn expiry(turn: &Turn) -> u64 {
    match turn.view().expires {
        Some(at) => at,
        None => 0,
    }
}
