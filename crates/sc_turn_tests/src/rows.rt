//! The SipSessions and requests that the cases show, as rows.

use sc_terms::{Role, State};

/// A SipSession; `linked` is 0 where it isn't linked.
#[derive(Clone, Copy)]
pub struct SessionRow {
    pub id: u32,
    pub state: State,
    pub role: Role,
    pub linked: u32,
    pub gone: bool,
}

/// A request; `answered` is 0 without a final response, and `unacked` is 0 where no 2xx waits for
/// its ACK.
#[derive(Clone, Copy)]
pub struct RequestRow {
    pub id: u32,
    pub sess: u32,
    pub method: &'static [u8],
    pub received: bool,
    pub initial: bool,
    pub hops: u8,
    pub answered: u16,
    pub branches: u8,
    pub unacked: u32,
}

// A SipSession that isn't linked and is there.
fn single(id: u32, state: State, role: Role) -> SessionRow {
    SessionRow {
        id,
        state,
        role,
        linked: 0,
        gone: false,
    }
}

fn linked(id: u32, role: Role, linked: u32) -> SessionRow {
    SessionRow {
        id,
        state: State::Early,
        role,
        linked,
        gone: false,
    }
}

fn gone(id: u32) -> SessionRow {
    SessionRow {
        id,
        state: State::Initial,
        role: Role::Uas,
        linked: 0,
        gone: true,
    }
}

/// The SipSessions in order of number. What each is for, `views` tells.
pub fn session_rows() -> [SessionRow; 11] {
    [
        single(1, State::Initial, Role::Uas),
        single(2, State::Confirmed, Role::Uac),
        gone(3),
        single(4, State::Terminated, Role::Uas),
        single(5, State::Initial, Role::Proxy),
        linked(6, Role::Uac, 7),
        linked(7, Role::Uas, 6),
        single(8, State::Initial, Role::Uas),
        single(9, State::Confirmed, Role::Proxy),
        single(10, State::Early, Role::Uas),
        single(11, State::Initial, Role::Uac),
    ]
}

// An INVITE that came and began its SipSession.
fn came(id: u32, sess: u32) -> RequestRow {
    RequestRow {
        id,
        sess,
        method: b"INVITE",
        received: true,
        initial: true,
        hops: 70,
        answered: 0,
        branches: 0,
        unacked: 0,
    }
}

// A later request that came.
fn came_later(id: u32, sess: u32, method: &'static [u8]) -> RequestRow {
    RequestRow {
        id,
        sess,
        method,
        received: true,
        initial: false,
        hops: 70,
        answered: 0,
        branches: 0,
        unacked: 0,
    }
}

// An INVITE that was sent and began its SipSession.
fn sent(id: u32, sess: u32, answered: u16, unacked: u32) -> RequestRow {
    RequestRow {
        id,
        sess,
        method: b"INVITE",
        received: false,
        initial: true,
        hops: 70,
        answered,
        branches: 0,
        unacked,
    }
}

fn sent_later(id: u32, sess: u32, method: &'static [u8]) -> RequestRow {
    RequestRow {
        id,
        sess,
        method,
        received: false,
        initial: false,
        hops: 70,
        answered: 0,
        branches: 0,
        unacked: 0,
    }
}

fn answered(row: RequestRow, answered: u16) -> RequestRow {
    RequestRow {
        id: row.id,
        sess: row.sess,
        method: row.method,
        received: row.received,
        initial: row.initial,
        hops: row.hops,
        answered,
        branches: row.branches,
        unacked: row.unacked,
    }
}

fn proxied(id: u32, sess: u32, answered: u16, branches: u8) -> RequestRow {
    RequestRow {
        id,
        sess,
        method: b"INVITE",
        received: true,
        initial: true,
        hops: 70,
        answered,
        branches,
        unacked: 0,
    }
}

fn without_hops(id: u32, sess: u32) -> RequestRow {
    RequestRow {
        id,
        sess,
        method: b"INVITE",
        received: true,
        initial: true,
        hops: 0,
        answered: 0,
        branches: 0,
        unacked: 0,
    }
}

/// The requests in order of number.
pub fn request_rows() -> [RequestRow; 14] {
    [
        came(1, 1),
        sent(2, 2, 200, 2),
        came(3, 3),
        answered(came(4, 4), 486),
        proxied(5, 5, 0, 2),
        sent(6, 6, 0, 0),
        came(7, 7),
        came_later(8, 7, b"INFO"),
        without_hops(9, 8),
        came_later(10, 7, b"ACK"),
        sent_later(11, 2, b"INFO"),
        proxied(12, 9, 200, 1),
        came(13, 10),
        sent(14, 11, 486, 0),
    ]
}
