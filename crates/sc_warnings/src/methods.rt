//! The names that SIP has.

/// The methods whose requests may begin something, so that the table is asked for them: those of
/// RFC 3261 sections 10, 11 and 13, and of RFC 6086, 6665, 3428, 3515 and 3903.
const BEGINNING: [&str; 9] = [
    "INVITE",
    "OPTIONS",
    "REGISTER",
    "INFO",
    "SUBSCRIBE",
    "NOTIFY",
    "MESSAGE",
    "REFER",
    "PUBLISH",
];

/// The methods whose requests go with what was begun: those of RFC 3261 sections 9, 13 and 15, and
/// of RFC 3262 and 3311.
const LATER: [&str; 5] = ["ACK", "BYE", "CANCEL", "PRACK", "UPDATE"];

/// Whether a request of this method may begin something.
pub fn is_beginning(method: &[u8]) -> bool {
    BEGINNING.iter().any(|name| name.as_bytes() == method)
}

/// Whether a request of this method goes with what was begun.
pub fn is_later(method: &[u8]) -> bool {
    LATER.iter().any(|name| name.as_bytes() == method)
}
