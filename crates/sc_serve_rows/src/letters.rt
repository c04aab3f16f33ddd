//! The texts that come.

/// A text that comes from a connection.
#[derive(Clone, Copy)]
pub enum Letter {
    /// OPTIONS of the call `c1`.
    First,
    /// OPTIONS of the call `c2`.
    Second,
    /// OPTIONS of the call `c1` whose CSeq has another method.
    Odd,
    /// OPTIONS without Call-ID, whose CSeq has another method.
    Nameless,
    /// INVITE of the call `c5`.
    Invite,
}

/// The text.
pub fn text_of(letter: Letter) -> &'static [u8] {
    match letter {
        Letter::First => first(),
        Letter::Second => second(),
        Letter::Odd => odd(),
        Letter::Nameless => nameless(),
        Letter::Invite => invite(),
    }
}

fn first() -> &'static [u8] {
    b"OPTIONS sip:alice@home.test SIP/2.0\r\n\
      Via: SIP/2.0/TCP 127.0.0.1:5090;branch=z9hG4bKa1\r\n\
      Max-Forwards: 70\r\n\
      From: <sip:bob@home.test>;tag=b1\r\n\
      To: <sip:alice@home.test>\r\n\
      Call-ID: c1\r\n\
      CSeq: 1 OPTIONS\r\n\
      Content-Length: 0\r\n\
      \r\n"
}

fn second() -> &'static [u8] {
    b"OPTIONS sip:alice@home.test SIP/2.0\r\n\
      Via: SIP/2.0/TCP 127.0.0.1:5090;branch=z9hG4bKb1\r\n\
      Max-Forwards: 70\r\n\
      From: <sip:bob@home.test>;tag=b1\r\n\
      To: <sip:alice@home.test>\r\n\
      Call-ID: c2\r\n\
      CSeq: 1 OPTIONS\r\n\
      Content-Length: 0\r\n\
      \r\n"
}

fn odd() -> &'static [u8] {
    b"OPTIONS sip:alice@home.test SIP/2.0\r\n\
      Via: SIP/2.0/TCP 127.0.0.1:5090;branch=z9hG4bKa1\r\n\
      Max-Forwards: 70\r\n\
      From: <sip:bob@home.test>;tag=b1\r\n\
      To: <sip:alice@home.test>\r\n\
      Call-ID: c1\r\n\
      CSeq: 1 INVITE\r\n\
      Content-Length: 0\r\n\
      \r\n"
}

fn nameless() -> &'static [u8] {
    b"OPTIONS sip:alice@home.test SIP/2.0\r\n\
      Via: SIP/2.0/TCP 127.0.0.1:5090;branch=z9hG4bKa1\r\n\
      Max-Forwards: 70\r\n\
      From: <sip:bob@home.test>;tag=b1\r\n\
      To: <sip:alice@home.test>\r\n\
      CSeq: 1 INVITE\r\n\
      Content-Length: 0\r\n\
      \r\n"
}

fn invite() -> &'static [u8] {
    b"INVITE sip:bob@127.0.0.1:5070 SIP/2.0\r\n\
      Via: SIP/2.0/TCP 127.0.0.1:5090;branch=z9hG4bKa1\r\n\
      Max-Forwards: 70\r\n\
      From: <sip:alice@home.test>;tag=a\r\n\
      To: <sip:bob@home.test>\r\n\
      Call-ID: c5\r\n\
      CSeq: 1 INVITE\r\n\
      Contact: <sip:alice@127.0.0.1:5090>\r\n\
      Content-Length: 0\r\n\
      \r\n"
}
