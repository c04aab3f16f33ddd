//! The texts that are sent (RFC 3261 section 8.2.6), with tags as docs/names.md spells them.

/// A text that may be sent, and what it is called where it is told.
#[derive(Clone, Copy)]
pub struct Known {
    pub name: &'static [u8],
    pub text: &'static [u8],
}

/// All texts that the cases send.
pub const KNOWN: [Known; 8] = [
    Known {
        name: b"200 of c1 by 0-1",
        text: b"SIP/2.0 200 OK\r\n\
              Via: SIP/2.0/TCP 127.0.0.1:5090;branch=z9hG4bKa1\r\n\
              From: <sip:bob@home.test>;tag=b1\r\n\
              To: <sip:alice@home.test>;tag=s1-0-1-1\r\n\
              Call-ID: c1\r\n\
              CSeq: 1 OPTIONS\r\n\
              Content-Length: 0\r\n\
              \r\n",
    },
    Known {
        name: b"200 of c2 by 0-1",
        text: b"SIP/2.0 200 OK\r\n\
              Via: SIP/2.0/TCP 127.0.0.1:5090;branch=z9hG4bKb1\r\n\
              From: <sip:bob@home.test>;tag=b1\r\n\
              To: <sip:alice@home.test>;tag=s1-0-1-1\r\n\
              Call-ID: c2\r\n\
              CSeq: 1 OPTIONS\r\n\
              Content-Length: 0\r\n\
              \r\n",
    },
    Known {
        name: b"200 of c2 by 0-2",
        text: b"SIP/2.0 200 OK\r\n\
              Via: SIP/2.0/TCP 127.0.0.1:5090;branch=z9hG4bKb1\r\n\
              From: <sip:bob@home.test>;tag=b1\r\n\
              To: <sip:alice@home.test>;tag=s1-0-2-1\r\n\
              Call-ID: c2\r\n\
              CSeq: 1 OPTIONS\r\n\
              Content-Length: 0\r\n\
              \r\n",
    },
    Known {
        name: b"200 of c2 by 0-1 of epoch 1",
        text: b"SIP/2.0 200 OK\r\n\
              Via: SIP/2.0/TCP 127.0.0.1:5090;branch=z9hG4bKb1\r\n\
              From: <sip:bob@home.test>;tag=b1\r\n\
              To: <sip:alice@home.test>;tag=s1.1-0-1-1\r\n\
              Call-ID: c2\r\n\
              CSeq: 1 OPTIONS\r\n\
              Content-Length: 0\r\n\
              \r\n",
    },
    Known {
        name: b"400 of c1",
        text: b"SIP/2.0 400 Bad Request\r\n\
              Via: SIP/2.0/TCP 127.0.0.1:5090;branch=z9hG4bKa1\r\n\
              From: <sip:bob@home.test>;tag=b1\r\n\
              To: <sip:alice@home.test>;tag=s1-edge\r\n\
              Call-ID: c1\r\n\
              CSeq: 1 INVITE\r\n\
              Content-Length: 0\r\n\
              \r\n",
    },
    Known {
        name: b"100 of c5",
        text: b"SIP/2.0 100 Trying\r\n\
              Via: SIP/2.0/TCP 127.0.0.1:5090;branch=z9hG4bKa1\r\n\
              From: <sip:alice@home.test>;tag=a\r\n\
              To: <sip:bob@home.test>\r\n\
              Call-ID: c5\r\n\
              CSeq: 1 INVITE\r\n\
              Content-Length: 0\r\n\
              \r\n",
    },
    Known {
        name: b"200 of c5 by 0-1",
        text: b"SIP/2.0 200 OK\r\n\
              Via: SIP/2.0/TCP 127.0.0.1:5090;branch=z9hG4bKa1\r\n\
              From: <sip:alice@home.test>;tag=a\r\n\
              To: <sip:bob@home.test>;tag=s1-0-1-1\r\n\
              Call-ID: c5\r\n\
              CSeq: 1 INVITE\r\n\
              Contact: <sip:127.0.0.1:5060;transport=tcp;lr;ap=0-1>\r\n\
              Content-Length: 0\r\n\
              \r\n",
    },
    Known {
        name: b"481 of c5 by 0-1",
        text: b"SIP/2.0 481 Call/Transaction Does Not Exist\r\n\
              Via: SIP/2.0/TCP 127.0.0.1:5090;branch=z9hG4bKa1\r\n\
              From: <sip:alice@home.test>;tag=a\r\n\
              To: <sip:bob@home.test>;tag=s1-0-1-1\r\n\
              Call-ID: c5\r\n\
              CSeq: 1 INVITE\r\n\
              Content-Length: 0\r\n\
              \r\n",
    },
];
