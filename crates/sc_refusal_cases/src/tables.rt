//! Tables of texts with one fault each.

/// A text, and the place and the kind of its fault.
#[derive(Clone, Copy)]
pub struct Row {
    pub at: usize,
    pub kind: u8,
    pub text: &'static [u8],
}

/// A text with this fault.
pub fn fault(at: usize, kind: u8, text: &'static [u8]) -> Row {
    Row { at, kind, text }
}

// Whole texts that begin with a start line at fault.
pub fn start_lines_1() -> [Row; 16] {
    [
        fault(0, 1, b""),
        fault(1, 1, b"M"),
        fault(17, 1, b"M sip:h SIP/2.0\r\n"),
        fault(0, 1, b"\r\n\r\n"),
        fault(0, 1, b"M\r\n\r\n"),
        fault(0, 1, b"M sip:h\r\n\r\n"),
        fault(0, 1, b"M sip:h SIP/2.0 x\r\n\r\n"),
        fault(0, 1, b"M \nsip:h SIP/2.0\r\n\r\n"),
        fault(0, 1, b"M sip:h\r SIP/2.0\r\n\r\n"),
        fault(0, 2, b"M sip:h SIP/2.1\r\n\r\n"),
        fault(0, 2, b"M sip:h sip/2.0\r\n\r\n"),
        fault(0, 2, b"M\0 : SIP/3.0\r\n\r\n"),
        fault(0, 3, b"M@ sip:h SIP/2.0\r\n\r\n"),
        fault(0, 3, b"M\xc3 : SIP/2.0\r\n\r\n"),
        fault(0, 4, b"M sip: SIP/2.0\r\n\r\n"),
        fault(0, 4, b"M h SIP/2.0\r\n\r\n"),
    ]
}

// Whole texts that begin with a start line at fault.
pub fn start_lines_2() -> [Row; 15] {
    [
        fault(0, 4, b"M sip:h:65536 SIP/2.0\r\n\r\n"),
        fault(0, 4, b"M sip:[::1 SIP/2.0\r\n\r\n"),
        fault(0, 4, b"M sip:h;=x SIP/2.0\r\n\r\n"),
        fault(0, 4, b"M <sip:h> SIP/2.0\r\n\r\n"),
        fault(0, 4, b"M tel:\0 SIP/2.0\r\n\r\n"),
        fault(0, 1, b"SIP/2.0\r\n\r\n"),
        fault(0, 1, b"SIP/2.0 200\r\n\r\n"),
        fault(0, 1, b"SIP/2.0 200 O\0K\r\n\r\n"),
        fault(0, 2, b"SIP/2.1 200 OK\r\n\r\n"),
        fault(0, 2, b"sip/2.0 200 OK\r\n\r\n"),
        fault(0, 5, b"SIP/2.0 99 OK\r\n\r\n"),
        fault(0, 5, b"SIP/2.0 099 OK\r\n\r\n"),
        fault(0, 5, b"SIP/2.0 700 OK\r\n\r\n"),
        fault(0, 5, b"SIP/2.0 2000 OK\r\n\r\n"),
        fault(0, 5, b"SIP/2.0 +20 OK\r\n\r\n"),
    ]
}

// A header line at fault. It stands behind a start line and before all that is needed.
pub fn header_lines_1() -> [Row; 16] {
    [
        fault(17, 6, b"no colon"),
        fault(17, 6, b": x"),
        fault(17, 6, b"a b: x"),
        fault(17, 6, b"a\0: x"),
        fault(17, 6, b"\xc3: x"),
        fault(17, 6, b" x"),
        fault(17, 9, b"x: a\rb"),
        fault(17, 9, b"x: a\nb"),
        fault(17, 9, b"x: a\0b"),
        fault(17, 9, b"x: \"a\0\""),
        fault(17, 9, b"Via:"),
        fault(17, 9, b"Via: SIP/2.0/TCP"),
        fault(17, 9, b"Via: SIP/2.0/TCP h"),
        fault(17, 9, b"Via: SIP/2.0/TCP h;branch"),
        fault(17, 9, b"Via: SIP/2.0/TCP h;branch="),
        fault(17, 9, b"Via: SIP/3.0/TCP h;branch=z"),
    ]
}

// A header line at fault. It stands behind a start line and before all that is needed.
pub fn header_lines_2() -> [Row; 16] {
    [
        fault(17, 9, b"Via: SIP/2.0/TCP h;branch=z,"),
        fault(17, 9, b"Via: SIP/2.0/TCP h:65536;branch=z"),
        fault(17, 9, b"Via: SIP/2.0/TCP h :1;branch=z"),
        fault(17, 9, b"Via: SIP/2.0/TCP h;branch=\"z"),
        fault(17, 9, b"Via: SIP/2.0/TCPh;branch=z"),
        fault(17, 9, b"Route: sip:h,"),
        fault(17, 9, b"Route: <sip:h"),
        fault(17, 9, b"Route: \"a <sip:h>"),
        fault(17, 9, b"Route: a\" <sip:h>"),
        fault(17, 9, b"Route:"),
        fault(17, 9, b"Record-Route: <sip:h>;"),
        fault(17, 9, b"Record-Route: <>"),
        fault(17, 9, b"Contact: *, *x"),
        fault(17, 9, b"Contact: <sip:h>;a b"),
        fault(17, 9, b"m: <sip:h>;a=\"b"),
        fault(17, 9, b"Contact: <sip:h>;a=b\"c\""),
    ]
}

// A header line at fault. It stands behind a start line and before all that is needed.
pub fn header_lines_3() -> [Row; 16] {
    [
        fault(17, 9, b"From: <sip:h> x"),
        fault(17, 9, b"From: \"a\" b <sip:h>"),
        fault(17, 9, b"f:"),
        fault(17, 9, b"To: <sip:h>, <sip:g>"),
        fault(17, 9, b"To: a@h <sip:h>"),
        fault(17, 9, b"t: sip:h, x"),
        fault(17, 9, b"CSeq: 1"),
        fault(17, 9, b"CSeq: M 1"),
        fault(17, 9, b"CSeq: 2147483648 M"),
        fault(17, 9, b"CSeq: -1 M"),
        fault(17, 9, b"CSeq: +1 M"),
        fault(17, 9, b"CSeq: 1 M N"),
        fault(17, 9, b"Max-Forwards:"),
        fault(17, 9, b"Max-Forwards: 256"),
        fault(17, 9, b"Max-Forwards: -1"),
        fault(17, 9, b"Max-Forwards: 7x"),
    ]
}

// A header line at fault. It stands behind a start line and before all that is needed.
pub fn header_lines_4() -> [Row; 5] {
    [
        fault(17, 9, b"Content-Length:"),
        fault(17, 9, b"l: -1"),
        fault(17, 9, b"l: +1"),
        fault(17, 9, b"Content-Length: 18446744073709551616"),
        fault(17, 9, b"Content-Length: 0x1"),
    ]
}
