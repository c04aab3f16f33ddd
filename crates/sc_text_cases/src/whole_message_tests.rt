use sc_message_text::{MessageRefused, read_message, text_of};
use sc_value::Discard;
use std::alloc::Global;
use std::test::Fail;

// Compact names, folds, a name in another case, and neither Max-Forwards nor Content-Length. The
// texts stand in functions, whose values no proof goes into.
fn compact() -> &'static [u8] {
    b"OPTIONS sip:alice@home.test SIP/2.0\r\nv: SIP/2.0/TCP 127.0.0.1:5090;branch=z9hG4bKa1\r\nf: sip:bob@home.test;tag=b1\r\nt: <sip:alice@home.test>\r\ni: c1\r\ncseq: 1 OPTIONS\r\ns: a\r\n \t\r\n b\r\n\r\n"
}

fn written() -> &'static [u8] {
    b"OPTIONS sip:alice@home.test SIP/2.0\r\nVia: SIP/2.0/TCP 127.0.0.1:5090;branch=z9hG4bKa1\r\nMax-Forwards: 70\r\nFrom: <sip:bob@home.test>;tag=b1\r\nTo: <sip:alice@home.test>\r\nCall-ID: c1\r\nCSeq: 1 OPTIONS\r\nSubject: a b\r\nContent-Length: 0\r\n\r\n"
}

// Whether the text is refused at this place with this kind.
fn is_refused(alloc: Global, text: &[u8], at: usize, kind: u8) -> bool {
    match read_message(alloc, text) {
        Ok(message) => {
            message.discard();
            false
        }
        Err(cause) => cause == MessageRefused::Refused { at, kind },
    }
}

#[test]
fn reads_compact_names_and_folds(rt: HostRuntime) -> Result<(), Fail> {
    let message = read_message(rt.alloc(), compact())?;
    let text = text_of(rt.alloc(), &message);
    message.discard();
    assert!(rt; text?.as_bytes() == written());
    Ok(())
}

#[test]
fn refuses_at_the_first_fault(rt: HostRuntime) {
    let alloc = rt.alloc();
    assert!(rt; is_refused(alloc, b"OPTIONS\r\n", 9, 1));
    assert!(rt; is_refused(alloc, b"M sip:h SIP/2.1\r\n\r\n", 0, 2));
    assert!(rt; is_refused(alloc, b"M sip:h SIP/2.0\r\n x: y\r\n\r\n", 17, 6));
    assert!(rt; is_refused(alloc, b"M sip:h SIP/2.0\r\n\r\n", 17, 7));
    assert!(rt;
        is_refused(
            alloc,
            b"M sip:h SIP/2.0\r\ni: a\r\n b\r\ni: c\r\n\r\n",
            27,
            8
        )
    );
    assert!(rt; is_refused(alloc, b"M sip:h SIP/2.0\r\nl: +1\r\n\r\n", 17, 9));
}
