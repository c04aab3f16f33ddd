use sc_message_text::{MessageRefused, read_message, text_of, uri_text, write};
use sc_value::{Discard, Text};
use std::test::Fail;

// It stands in a function, whose value no proof goes into.
fn options() -> &'static [u8] {
    b"OPTIONS sip:alice@home.test SIP/2.0\r\nVia: SIP/2.0/TCP 127.0.0.1:5090;branch=z9hG4bKa1\r\nMax-Forwards: 70\r\nFrom: <sip:bob@home.test>;tag=b1\r\nTo: <sip:alice@home.test>\r\nCall-ID: c1\r\nCSeq: 1 OPTIONS\r\nContent-Length: 0\r\n\r\n"
}

#[test]
fn gives_the_text_back(rt: HostRuntime) -> Result<(), Fail> {
    let alloc = rt.alloc();
    let bytes = options();
    let mut out = Text::from_slice(alloc, b"+")?;
    let message = read_message(alloc, bytes)?;
    let text = text_of(alloc, &message);
    let done = write(alloc, &message, &mut out);
    message.discard();
    done?;
    assert_eq!(rt; bytes.len(), 217);
    assert!(rt; text?.as_bytes() == bytes);
    assert_eq!(rt; out.len(), 218);
    Ok(())
}

#[test]
fn refuses_a_text_without_an_empty_line(rt: HostRuntime) {
    let bytes = options();
    let refused = match read_message(rt.alloc(), &bytes[..bytes.len() / 2]) {
        Ok(message) => {
            message.discard();
            false
        }
        Err(cause) => cause == MessageRefused::Refused { at: 108, kind: 1 },
    };
    assert!(rt; refused);
}

#[test]
fn writes_a_uri(rt: HostRuntime) -> Result<(), Fail> {
    let uri = sc_uri_text::read(rt.alloc(), b"tel:+1")?;
    let text = uri_text(rt.alloc(), &uri);
    uri.discard();
    assert!(rt; text?.as_bytes() == b"tel:+1".as_slice());
    Ok(())
}
