use sc_script::{ScriptRefused, read_lines, write_end, write_sent};
use sc_terms::Line;
use sc_value::{Discard, List, Place, Sent, Text};
use std::alloc::Global;
use std::test::Fail;

// It stands in a function, whose value no proof goes into.
fn options() -> &'static [u8] {
    b"OPTIONS sip:alice@home.test SIP/2.0\r\nVia: SIP/2.0/TCP 127.0.0.1:5090;branch=z9hG4bKa1\r\nMax-Forwards: 70\r\nFrom: <sip:bob@home.test>;tag=b1\r\nTo: <sip:alice@home.test>\r\nCall-ID: c1\r\nCSeq: 1 OPTIONS\r\nContent-Length: 0\r\n\r\n"
}

// A script of four lines, the first with a line feed among its bytes.
fn rows() -> &'static [u8] {
    b"in c1 3\na\nb\ntick 5\nrun\nend\n"
}

fn are_four(lines: &[Line]) -> bool {
    match lines {
        [Line::In(_, text), Line::Tick(now), Line::Run, Line::End] => {
            text.as_bytes() == b"a\nb".as_slice() && *now == 5
        }
        _ => false,
    }
}

#[test]
fn reads_lines(rt: HostRuntime) {
    let right = match read_lines(rt.alloc(), rows()) {
        Ok(lines) => are_four(lines.as_slice()),
        Err(_) => false,
    };
    assert!(rt; right);
}

#[test]
fn refuses_a_script_that_is_cut(rt: HostRuntime) {
    let refused = match read_lines(rt.alloc(), b"run\nend") {
        Ok(_) => false,
        Err(cause) => cause == ScriptRefused::Refused { at: 7, kind: 6 },
    };
    assert!(rt; refused);
}

#[test]
fn writes_a_run(rt: HostRuntime) -> Result<(), Fail> {
    let alloc = rt.alloc();
    let mut out = Text::new(alloc);
    let message = sc_message_text::read_message(alloc, options())?;
    let mut sent = Sent {
        place: Place::Back(1),
        message,
    };
    let back = write_sent(alloc, &sent, &mut out);
    sent.place = Place::To([127, 0, 0, 1], 5070);
    let to = write_sent(alloc, &sent, &mut out);
    sent.discard();
    back?;
    to?;
    write_end(alloc, 3, 1, 0, &mut out)?;
    let expected = expected_run(alloc)?;
    assert!(rt; out.as_bytes() == expected.as_bytes());
    Ok(())
}

fn expected_run(alloc: Global) -> Result<Text, Fail> {
    let mut text = Text::from_slice(alloc, b"out c1 217\n")?;
    text.append(options())?;
    text.append(b"\nout 127.0.0.1:5070 217\n")?;
    text.append(options())?;
    text.append(b"\nend 3 1 0\n")?;
    Ok(text)
}
