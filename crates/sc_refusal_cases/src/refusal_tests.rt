use crate::is_refused;
use crate::tables::{
    Row, header_lines_1, header_lines_2, header_lines_3, header_lines_4, start_lines_1,
    start_lines_2,
};
use sc_message_text::read_message;
use sc_value::{Discard, NoMemory, Text};
use std::alloc::Global;
use std::test::Fail;

// Texts stand in functions, whose values no proof goes into.
fn start() -> &'static [u8] {
    b"M sip:h SIP/2.0\r\n"
}

fn needed() -> &'static [u8] {
    b"Via: SIP/2.0/TCP h;branch=z\r\nFrom: <sip:b@h>;tag=1\r\nTo: <sip:a@h>\r\nCall-ID: c\r\nCSeq: 1 M\r\n"
}

fn are_refused(alloc: Global, rows: &[Row]) -> bool {
    for row in rows {
        if !is_refused(alloc, row.text, row.at, row.kind) {
            return false;
        }
    }
    true
}

// A text of a start line, this, what is needed, this, and an empty line with a body.
fn text_of(alloc: Global, before: &[u8], behind: &[u8], body: &[u8]) -> Result<Text, NoMemory> {
    let mut text = Text::from_slice(alloc, start())?;
    text.append(before)?;
    text.append(needed())?;
    text.append(behind)?;
    text.append(b"\r\n")?;
    text.append(body)?;
    Ok(text)
}

fn is_line_refused(alloc: Global, row: &Row) -> Result<bool, NoMemory> {
    let mut line = Text::from_slice(alloc, row.text)?;
    line.append(b"\r\n")?;
    let text = text_of(alloc, line.as_bytes(), b"", b"")?;
    Ok(is_refused(alloc, text.as_bytes(), row.at, row.kind))
}

fn are_lines_refused(alloc: Global, rows: &[Row]) -> Result<bool, NoMemory> {
    for row in rows {
        if !is_line_refused(alloc, row)? {
            return Ok(false);
        }
    }
    Ok(true)
}

#[test]
fn start_lines(rt: HostRuntime) {
    assert!(rt; are_refused(rt.alloc(), &start_lines_1()));
    assert!(rt; are_refused(rt.alloc(), &start_lines_2()));
}

#[test]
fn header_lines(rt: HostRuntime) -> Result<(), Fail> {
    let alloc = rt.alloc();
    assert!(rt; are_lines_refused(alloc, &header_lines_1())?);
    assert!(rt; are_lines_refused(alloc, &header_lines_2())?);
    assert!(rt; are_lines_refused(alloc, &header_lines_3())?);
    assert!(rt; are_lines_refused(alloc, &header_lines_4())?);
    Ok(())
}

// Behind what is needed, which ends at this place.
fn is_refused_behind(
    alloc: Global,
    line: &[u8],
    body: &[u8],
    at: usize,
    kind: u8,
) -> Result<bool, NoMemory> {
    let text = text_of(alloc, b"", line, body)?;
    Ok(is_refused(alloc, text.as_bytes(), at, kind))
}

#[test]
fn what_stands_twice(rt: HostRuntime) -> Result<(), Fail> {
    let alloc = rt.alloc();
    assert!(rt; is_refused_behind(alloc, b"From: <sip:b@h>\r\n", b"", 107, 8)?);
    assert!(rt; is_refused_behind(alloc, b"t: <sip:a@h>\r\n", b"", 107, 8)?);
    assert!(rt; is_refused_behind(alloc, b"i: d\r\n", b"", 107, 8)?);
    assert!(rt; is_refused_behind(alloc, b"CSEQ: x\r\n", b"", 107, 8)?);
    Ok(())
}

#[test]
fn the_whole(rt: HostRuntime) -> Result<(), Fail> {
    let alloc = rt.alloc();
    assert!(rt;
        is_refused(
            alloc,
            b"M sip:h SIP/2.0\r\nVia: SIP/2.0/TCP h;branch=z\r\n\r\n",
            46,
            7
        )
    );
    assert!(rt;
        is_refused(
            alloc,
            b"M sip:h SIP/2.0\r\nv: SIP/2.0/TCP h;branch=z\r\nf: sip:b\r\nt: sip:a\r\ni: c\r\nCSeq: 1 N\r\n\r\n",
            81,
            10
        )
    );
    assert!(rt; is_refused_behind(alloc, b"", b"x", 107, 12)?);
    assert!(rt; is_refused_behind(alloc, b"l: 1\r\n", b"", 113, 12)?);
    assert!(rt; is_refused_behind(alloc, b"l: 18446744073709551615\r\n", b"", 132, 12)?);
    Ok(())
}

// So many lines, each of six bytes.
fn lines(alloc: Global, count: usize) -> Result<Text, NoMemory> {
    let mut text = Text::new(alloc);
    for _ in 0..count {
        text.append(b"x: y\r\n")?;
    }
    Ok(text)
}

#[test]
fn values_are_counted(rt: HostRuntime) -> Result<(), Fail> {
    let alloc = rt.alloc();
    let most = lines(alloc, 123)?;
    let text = text_of(alloc, b"", most.as_bytes(), b"")?;
    read_message(alloc, text.as_bytes())?.discard();
    let more = lines(alloc, 124)?;
    assert!(rt; is_refused_behind(alloc, more.as_bytes(), b"", 845, 11)?);
    Ok(())
}
