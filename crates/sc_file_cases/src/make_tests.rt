//! The script of one call, written out by hand.

use sc_make::script;
use sc_value::{NoMemory, Text};
use std::alloc::Global;

// Each value stands in a function, so that no proof goes into it.
fn invite() -> &'static [u8] {
    b"INVITE sip:u@home.test SIP/2.0\r\nVia: SIP/2.0/TCP 127.0.0.1:5090;branch=z9hG4bKm1\r\nMax-Forwards: 70\r\nFrom: <sip:m@home.test>;tag=m\r\nTo: <sip:u@home.test>\r\nCall-ID: m1\r\nCSeq: 1 INVITE\r\nContact: <sip:m@127.0.0.1:5090>\r\nContent-Length: 0\r\n\r\n"
}

fn ack() -> &'static [u8] {
    b"ACK sip:127.0.0.1:5060;transport=tcp;lr;ap=1-1 SIP/2.0\r\nVia: SIP/2.0/TCP 127.0.0.1:5090;branch=z9hG4bKm1a\r\nRoute: <sip:127.0.0.1:5060;transport=tcp;lr;ap=0-1>\r\nMax-Forwards: 70\r\nFrom: <sip:m@home.test>;tag=m\r\nTo: <sip:u@home.test>;tag=s1-1-1-1\r\nCall-ID: m1\r\nCSeq: 1 ACK\r\nContent-Length: 0\r\n\r\n"
}

fn bye() -> &'static [u8] {
    b"BYE sip:127.0.0.1:5060;transport=tcp;lr;ap=1-1 SIP/2.0\r\nVia: SIP/2.0/TCP 127.0.0.1:5090;branch=z9hG4bKm1b\r\nRoute: <sip:127.0.0.1:5060;transport=tcp;lr;ap=0-1>\r\nMax-Forwards: 70\r\nFrom: <sip:m@home.test>;tag=m\r\nTo: <sip:u@home.test>;tag=s1-1-1-1\r\nCall-ID: m1\r\nCSeq: 2 BYE\r\nContent-Length: 0\r\n\r\n"
}

fn expected(alloc: Global) -> Result<Text, NoMemory> {
    let mut text = Text::from_slice(alloc, b"+in c1 237\n")?;
    text.append(invite())?;
    text.append(b"\nrun\ntick 1000\nrun\nin c1 292\n")?;
    text.append(ack())?;
    text.append(b"\nrun\nin c1 292\n")?;
    text.append(bye())?;
    text.append(b"\nrun\ntick 2000\nend\n")?;
    Ok(text)
}

// The script after a text that is there.
fn made(alloc: Global) -> Result<Text, NoMemory> {
    let mut text = Text::from_slice(alloc, b"+")?;
    script(alloc, 1, &mut text)?;
    Ok(text)
}

fn is_right(alloc: Global) -> Result<bool, NoMemory> {
    let expected = expected(alloc)?;
    let made = made(alloc)?;
    Ok(made.as_bytes() == expected.as_bytes())
}

#[test]
fn makes_the_script_of_one_call(rt: HostRuntime) {
    let right = match is_right(rt.alloc()) {
        Ok(right) => right,
        Err(NoMemory) => false,
    };
    assert!(rt; right);
}
