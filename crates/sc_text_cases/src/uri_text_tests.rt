use sc_uri_text::{UriRefused, read, write};
use sc_value::{Discard, Text};
use std::alloc::Global;
use std::test::Fail;

// Whether the text is read, and then written in this form.
fn is_written_as(alloc: Global, text: &[u8], form: &[u8]) -> bool {
    let mut out = Text::new(alloc);
    let uri = match read(alloc, text) {
        Ok(uri) => uri,
        Err(_) => return false,
    };
    let done = write(alloc, &uri, &mut out);
    uri.discard();
    done.is_ok() && out.as_bytes() == form
}

// Whether the text is refused with this place and kind.
fn is_refused(alloc: Global, text: &[u8], at: usize, kind: u8) -> bool {
    match read(alloc, text) {
        Ok(uri) => {
            uri.discard();
            false
        }
        Err(cause) => cause == UriRefused::Refused { at, kind },
    }
}

// The examples of RFC 3261 section 19.1.3, and spellings of one URI.
#[test]
fn reads_and_writes(rt: HostRuntime) {
    let alloc = rt.alloc();
    let table: [(&[u8], &[u8]); 10] = [
        (b"sip:alice@atlanta.com", b"sip:alice@atlanta.com"),
        (
            b"sip:alice:secretword@atlanta.com;transport=tcp",
            b"sip:alice:secretword@atlanta.com;transport=tcp",
        ),
        (
            b"sips:alice@atlanta.com?subject=project%20x&priority=urgent",
            b"sips:alice@atlanta.com?subject=project%20x&priority=urgent",
        ),
        (
            b"sip:+1-212-555-1212:1234@gateway.com;user=phone",
            b"sip:+1-212-555-1212:1234@gateway.com;user=phone",
        ),
        (b"sips:1212@gateway.com", b"sips:1212@gateway.com"),
        (b"sip:alice@192.0.2.4", b"sip:alice@192.0.2.4"),
        (
            b"sip:atlanta.com;method=REGISTER?to=alice%40atlanta.com",
            b"sip:atlanta.com;method=REGISTER?to=alice%40atlanta.com",
        ),
        (
            b"sip:alice;day=tuesday@atlanta.com",
            b"sip:alice;day=tuesday@atlanta.com",
        ),
        (b"SIP:atlanta.com:05060?", b"sip:atlanta.com:5060?"),
        (b"sip:@[2001:db8::9:1]:0;x=", b"sip:@[2001:db8::9:1]:0;x="),
    ];
    for i in 0..table.len() {
        assert!(rt; is_written_as(alloc, table[i].0, table[i].1));
    }
}

#[test]
fn refuses_each_part(rt: HostRuntime) {
    let alloc = rt.alloc();
    assert!(rt; is_refused(alloc, b"alice", 0, 1));
    assert!(rt; is_refused(alloc, b"tel:+1 212", 0, 1));
    assert!(rt; is_refused(alloc, b"sip:alice@", 10, 2));
    assert!(rt; is_refused(alloc, b"sip:al ice@atlanta.com", 4, 2));
    assert!(rt; is_refused(alloc, b"sip:alice@atlanta.com:65536", 22, 3));
    assert!(rt; is_refused(alloc, b"sip:atlanta.com;lr;=1?x", 19, 4));
    assert!(rt; is_refused(alloc, b"sip:atlanta.com?a=<b>", 16, 4));
}
