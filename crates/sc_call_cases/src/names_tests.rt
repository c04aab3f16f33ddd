use sc_names::{ap_uri, ar_uri, branch, call_id, edge_tag, read_ap, read_ar, read_branch, tag};
use sc_value::{AppId, Region, Text};
use std::test::Fail;

fn app(serial: u64) -> AppId {
    AppId { host: 0, serial }
}

#[test]
fn draws_names(rt: HostRuntime) -> Result<(), Fail> {
    let alloc = rt.alloc();
    let salt = Text::from_slice(alloc, b"s1")?;
    let mut out = Text::new(alloc);
    branch(alloc, &salt, 0, app(1), 2, &mut out)?;
    out.append(b" ")?;
    tag(alloc, &salt, 0, app(1), 1, &mut out)?;
    out.append(b" ")?;
    tag(alloc, &salt, 2, app(1), 1, &mut out)?;
    out.append(b" ")?;
    call_id(alloc, &salt, 0, [127, 0, 0, 1], app(1), 2, &mut out)?;
    out.append(b" ")?;
    edge_tag(alloc, &salt, &mut out)?;
    assert!(rt;
        out.as_bytes()
            == b"z9hG4bKs1-0-1-2 s1-0-1-1 s1.2-0-1-1 s1-0-1-2@127.0.0.1 s1-edge".as_slice()
    );
    Ok(())
}

#[test]
fn draws_uris(rt: HostRuntime) -> Result<(), Fail> {
    let alloc = rt.alloc();
    let app = AppId { host: 1, serial: 3 };
    let ip = [127, 0, 0, 1];
    let mut first = Text::new(alloc);
    ap_uri(alloc, ip, 5060, 0, app, &mut first)?;
    assert!(rt; first.as_bytes() == b"sip:127.0.0.1:5060;transport=tcp;lr;ap=1-3".as_slice());
    let mut later = Text::new(alloc);
    ap_uri(alloc, ip, 5060, 2, app, &mut later)?;
    assert!(rt; later.as_bytes() == b"sip:127.0.0.1:5060;transport=tcp;lr;ap=1-3.2".as_slice());
    let mut back = Text::new(alloc);
    ar_uri(alloc, ip, 5060, 2, Region::Neutral, &mut back)?;
    assert!(rt; back.as_bytes() == b"sip:127.0.0.1:5060;transport=tcp;lr;ar=2-N".as_slice());
    Ok(())
}

#[test]
fn reads_names(rt: HostRuntime) {
    assert!(rt; read_branch(b"z9hG4bKs1-0-1-2", b"s1", 0) == Some((app(1), 2)));
    assert!(rt; read_branch(b"z9hG4bKs1.2-0-1-2", b"s1", 2) == Some((app(1), 2)));
    assert!(rt; read_branch(b"z9hG4bKs1.2-0-1-2", b"s1", 0).is_none());
    assert!(rt; read_branch(b"z9hG4bKs1-0-01-2", b"s1", 0).is_none());
    assert!(rt; read_ap(b"0-3", 0) == Some(app(3)));
    assert!(rt; read_ap(b"0-3.2", 2) == Some(app(3)));
    assert!(rt; read_ap(b"0-3", 2).is_none());
    assert!(rt; read_ar(b"9-O") == Some((9, Region::Originating)));
    assert!(rt; read_ar(b"4294967296-O").is_none());
    assert!(rt; read_ar(b"9-OO").is_none());
}
