use sc_ascii::{quoted_end, read_u64, same_name, token_end};

#[test]
fn finds_ends(rt: HostRuntime) {
    assert!(rt; token_end(b"INVITE sip", 0) == 6);
    assert!(rt; quoted_end(b"\"a\\\"b\" <sip", 0) == Some(6));
    assert!(rt; quoted_end(b"\"a\\\"", 0) == None);
}

#[test]
fn reads_numbers_and_names(rt: HostRuntime) {
    assert!(rt; read_u64(b"0018446744073709551615") == Some(18446744073709551615));
    assert!(rt; read_u64(b"18446744073709551616") == None);
    assert!(rt; read_u64(b"+1") == None);
    assert!(rt; same_name(b"Call-ID", b"cAlL-iD"));
}
