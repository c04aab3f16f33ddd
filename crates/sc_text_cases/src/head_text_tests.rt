use sc_head_text::{
    read_address, read_addresses, read_contacts, read_cseq, read_hops, read_length, read_vias,
};
use sc_value::{Discard, is_one_line};
use std::alloc::Global;
use std::test::Fail;

// How many Vias the value has; None where it isn't read.
fn count_vias(alloc: Global, text: &[u8]) -> Option<usize> {
    if !is_one_line(text) {
        return None;
    }
    match read_vias(alloc, text) {
        Ok(vias) => Some(vias.len()),
        Err(_) => None,
    }
}

fn count_routes(alloc: Global, text: &[u8]) -> Option<usize> {
    if !is_one_line(text) {
        return None;
    }
    match read_addresses(alloc, text) {
        Ok(routes) => Some(routes.len()),
        Err(_) => None,
    }
}

fn count_contacts(alloc: Global, text: &[u8]) -> Option<usize> {
    if !is_one_line(text) {
        return None;
    }
    match read_contacts(alloc, text) {
        Ok(contacts) => Some(contacts.len()),
        Err(_) => None,
    }
}

// Whether the value is an address with this many parameters.
fn has_params(alloc: Global, text: &[u8], count: usize) -> bool {
    if !is_one_line(text) {
        return false;
    }
    match read_address(alloc, text) {
        Ok(address) => {
            let same = address.params.len() == count;
            address.discard();
            same
        }
        Err(_) => false,
    }
}

fn is_cseq(alloc: Global, text: &[u8], number: u32, method: &[u8]) -> bool {
    match read_cseq(alloc, text) {
        Ok(cseq) => cseq.number == number && cseq.method.as_bytes() == method,
        Err(_) => false,
    }
}

// Values of RFC 3261 sections 20.10, 20.20 and 20.42, and of RFC 4475 section 3.1.1.1.
#[test]
fn reads_lists(rt: HostRuntime) {
    let alloc = rt.alloc();
    let vias = b"SIP / 2.0  / TCP   spindle.example.com ; branch = 1, SIP/2.0/UDP 192.0.2.2";
    assert!(rt; count_vias(alloc, vias) == None);
    let vias = b"SIP / 2.0 / UDP first.example.com: 4000;ttl=16";
    assert!(rt; count_vias(alloc, vias) == None);
    let vias =
        b"SIP/2.0/UDP 192.0.2.2;branch=390skdjuw , SIP / 2.0/TCP [2001:db8::9:1]:05060 ;x=\",\"";
    assert!(rt; count_vias(alloc, vias) == Some(2));
    let contacts =
        b"\"Mr. Watson\" <sip:watson@worcester.bell-telephone.com>;q=0.7; expires=3600, <mailto:watson@bell-telephone.com> ;q=0.1";
    assert!(rt; count_contacts(alloc, contacts) == Some(2));
    assert!(rt; count_contacts(alloc, b"*") == Some(1));
    assert!(rt;
        count_routes(
            alloc,
            b"<sip:p1.example.com;lr>,<sip:a,b@p2.example.com;lr>"
        ) == Some(2)
    );
    assert!(rt; count_routes(alloc, b"*") == None);
}

#[test]
fn reads_single_values(rt: HostRuntime) {
    let alloc = rt.alloc();
    assert!(rt;
        has_params(
            alloc,
            b"\"A. G. Bell\" <sip:agb@bell-telephone.com> ;tag=a48s",
            1
        )
    );
    assert!(rt;
        has_params(
            alloc,
            b"sip:+12125551212@server.phone2net.com;tag=887s;x",
            2
        )
    );
    assert!(rt; has_params(alloc, b"Anonymous <sip:c8oqz84zk7z@privacy.org;lr>", 0));
    assert!(rt; is_cseq(alloc, b"0009  INVITE", 9, b"INVITE"));
    assert!(rt; read_hops(b"0068") == Some(68));
    assert!(rt; read_hops(b"256") == None);
    assert!(rt; read_length(b"150") == Some(150));
}
