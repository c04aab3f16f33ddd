use sc_dar::{DarRefused, read, write};
use sc_terms::Dar;
use sc_value::{List, Text};
use std::alloc::Global;
use std::test::Fail;

fn names(alloc: Global) -> List<Text> {
    let mut names = List::new(alloc);
    for name in [b"a0", b"a1"] {
        if let Ok(name) = Text::from_slice(alloc, name) {
            let _ = names.push(name);
        }
    }
    names
}

fn discard(dar: Dar) {
    drop(dar);
}

// Whether the text is read, and then written in this form.
fn is_written_as(alloc: Global, text: &[u8], form: &[u8]) -> bool {
    let names = names(alloc);
    let mut out = Text::new(alloc);
    let dar = match read(alloc, text, &names) {
        Ok(dar) => dar,
        Err(_) => return false,
    };
    let done = write(alloc, &dar, &names, &mut out);
    discard(dar);
    done.is_ok() && out.as_bytes() == form
}

// Whether the text is refused with this line and kind.
fn is_refused(alloc: Global, text: &[u8], line: u64, kind: u8) -> bool {
    match read(alloc, text, &names(alloc)) {
        Ok(dar) => {
            discard(dar);
            false
        }
        Err(cause) => cause == DarRefused::Refused { line, kind },
    }
}

#[test]
fn reads_and_writes(rt: HostRuntime) {
    let alloc = rt.alloc();
    let joined: &[u8] =
        b"# routes\nINVITE=(\"a0\",\"DAR:From\",\"NEUTRAL\",\"\",\"NO_ROUTE\",\"0\"), \\\r\n\t( \"a1\", \"\", \"NEUTRAL\", \"<SIP:h:05060;lr>\", \"ROUTE_BACK\", \"1\" )";
    let form: &[u8] =
        b"INVITE: (\"a0\", \"DAR:From\", \"NEUTRAL\", \"\", \"NO_ROUTE\", \"0\"), (\"a1\", \"\", \"NEUTRAL\", \"sip:h:5060;lr\", \"ROUTE_BACK\", \"1\")\n";
    assert!(rt; is_written_as(alloc, joined, form));
    assert!(rt; is_written_as(alloc, form, form));
    assert!(rt; is_written_as(alloc, b"", b""));
}

#[test]
fn refuses(rt: HostRuntime) {
    let alloc = rt.alloc();
    assert!(rt; is_refused(alloc, b"INVITE (\"a\")", 1, 1));
    assert!(rt;
        is_refused(
            alloc,
            b"\n\nINVITE: (\"a0\", \"\", \"NEUTRAL\", \"\", \"NO_ROUTE\", \"1\")",
            3,
            5
        )
    );
    assert!(rt;
        is_refused(
            alloc,
            b"INVITE: (\"a2\", \"\", \"NEUTRAL\", \"\", \"NO_ROUTE\", \"0\")\n",
            1,
            6
        )
    );
}
