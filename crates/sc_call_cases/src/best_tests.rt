//! The choice by codes (RFC 3261 section 16.7), and what is forwarded, with ample memory.

use sc_best::{best, forwarded, gather};
use sc_head_text::{read_address, read_cseq};
use sc_value::{
    Address, CSeq, Field, Head, HeaderValue, List, NoMemory, Others, Reason, Response, Shared,
    SharedList, Text, is_other,
};
use std::alloc::Global;
use std::test::Fail;

/// Codes in their order, and the place of the best.
const CHOICES: [(&[u16], Option<usize>); 7] = [
    (&[], None),
    (&[404], Some(0)),
    (&[486, 404, 300], Some(2)),
    (&[503, 486, 404], Some(1)),
    (&[404, 603, 600], Some(1)),
    (&[302, 606], Some(1)),
    (&[500, 401, 407], Some(1)),
];

#[tactic(auto, unfolding(sc_tokens::specs::Tokens::is_one_line, sc_tokens::specs::Tokens::is_line_break))]
fn address(alloc: Global) -> Result<Address, NoMemory> {
    match read_address(alloc, b"<sip:home.test>") {
        Ok(address) => Ok(address),
        Err(_) => Err(NoMemory),
    }
}

fn cseq(alloc: Global) -> Result<CSeq, NoMemory> {
    match read_cseq(alloc, b"1 INVITE") {
        Ok(cseq) => Ok(cseq),
        Err(_) => Err(NoMemory),
    }
}

#[tactic(auto, unfolding(sc_tokens::specs::Tokens::is_value, sc_tokens::specs::Tokens::is_one_line, sc_tokens::specs::Tokens::begins_blank, sc_tokens::specs::Tokens::ends_blank))]
fn head(alloc: Global, others: Others) -> Result<Head, NoMemory> {
    let from = Shared::new(alloc, address(alloc)?)?;
    let to = Shared::new(alloc, address(alloc)?)?;
    let call_id = HeaderValue::from_slice(alloc, b"")?;
    let cseq = cseq(alloc)?;
    Ok(Head {
        via: SharedList::new(alloc),
        route: List::new(alloc),
        record_route: SharedList::new(alloc),
        from,
        to,
        call_id,
        cseq,
        contact: SharedList::new(alloc),
        others,
        body: Text::new(alloc),
    })
}

fn field(alloc: Global, name: &[u8], value: &[u8]) -> Result<Field, NoMemory> {
    let name = Text::from_slice(alloc, name)?;
    let value = Text::from_slice(alloc, value)?;
    Ok(Field { name, value })
}

fn put(others: &mut Others, field: Field) -> Result<(), NoMemory> {
    if !is_other(&field) {
        return Err(NoMemory);
    }
    others.push(field)
}

/// A response with a challenge of this value, and a Subject.
#[tactic(auto, unfolding(sc_tokens::specs::Tokens::is_one_line, sc_tokens::specs::Tokens::is_line_break))]
fn response(alloc: Global, code: u16, challenge: &[u8]) -> Result<Response, NoMemory> {
    let mut others = Others::new(alloc);
    put(&mut others, field(alloc, b"proxy-authenticate", challenge)?)?;
    put(&mut others, field(alloc, b"Subject", b"s")?)?;
    let reason = Reason::from_slice(alloc, b"Reason")?;
    let head = head(alloc, others)?;
    Ok(Response { code, reason, head })
}

fn responses(alloc: Global, codes: &[u16]) -> Result<List<Shared<Response>>, NoMemory> {
    let mut all = List::new(alloc);
    for code in codes {
        let made = response(alloc, *code, b"c")?;
        all.push(Shared::new(alloc, made)?)?;
    }
    Ok(all)
}

/// How many challenges are gathered for the response of this place.
fn gathered(
    alloc: Global,
    list: &List<Shared<Response>>,
    chosen: usize,
) -> Result<Option<usize>, NoMemory> {
    if list.len() <= chosen {
        return Ok(None);
    }
    let fields = gather(alloc, list, chosen)?;
    Ok(Some(fields.len()))
}

/// The code that is forwarded, and how many headers without structure go with it.
fn sent(
    alloc: Global,
    list: &List<Shared<Response>>,
    chosen: usize,
) -> Result<Option<(u16, usize)>, NoMemory> {
    if list.len() <= chosen {
        return Ok(None);
    }
    let response = forwarded(alloc, list, chosen)?;
    Ok(Some((response.code, response.head.others.len())))
}

#[test]
fn the_best_by_code(rt: HostRuntime) -> Result<(), Fail> {
    for (codes, want) in CHOICES {
        let list = responses(rt.alloc(), codes)?;
        assert_eq!(rt; best(&list), want, "the best of {codes:?}");
    }
    Ok(())
}

#[test]
fn what_is_forwarded(rt: HostRuntime) -> Result<(), Fail> {
    let alloc = rt.alloc();
    let list = responses(alloc, &[407, 404, 401, 503, 407])?;
    assert_eq!(rt; gathered(alloc, &list, 0), Ok(Some(2)));
    assert_eq!(rt; gathered(alloc, &list, 1), Ok(Some(0)));
    assert_eq!(rt; sent(alloc, &list, 2), Ok(Some((401, 4))));
    assert_eq!(rt; sent(alloc, &list, 1), Ok(Some((404, 2))));
    assert_eq!(rt; sent(alloc, &list, 3), Ok(Some((500, 2))));
    Ok(())
}
