//! The call of RFC 3261 section 24.2 from both sides, without proxies that stay in the dialog and
//! with those of section 16.12.1.1.

use sc_dialog::{Dialog, DialogRefused, Inside, is_askable};
use sc_head_text::read_address;
use sc_message_text::{text_of, uri_text};
use sc_value::{
    Address, CSeq, Contact, Discard, Head, HeaderValue, List, Message, NoMemory, Others, Reason,
    Request, Response, Shared, SharedList, Text, Token, Uri, is_one_line,
};
use std::alloc::Global;

// What a side sends: which side it is, whether the proxies recorded their routes, ACK or BYE, and
// the whole request as the dialog makes it.
#[derive(Drop)]
struct Row {
    caller: bool,
    recorded: bool,
    acknowledges: bool,
    expected: &'static [u8],
}

fn rows() -> [Row; 5] {
    [
        Row {
            caller: true,
            recorded: false,
            acknowledges: true,
            expected: b"ACK sip:bob@192.0.2.4 SIP/2.0\r\nMax-Forwards: 70\r\nFrom: <sip:alice@atlanta.com>;tag=1928301774\r\nTo: <sip:bob@biloxi.com>;tag=a6c85cf\r\nCall-ID: a84b4c76e66710\r\nCSeq: 314159 ACK\r\nContent-Length: 0\r\n\r\n",
        },
        Row {
            caller: false,
            recorded: false,
            acknowledges: false,
            expected: b"BYE sip:alice@pc33.atlanta.com SIP/2.0\r\nMax-Forwards: 70\r\nFrom: <sip:bob@biloxi.com>;tag=a6c85cf\r\nTo: <sip:alice@atlanta.com>;tag=1928301774\r\nCall-ID: a84b4c76e66710\r\nCSeq: 1 BYE\r\nContent-Length: 0\r\n\r\n",
        },
        Row {
            caller: true,
            recorded: true,
            acknowledges: true,
            expected: b"ACK sip:bob@192.0.2.4 SIP/2.0\r\nRoute: <sip:p1.example.com;lr>\r\nRoute: <sip:p2.domain.com;lr>\r\nMax-Forwards: 70\r\nFrom: <sip:alice@atlanta.com>;tag=1928301774\r\nTo: <sip:bob@biloxi.com>;tag=a6c85cf\r\nCall-ID: a84b4c76e66710\r\nCSeq: 314159 ACK\r\nContent-Length: 0\r\n\r\n",
        },
        Row {
            caller: true,
            recorded: true,
            acknowledges: false,
            expected: b"BYE sip:bob@192.0.2.4 SIP/2.0\r\nRoute: <sip:p1.example.com;lr>\r\nRoute: <sip:p2.domain.com;lr>\r\nMax-Forwards: 70\r\nFrom: <sip:alice@atlanta.com>;tag=1928301774\r\nTo: <sip:bob@biloxi.com>;tag=a6c85cf\r\nCall-ID: a84b4c76e66710\r\nCSeq: 314160 BYE\r\nContent-Length: 0\r\n\r\n",
        },
        Row {
            caller: false,
            recorded: true,
            acknowledges: false,
            expected: b"BYE sip:alice@pc33.atlanta.com SIP/2.0\r\nRoute: <sip:p2.domain.com;lr>\r\nRoute: <sip:p1.example.com;lr>\r\nMax-Forwards: 70\r\nFrom: <sip:bob@biloxi.com>;tag=a6c85cf\r\nTo: <sip:alice@atlanta.com>;tag=1928301774\r\nCall-ID: a84b4c76e66710\r\nCSeq: 1 BYE\r\nContent-Length: 0\r\n\r\n",
        },
    ]
}

fn uri(alloc: Global, text: &[u8]) -> Result<Uri, NoMemory> {
    match sc_uri_text::read(alloc, text) {
        Ok(uri) => Ok(uri),
        Err(_) => Err(NoMemory),
    }
}

fn read(alloc: Global, text: &Text) -> Result<Address, NoMemory> {
    if !is_one_line(text.as_bytes()) {
        return Err(NoMemory);
    }
    match read_address(alloc, text.as_bytes()) {
        Ok(address) => Ok(address),
        Err(_) => Err(NoMemory),
    }
}

fn plain(alloc: Global, uri: &[u8]) -> Result<Address, NoMemory> {
    let mut text = Text::from_slice(alloc, b"<")?;
    text.append(uri)?;
    text.append(b">")?;
    read(alloc, &text)
}

// `NAME <URI>;tag=..`, without a tag where it is empty.
fn person(alloc: Global, display: &[u8], uri: &[u8], tag: &[u8]) -> Result<Address, NoMemory> {
    let mut text = Text::from_slice(alloc, display)?;
    text.append(b" <")?;
    text.append(uri)?;
    text.append(b">")?;
    if !tag.is_empty() {
        text.append(b";tag=")?;
        text.append(tag)?;
    }
    read(alloc, &text)
}

#[tactic(auto, unfolding(sc_tokens::specs::Tokens::is_token, sc_tokens::specs::Tokens::is_token_byte))]
fn invite_method(alloc: Global) -> Result<Token, NoMemory> {
    Token::from_slice(alloc, b"INVITE")
}

#[tactic(auto, unfolding(sc_tokens::specs::Tokens::is_value, sc_tokens::specs::Tokens::is_one_line, sc_tokens::specs::Tokens::is_line_break, sc_tokens::specs::Tokens::is_blank, sc_tokens::specs::Tokens::begins_blank, sc_tokens::specs::Tokens::ends_blank))]
fn call_id(alloc: Global) -> Result<HeaderValue, NoMemory> {
    HeaderValue::from_slice(alloc, b"a84b4c76e66710")
}

#[tactic(auto, unfolding(sc_tokens::specs::Tokens::is_one_line, sc_tokens::specs::Tokens::is_line_break))]
fn reason(alloc: Global) -> Result<Reason, NoMemory> {
    Reason::from_slice(alloc, b"OK")
}

fn cseq(alloc: Global, number: u32) -> Result<CSeq, NoMemory> {
    if number >= 2_147_483_648 {
        return Err(NoMemory);
    }
    let method = invite_method(alloc)?;
    method.known();
    Ok(CSeq { number, method })
}

fn routes(alloc: Global, recorded: bool) -> Result<List<Address>, NoMemory> {
    let mut routes = List::new(alloc);
    if recorded {
        routes.push(plain(alloc, b"sip:p2.domain.com;lr")?)?;
        routes.push(plain(alloc, b"sip:p1.example.com;lr")?)?;
    }
    Ok(routes)
}

// `*`, and before it the Contact.
fn contacts(alloc: Global, text: &[u8]) -> Result<List<Contact>, NoMemory> {
    let mut contacts = List::new(alloc);
    let address = plain(alloc, text)?;
    contacts.push(Contact::At(address))?;
    contacts.push(Contact::Star)?;
    Ok(contacts)
}

fn head(
    alloc: Global,
    number: u32,
    tag: &[u8],
    recorded: bool,
    contact: &[u8],
) -> Result<Head, NoMemory> {
    let contact = SharedList::from_list(alloc, contacts(alloc, contact)?)?;
    let record_route = SharedList::from_list(alloc, routes(alloc, recorded)?)?;
    let from = person(alloc, b"Alice", b"sip:alice@atlanta.com", b"1928301774")?;
    let to = person(alloc, b"Bob", b"sip:bob@biloxi.com", tag)?;
    let (from, to) = (Shared::new(alloc, from)?, Shared::new(alloc, to)?);
    let call_id = call_id(alloc)?;
    let cseq = cseq(alloc, number)?;
    Ok(Head {
        via: SharedList::new(alloc),
        route: List::new(alloc),
        record_route,
        from,
        to,
        call_id,
        cseq,
        contact,
        others: Others::new(alloc),
        body: Text::new(alloc),
    })
}

fn invite(alloc: Global, number: u32, recorded: bool, contact: &[u8]) -> Result<Request, NoMemory> {
    let method = invite_method(alloc)?;
    let uri = uri(alloc, b"sip:bob@biloxi.com")?;
    let head = head(alloc, number, b"", recorded, contact)?;
    Ok(Request {
        method,
        uri,
        hops: 70,
        head,
    })
}

fn accepted(alloc: Global, recorded: bool, contact: &[u8]) -> Result<Response, NoMemory> {
    let reason = reason(alloc)?;
    let head = head(alloc, 314_159, b"a6c85cf", recorded, contact)?;
    Ok(Response {
        code: 200,
        reason,
        head,
    })
}

fn callers(alloc: Global, recorded: bool) -> Result<Dialog, NoMemory> {
    let invite = invite(alloc, 314_159, false, b"sip:alice@pc33.atlanta.com")?;
    match accepted(alloc, recorded, b"sip:bob@192.0.2.4") {
        Ok(accepted) => {
            let dialog = Dialog::from_uac(alloc, &invite, &accepted);
            invite.discard();
            accepted.discard();
            dialog
        }
        Err(NoMemory) => {
            invite.discard();
            Err(NoMemory)
        }
    }
}

fn callees(alloc: Global, recorded: bool) -> Result<Dialog, NoMemory> {
    let tag = Text::from_slice(alloc, b"a6c85cf")?;
    if !sc_value::is_token(tag.as_bytes()) {
        return Err(NoMemory);
    }
    let invite = invite(alloc, 314_159, recorded, b"sip:alice@pc33.atlanta.com")?;
    let dialog = Dialog::from_uas(alloc, &invite, &tag);
    invite.discard();
    dialog
}

fn bye_of(alloc: Global, dialog: &mut Dialog) -> Result<Request, NoMemory> {
    let method = Text::from_slice(alloc, b"BYE")?;
    let ask = Inside {
        method,
        fields: List::new(alloc),
        body: Text::new(alloc),
    };
    if !is_askable(&ask) || dialog.last_sent() >= 2_147_483_647 {
        return Err(NoMemory);
    }
    dialog.next_request(alloc, &ask)
}

fn written(alloc: Global, request: Request) -> Result<Text, NoMemory> {
    let message = Message::Request(Shared::new(alloc, request)?);
    let text = text_of(alloc, &message);
    message.discard();
    text
}

fn made(alloc: Global, row: &Row) -> Result<Text, NoMemory> {
    let mut dialog = if row.caller {
        callers(alloc, row.recorded)?
    } else {
        callees(alloc, row.recorded)?
    };
    let request = if row.acknowledges {
        dialog.ack(alloc, 314_159, &Text::new(alloc))
    } else {
        bye_of(alloc, &mut dialog)
    };
    dialog.discard();
    written(alloc, request?)
}

#[test]
fn makes_the_requests_of_the_call(rt: HostRuntime) {
    for row in &rows() {
        let right = match made(rt.alloc(), row) {
            Ok(text) => text.as_bytes() == row.expected,
            Err(NoMemory) => false,
        };
        assert!(rt; right);
    }
}

fn take_invite(alloc: Global, dialog: &mut Dialog, number: u32) -> Result<(), DialogRefused> {
    let invite = invite(alloc, number, false, b"sip:alice@pc34.atlanta.com")?;
    let taken = dialog.on_request(alloc, &invite);
    invite.discard();
    taken
}

// Bob's target after a later INVITE of Alice, from another place and of this number.
fn target_after_invite(alloc: Global, number: u32) -> Result<Text, DialogRefused> {
    let mut dialog = callees(alloc, false)?;
    let taken = take_invite(alloc, &mut dialog, number);
    let target = uri_text(alloc, dialog.target());
    dialog.discard();
    taken?;
    Ok(target?)
}

#[test]
fn takes_a_request_of_an_equal_number(rt: HostRuntime) {
    let moved = match target_after_invite(rt.alloc(), 314_159) {
        Ok(text) => text.as_bytes() == b"sip:alice@pc34.atlanta.com".as_slice(),
        Err(_) => false,
    };
    assert!(rt; moved);
}

#[test]
fn refuses_a_request_of_a_lower_number(rt: HostRuntime) {
    let refused = match target_after_invite(rt.alloc(), 314_158) {
        Ok(_) => false,
        Err(cause) => {
            cause
                == DialogRefused::LowCseq {
                    last: 314_159,
                    got: 314_158,
                }
        }
    };
    assert!(rt; refused);
}

fn take_response(alloc: Global, dialog: &mut Dialog) -> Result<(), NoMemory> {
    let accepted = accepted(alloc, true, b"sip:bob@192.0.2.5")?;
    let taken = dialog.on_response(alloc, &accepted);
    accepted.discard();
    taken
}

// Alice's target after a further 200 of Bob, from another place.
fn target_after_response(alloc: Global) -> Result<Text, NoMemory> {
    let mut dialog = callers(alloc, false)?;
    let taken = take_response(alloc, &mut dialog);
    let target = uri_text(alloc, dialog.target());
    dialog.discard();
    taken?;
    target
}

#[test]
fn takes_a_later_response(rt: HostRuntime) {
    let moved = match target_after_response(rt.alloc()) {
        Ok(text) => text.as_bytes() == b"sip:bob@192.0.2.5".as_slice(),
        Err(NoMemory) => false,
    };
    assert!(rt; moved);
}
