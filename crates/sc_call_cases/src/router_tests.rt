ghost use Rattle.std.specs.Prelude.{◌≡◌, IfOk, length};

use sc_message_text::read_message;
use sc_router::{Choice, Directive, next};
use sc_terms::{AppEntry, Apps, Config, Dar, Expires, MethodList, Modifier, Port, Tuple, Within};
use sc_value::{Discard, List, Message, NoMemory, Region, Text, Token};
use std::alloc::Global;
use std::test::Fail;

// It stands in a function, whose value no proof goes into.
fn options() -> &'static [u8] {
    b"OPTIONS sip:alice@home.test SIP/2.0\r\nVia: SIP/2.0/TCP 127.0.0.1:5090;branch=z9hG4bKa1\r\nMax-Forwards: 70\r\nFrom: <sip:bob@home.test>;tag=b1\r\nTo: <sip:alice@home.test>\r\nCall-ID: c1\r\nCSeq: 1 OPTIONS\r\nContent-Length: 0\r\n\r\n"
}

#[tactic(auto, unfolding(sc_terms::specs::Ranges::is_expiry))]
fn apps(alloc: Global) -> Result<Apps, NoMemory> {
    let name = Text::from_slice(alloc, b"first")?;
    let mut entries = List::new(alloc);
    entries.push(AppEntry {
        name,
        kind: 0,
        params: List::new(alloc),
        expires: Expires::of(3),
    })?;
    Apps::new(entries).ok_or(NoMemory)
}

#[tactic(auto, unfolding(sc_tokens::specs::Tokens::is_token, sc_tokens::specs::Tokens::is_token_byte))]
fn settings(alloc: Global) -> Result<Config, NoMemory> {
    let app = apps(alloc)?;
    let domain = Text::from_slice(alloc, b"home.test")?;
    let salt = Token::from_slice(alloc, b"s1")?;
    Ok(Config {
        listen: ([127, 0, 0, 1], Port::of(5060)),
        domain,
        salt,
        workers: Within::of(2),
        stop_after: Within::of(0),
        journal_steps: Within::of(1),
        journal_bytes: Within::of(1),
        epoch_steps: Within::of(0),
        journal_parts: false,
        reuse: false,
        recording: None,
        hosts: List::new(alloc),
        app,
    })
}

fn tuples(alloc: Global) -> Result<List<Tuple>, NoMemory>
    ensures { IfOk result (λ tuples. length tuples ≡ 1) }
{
    let subscriber = Text::from_slice(alloc, b"DAR:From")?;
    let mut tuples = List::new(alloc);
    tuples.push(Tuple {
        app: 7,
        subscriber,
        region: Region::Neutral,
        route: None,
        modifier: Modifier::NoRoute,
    })?;
    Ok(tuples)
}

#[tactic(auto, unfolding(sc_terms::specs::RoutingTables::AreMethodLists, sc_terms::specs::RoutingTables::is_listed, sc_tokens::specs::Tokens::is_token, sc_tokens::specs::Tokens::is_token_byte, sc_tokens::specs::Hosts::begins))]
fn table(alloc: Global) -> Result<Dar, NoMemory> {
    let method = Text::from_slice(alloc, b"OPTIONS")?;
    let tuples = tuples(alloc)?;
    let mut lists = List::new(alloc);
    lists.push(MethodList { method, tuples })?;
    Ok(Dar { lists })
}

// The host that the request goes to by this directive; None where it goes nowhere.
fn host(
    alloc: Global,
    message: &Message,
    directive: Directive,
    state: Option<u32>,
) -> Result<Option<u32>, NoMemory> {
    let config = settings(alloc)?;
    let dar = table(alloc)?;
    let request = match message {
        Message::Request(request) => request.get(),
        Message::Response(_) => return Ok(None),
    };
    let choice = next(
        alloc,
        &config,
        &dar,
        request,
        Region::Neutral,
        directive,
        state,
    )?;
    let host = match &choice {
        Choice::App { host, .. } => Some(*host),
        _ => None,
    };
    choice.discard();
    Ok(host)
}

#[test]
fn chooses(rt: HostRuntime) -> Result<(), Fail> {
    let alloc = rt.alloc();
    let message = read_message(alloc, options())?;
    let begun = host(alloc, &message, Directive::New, None);
    let ended = host(alloc, &message, Directive::Continue, Some(1));
    message.discard();
    assert!(rt; begun? == Some(7));
    assert!(rt; ended? == None);
    Ok(())
}
