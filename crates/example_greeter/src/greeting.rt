//! The servlet of this program: it greets the callers who are on its list.

ghost use Rattle.std.specs.Prelude.{◌≡◌};
ghost use Rattle.sc_terms.specs.declared.charters.Charter.{Charter};

use sc_apps::{attribute, memory_of, small_number};
use sc_helpers::{number_field, numbered, one};
use sc_servlets::SipServlet;
use sc_terms::{Answer, Charter, End, Event, Refusal};
use sc_turn::Turn;
use sc_value::{List, NoMemory, ReqId, Request, Text, Uri};
use std::alloc::Global;

/// Answers the request that begins its session 200 `OK` where the user in From is one of the
/// parameters, and else 403 `Forbidden`. Each later one but an ACK it answers 200 too. A field
/// `Heard` of a 200 says how many requests of this session were answered so, which an attribute
/// keeps from turn to turn.
#[derive(Clone, Copy, Debug)]
pub struct Greets;

impl SipServlet for Greets {
    ghost stated = { λ _. Charter.Free };

    fn charter(&self) -> Charter {
        Charter::Free
    }

    #[tactic(auto, using(crate::proofs::Freedom::any_turn))]
    fn turn(&self, t: &mut Turn, e: &Event) -> End {
        match e {
            Event::Initial { req, request, .. } => ended(begin(t, *req, request.get())),
            Event::Request { req, request, .. } => ended(go_on(t, *req, request.get())),
            _ => End::Fine,
        }
    }
}

/// How a turn ends: a call that was refused is a fault of this servlet.
fn ended(done: Result<(), Refusal>) -> End {
    match done {
        Ok(()) => End::Fine,
        Err(Refusal::NoMemory) => End::Starved,
        Err(_) => End::Fault,
    }
}

fn begin(t: &mut Turn, req: ReqId, request: &Request) -> Result<(), Refusal>
    ensures same { t.new.shown ≡ t.old.shown }
{
    if is_listed(t.view().params.as_slice(), &request.head.from.uri) {
        return greet(t, req);
    }
    match forbidden(memory_of(t)) {
        Ok(answer) => respond(t, req, answer),
        Err(NoMemory) => Err(Refusal::NoMemory),
    }
}

fn go_on(t: &mut Turn, req: ReqId, request: &Request) -> Result<(), Refusal>
    ensures same { t.new.shown ≡ t.old.shown }
{
    if request.method.as_bytes() == b"ACK".as_slice() {
        return Ok(());
    }
    greet(t, req)
}

/// Whether the user of a URI is one of these.
fn is_listed(users: &[Text], uri: &Uri) -> bool {
    match uri {
        Uri::Sip(uri) => match &uri.user {
            Some(user) => users
                .iter()
                .any(|listed| listed.as_bytes() == user.as_bytes()),
            None => false,
        },
        Uri::Other(_) => false,
    }
}

/// Answers 200, and keeps how many requests were answered so.
fn greet(t: &mut Turn, req: ReqId) -> Result<(), Refusal>
    ensures same { t.new.shown ≡ t.old.shown }
{
    let count = heard(t).saturating_add(1);
    match greeting(memory_of(t), count) {
        Ok(answer) => respond(t, req, answer)?,
        Err(NoMemory) => return Err(Refusal::NoMemory),
    }
    keep(t, count)
}

/// How many requests of this session were answered 200.
fn heard(t: &Turn) -> u32 {
    match attribute(t.view(), b"heard") {
        Some(text) => small_number(text.as_bytes()).unwrap_or(0),
        None => 0,
    }
}

fn keep(t: &mut Turn, count: u32) -> Result<(), Refusal>
    ensures same { t.new.shown ≡ t.old.shown }
{
    let alloc = memory_of(t);
    let (Ok(name), Ok(value)) = (
        Text::from_slice(alloc, b"heard"),
        numbered(alloc, b"", u64::from(count)),
    ) else {
        return Err(Refusal::NoMemory);
    };
    set_attribute(t, name, value)
}

fn greeting(alloc: Global, count: u32) -> Result<Answer, NoMemory> {
    let reason = Text::from_slice(alloc, b"OK")?;
    let field = number_field(alloc, b"Heard", u64::from(count))?;
    let fields = one(alloc, field)?;
    Ok(Answer {
        code: 200,
        reason,
        fields,
        contact: List::new(alloc),
        body: Text::new(alloc),
    })
}

fn forbidden(alloc: Global) -> Result<Answer, NoMemory> {
    let reason = Text::from_slice(alloc, b"Forbidden")?;
    Ok(Answer {
        code: 403,
        reason,
        fields: List::new(alloc),
        contact: List::new(alloc),
        body: Text::new(alloc),
    })
}

/// `respond` of the turn, with what a turn's contract asks: what it was shown stays.
#[tactic(auto, unfolding(sc_turn::specs::Working::Answers), using(sc_apps::proofs::Playing::accepted_same, sc_apps::proofs::Playing::refused_same))]
fn respond(t: &mut Turn, req: ReqId, answer: Answer) -> Result<(), Refusal>
    ensures same { t.new.shown ≡ t.old.shown }
{
    t.respond(req, answer)
}

/// `set_attribute` of the turn.
#[tactic(auto, unfolding(sc_turn::specs::Working::Answers), using(sc_apps::proofs::Playing::accepted_same, sc_apps::proofs::Playing::refused_same))]
fn set_attribute(t: &mut Turn, name: Text, value: Text) -> Result<(), Refusal>
    ensures same { t.new.shown ≡ t.old.shown }
{
    t.set_attribute(name, value)
}
