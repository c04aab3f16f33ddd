//! The application that makes a request of its own.

ghost use Rattle.std.specs.Prelude.{◌≡◌, ◌+◌, ◌<◌, [], false, IfOk, OnOk};
ghost use Rattle.sc_terms.specs.declared.charters.Charter.{Charter};
ghost use Rattle.sc_hosts.specs.Scripting.{Make, only, reply, then_make, uri_param, with_number};
ghost use Rattle.sc_hosts.specs.Charters.{dial_ask, dial_script, plain_address};
ghost use Rattle.sc_hosts.specs.RefusalParts.{MOST_CALLS};
ghost use Rattle.sc_hosts.specs.Words.{ok, options};
ghost use Rattle.sc_turn.specs.Working.{play_of};
ghost use Rattle.sc_apps.specs.Scripted.{IsPlayed, dial_from, dial_to};

use crate::drafting::{create_request, draft_of, send};
use crate::ending::ended;
use crate::reading::{memory_of, shown, uri_param};
use crate::replies::reply_first_200;
use sc_servlets::SipServlet;
use sc_terms::{Ask, Call, CallAnswer, Charter, End, Event};
use sc_turn::Turn;
use sc_value::{Address, CloneIn, Directive, List, NoMemory, ReqId, Text, Uri};
use std::alloc::Global;

/// Answers the request that began the application session 200 `OK`, and then sends an OPTIONS of
/// its own (JSR 289 section 10.1) from the URI of its first parameter to that of its second, in a
/// SipSession of its own. The router is asked from the beginning, as for a request from outside
/// (JSR 289 section 15.2.2). Where one of both is missing or no URI, it sends nothing. At all other
/// events it makes no call.
#[derive(Clone, Copy, Debug)]
pub struct Dials;

impl SipServlet for Dials {
    ghost stated = { λ _. Charter.Dial };

    fn charter(&self) -> Charter {
        Charter::Dial
    }

    #[tactic(auto, unfolding(sc_servlets::specs::Brought::Promises, sc_hosts::specs::Bringing::servlet_script), using(crate::proofs::Playing::keeps))]
    fn turn(&self, t: &mut Turn, e: &Event) -> End {
        ended(dial(t, e))
    }
}

#[tactic(auto, unfolding(sc_hosts::specs::Charters::dial_script, crate::specs::Scripted::dial_from, crate::specs::Scripted::dial_to), using(crate::proofs::Playing::played_done))]
fn dial(t: &mut Turn, e: &Event) -> Result<(), NoMemory>
    requires calls { t.old.calls ≡ [] }
    requires memory { t.old.starved ≡ false }
    ensures same { t.new.shown ≡ t.old.shown }
    ensures played { OnOk result (IsPlayed (dial_script t.old.shown e.now) t.old t.new) }
{
    match e {
        Event::Initial { req, .. } => answer_and_dial_from(t, *req),
        _ => Ok(()),
    }
}

fn answer_and_dial_from(t: &mut Turn, req: ReqId) -> Result<(), NoMemory>
    requires calls { t.old.calls ≡ [] }
    requires memory { t.old.starved ≡ false }
    ensures same { t.new.shown ≡ t.old.shown }
    ensures played { OnOk result
        (IsPlayed
        (then_make (reply req 200 ok)
        (dial_from (uri_param t.old.shown 0) (uri_param t.old.shown 1))) t.old t.new) }
{
    let from = uri_param(memory_of(t), shown(t), 0)?;
    answer_and_dial_to(t, req, &from)
}

#[tactic(auto, using(crate::proofs::Playing::begun_room))]
fn answer_and_dial_to(t: &mut Turn, req: ReqId, from: &Option<Uri>) -> Result<(), NoMemory>
    requires calls { t.old.calls ≡ [] }
    requires memory { t.old.starved ≡ false }
    ensures same { t.new.shown ≡ t.old.shown }
    ensures played { OnOk result
        (IsPlayed (then_make (reply req 200 ok) (dial_from from.now (uri_param t.old.shown 1)))
        t.old t.new) }
{
    let to = uri_param(memory_of(t), shown(t), 1)?;
    answer_and_dial(t, req, from, &to)
}

#[tactic(auto, using(crate::proofs::Playing::played_then))]
fn answer_and_dial(
    t: &mut Turn,
    req: ReqId,
    from: &Option<Uri>,
    to: &Option<Uri>,
) -> Result<(), NoMemory>
    requires { (play_of t.old).listed + 2 < MOST_CALLS }
    ensures same { t.new.shown ≡ t.old.shown }
    ensures played { OnOk result
        (IsPlayed (then_make (reply req 200 ok) (dial_from from.now to.now)) t.old t.new) }
{
    reply_first_200(t, req)?;
    dial_from(t, from, to)
}

#[tactic(auto, unfolding(crate::specs::Scripted::dial_from, sc_hosts::specs::Scripting::where_some), using(crate::proofs::Playing::played_done))]
fn dial_from(t: &mut Turn, from: &Option<Uri>, to: &Option<Uri>) -> Result<(), NoMemory>
    requires { (play_of t.old).listed + 1 < MOST_CALLS }
    ensures same { t.new.shown ≡ t.old.shown }
    ensures played { OnOk result (IsPlayed (dial_from from.now to.now) t.old t.new) }
{
    match from {
        Some(from) => dial_to(t, from, to),
        None => Ok(()),
    }
}

#[tactic(auto, unfolding(crate::specs::Scripted::dial_to, sc_hosts::specs::Scripting::where_some), using(crate::proofs::Playing::played_done))]
fn dial_to(t: &mut Turn, from: &Uri, to: &Option<Uri>) -> Result<(), NoMemory>
    requires { (play_of t.old).listed + 1 < MOST_CALLS }
    ensures same { t.new.shown ≡ t.old.shown }
    ensures played { OnOk result (IsPlayed (dial_to from.now to.now) t.old t.new) }
{
    match to {
        Some(to) => ask_and_send(t, from, to),
        None => Ok(()),
    }
}

#[tactic(auto, using(crate::proofs::Playing::played_make))]
fn ask_and_send(t: &mut Turn, from: &Uri, to: &Uri) -> Result<(), NoMemory>
    requires { (play_of t.old).listed + 1 < MOST_CALLS }
    ensures same { t.new.shown ≡ t.old.shown }
    ensures played { OnOk result
        (IsPlayed
        (Make (Call.CreateRequest (dial_ask from.now to.now))
        (with_number (λ draft. only (Call.Send draft)))) t.old t.new) }
{
    let ask = dial_ask(memory_of(t), from, to)?;
    let answer = create_request(t, ask)?;
    send_made(t, answer)
}

#[tactic(auto, unfolding(sc_hosts::specs::Scripting::with_number), using(crate::proofs::Playing::played_done))]
fn send_made(t: &mut Turn, answer: CallAnswer) -> Result<(), NoMemory>
    requires { (play_of t.old).listed < MOST_CALLS }
    ensures same { t.new.shown ≡ t.old.shown }
    ensures played { OnOk result
        (IsPlayed (with_number (λ draft. only (Call.Send draft)) answer) t.old t.new) }
{
    match answer {
        CallAnswer::Number(draft) => send_draft(t, draft),
        CallAnswer::Fine | CallAnswer::Refused(_) => Ok(()),
    }
}

#[tactic(auto, using(crate::proofs::Playing::played_only))]
fn send_draft(t: &mut Turn, draft: u64) -> Result<(), NoMemory>
    requires { (play_of t.old).listed < MOST_CALLS }
    ensures same { t.new.shown ≡ t.old.shown }
    ensures played { OnOk result (IsPlayed (only (Call.Send draft)) t.old t.new) }
{
    let draft = draft_of(draft)?;
    send(t, draft)?;
    Ok(())
}

#[tactic(auto, unfolding(sc_hosts::specs::Charters::plain_address, sc_tokens::specs::HeaderTokens::IsDisplay, sc_value::specs::ParamRules::AreHeaderParams))]
fn plain_address(alloc: Global, uri: &Uri) -> Result<Address, NoMemory>
    ensures { IfOk result (λ address. address ≡ plain_address uri.now) }
{
    let uri = uri.clone_in(alloc)?;
    uri.known();
    Ok(Address {
        display: None,
        uri,
        params: List::new(alloc),
    })
}

#[tactic(auto, unfolding(sc_hosts::specs::Words::options))]
fn options(alloc: Global) -> Result<Text, NoMemory>
    ensures { IfOk result (λ text. text ≡ options) }
{
    Text::from_slice(alloc, b"OPTIONS")
}

/// An OPTIONS from one URI to another, with no fields, no Contact and no body.
#[tactic(auto, unfolding(sc_hosts::specs::Charters::dial_ask))]
fn dial_ask(alloc: Global, from: &Uri, to: &Uri) -> Result<Ask, NoMemory>
    ensures { IfOk result (λ ask. ask ≡ dial_ask from.now to.now) }
{
    let method = options(alloc)?;
    let from = plain_address(alloc, from)?;
    let uri = to.clone_in(alloc)?;
    let to = plain_address(alloc, to)?;
    Ok(Ask {
        method,
        uri,
        from,
        to,
        fields: List::new(alloc),
        contact: List::new(alloc),
        body: Text::new(alloc),
        directive: Directive::New,
        origin: None,
    })
}
