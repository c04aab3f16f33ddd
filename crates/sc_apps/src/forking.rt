//! The application that tries several targets at once.

ghost use Rattle.std.specs.Prelude.{◌≡◌, ◌+◌, ◌<◌, ◌++◌, [], true, false, filter_map, flat_map, option_to_list, IfOk, OnOk};
ghost use Rattle.sc_terms.specs.declared.charters.Charter.{Charter};
ghost use Rattle.sc_hosts.specs.Scripting.{Make, is_bad_text, readable};
ghost use Rattle.sc_hosts.specs.Charters.{fork_script, proxy_options, without_targets};
ghost use Rattle.sc_hosts.specs.RefusalParts.{MOST_CALLS};
ghost use Rattle.sc_turn.specs.Working.{play_of};
ghost use Rattle.sc_apps.specs.Scripted.{IsPlayed, uris_of};

use crate::calling::proxy_to;
use crate::ending::ended;
use crate::proxying::{proxy_options, without_hops};
use crate::reading::{memory_of, readable, shown};
use crate::replies::reply_500;
use sc_servlets::SipServlet;
use sc_terms::{Call, CallAnswer, Charter, End, Event, Refusal};
use sc_turn::Turn;
use sc_value::{List, NoMemory, ReqId, Text, Uri};
use std::alloc::Global;

/// Proxies the request that began the application session to the URIs of all its parameters at once
/// (JSR 289 section 10.2), and stays on the path of later requests. A parameter that is no URI it
/// passes over; where none is left, it answers 500 `Server Internal Error`. A request whose
/// Max-Forwards is 0 it answers 483 `Too Many Hops`. At all other events it makes no call.
#[derive(Clone, Copy, Debug)]
pub struct Forks;

impl SipServlet for Forks {
    ghost stated = { λ _. Charter.Fork };

    fn charter(&self) -> Charter {
        Charter::Fork
    }

    #[tactic(auto, unfolding(sc_servlets::specs::Brought::Promises, sc_hosts::specs::Bringing::servlet_script), using(crate::proofs::Playing::keeps))]
    fn turn(&self, t: &mut Turn, e: &Event) -> End {
        ended(fork(t, e))
    }
}

#[tactic(auto, unfolding(sc_hosts::specs::Charters::fork_script), using(crate::proofs::Playing::played_done, crate::proofs::Playing::begun_room))]
fn fork(t: &mut Turn, e: &Event) -> Result<(), NoMemory>
    requires calls { t.old.calls ≡ [] }
    requires memory { t.old.starved ≡ false }
    ensures same { t.new.shown ≡ t.old.shown }
    ensures played { OnOk result (IsPlayed (fork_script t.old.shown e.now) t.old t.new) }
{
    match e {
        Event::Initial { req, .. } => {
            let targets = readable_in(memory_of(t), shown(t).params.as_slice())?;
            proxy_all(t, *req, targets)
        }
        _ => Ok(()),
    }
}

#[tactic(auto, using(crate::proofs::Playing::played_make))]
fn proxy_all(t: &mut Turn, req: ReqId, targets: List<Uri>) -> Result<(), NoMemory>
    requires { (play_of t.old).listed + 1 < MOST_CALLS }
    ensures same { t.new.shown ≡ t.old.shown }
    ensures played { OnOk result
        (IsPlayed (Make (Call.ProxyTo req targets (proxy_options true)) (without_targets req)) t.old
        t.new) }
{
    let answer = proxy_to(t, req, targets, proxy_options(true))?;
    without_targets(t, req, answer)
}

#[tactic(auto, unfolding(sc_hosts::specs::Scripting::is_bad_text))]
fn is_bad_text(answer: CallAnswer) -> bool
    ensures { result ≡ is_bad_text answer }
{
    match answer {
        CallAnswer::Refused(Refusal::BadText(_)) => true,
        _ => false,
    }
}

/// Answers 500 where there was no target, and 483 where Max-Forwards is 0.
#[tactic(auto, unfolding(sc_hosts::specs::Charters::without_targets))]
fn without_targets(t: &mut Turn, req: ReqId, answer: CallAnswer) -> Result<(), NoMemory>
    requires { (play_of t.old).listed < MOST_CALLS }
    ensures same { t.new.shown ≡ t.old.shown }
    ensures played { OnOk result (IsPlayed (without_targets req answer) t.old t.new) }
{
    if is_bad_text(answer) {
        return reply_500(t, req);
    }
    without_hops(t, req, answer)
}

fn add_some(uris: &mut List<Uri>, uri: Option<Uri>) -> Result<(), NoMemory>
    ensures { OnOk result (uris.new ≡ uris.old ++ option_to_list uri) }
{
    match uri {
        Some(uri) => {
            uris.push(uri)?;
            Ok(())
        }
        None => Ok(()),
    }
}

#[tactic(auto, unfolding(crate::specs::Scripted::uris_of))]
fn add_readable(alloc: Global, text: &Text, uris: &mut List<Uri>) -> Result<(), NoMemory>
    ensures { OnOk result (uris.new ≡ uris.old ++ uris_of text.now) }
{
    let uri = readable(alloc, text.as_bytes())?;
    add_some(uris, uri)
}

fn all_readable(alloc: Global, texts: &[Text]) -> Result<List<Uri>, NoMemory>
    ensures { IfOk result (λ uris. uris ≡ flat_map uris_of texts.now) }
{
    let mut uris = List::new(alloc);
    for text in texts {
        add_readable(alloc, text, &mut uris)?;
    }
    Ok(uris)
}

/// The URIs of those texts that are such.
#[tactic(auto, using(crate::proofs::Readable::all_readable))]
fn readable_in(alloc: Global, texts: &[Text]) -> Result<List<Uri>, NoMemory>
    ensures { IfOk result (λ uris. uris ≡ filter_map readable texts.now) }
{
    all_readable(alloc, texts)
}
