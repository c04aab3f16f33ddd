//! The application that turns callers away.

ghost use Rattle.std.specs.Prelude.{◌≡◌, [], ◌∷◌, false, OnOk, if◌then◌else◌};
ghost use Rattle.std.specs.List.{list_any};
ghost use Rattle.std.specs.Option.{option_copied};
ghost use Rattle.sc_tokens.specs.Names.{same_bytes};
ghost use Rattle.sc_terms.specs.declared.charters.Charter.{Charter};
ghost use Rattle.sc_hosts.specs.Charters.{block_script, is_blocked, proxy_script, user_of};
ghost use Rattle.sc_hosts.specs.Scripting.{only, reply};
ghost use Rattle.sc_hosts.specs.Words.{forbidden};
ghost use Rattle.sc_apps.specs.Scripted.{IsPlayed};

use crate::ending::ended;
use crate::proxying::proxy_one;
use crate::reading::{memory_of, shown};
use crate::replies::reply_403;
use sc_servlets::SipServlet;
use sc_terms::{Charter, End, Event, View};
use sc_turn::Turn;
use sc_value::{CloneIn, NoMemory, ReqId, Request, Text, Uri};

/// Answers the request that began the application session 403 `Forbidden` where the user in its
/// From is one of the parameters, byte for byte. Every other request it proxies on to its
/// Request-URI (JSR 289 section 10.2), off the path of later requests; one whose Max-Forwards is 0
/// it answers 483 `Too Many Hops`. With no parameters nobody is blocked, nor is a From without a
/// user. At all other events it makes no call.
#[derive(Clone, Copy, Debug)]
pub struct Blocks;

impl SipServlet for Blocks {
    ghost stated = { λ _. Charter.Block };

    fn charter(&self) -> Charter {
        Charter::Block
    }

    #[tactic(auto, unfolding(sc_servlets::specs::Brought::Promises, sc_hosts::specs::Bringing::servlet_script), using(crate::proofs::Playing::keeps))]
    fn turn(&self, t: &mut Turn, e: &Event) -> End {
        ended(block(t, e))
    }
}

#[tactic(auto, unfolding(sc_hosts::specs::Charters::block_script), using(crate::proofs::Playing::played_done))]
fn block(t: &mut Turn, e: &Event) -> Result<(), NoMemory>
    requires calls { t.old.calls ≡ [] }
    requires memory { t.old.starved ≡ false }
    ensures same { t.new.shown ≡ t.old.shown }
    ensures played { OnOk result (IsPlayed (block_script t.old.shown e.now) t.old t.new) }
{
    match e {
        Event::Initial { req, request, .. } => block_initial(t, *req, request.get()),
        _ => Ok(()),
    }
}

#[tactic(auto, using(crate::proofs::Playing::begun_room))]
fn block_initial(t: &mut Turn, req: ReqId, request: &Request) -> Result<(), NoMemory>
    requires calls { t.old.calls ≡ [] }
    requires memory { t.old.starved ≡ false }
    ensures same { t.new.shown ≡ t.old.shown }
    ensures played { OnOk result
        (IsPlayed
        (if is_blocked t.old.shown request.now then only (reply req 403 forbidden)
        else proxy_script req (request.now.uri ∷ []) false) t.old t.new) }
{
    if is_blocked(shown(t), request) {
        return reply_403(t, req);
    }
    let target = request.uri.clone_in(memory_of(t))?;
    proxy_one(t, req, target, false)
}

/// The user of a URI.
#[tactic(auto, unfolding(sc_hosts::specs::Charters::user_of))]
fn user_of(uri: &Uri) -> Option<&Text>
    ensures { option_copied result ≡ user_of uri.now }
{
    match uri {
        Uri::Sip(uri) => uri.user.as_ref(),
        Uri::Other(_) => None,
    }
}

fn is_among(texts: &[Text], user: &Text) -> bool
    ensures { result ≡ list_any (same_bytes user.now) texts.now }
{
    texts.iter().any(|text| user.as_bytes() == text.as_bytes())
}

/// Whether the user in a request's From is one of the parameters.
#[tactic(auto, unfolding(sc_hosts::specs::Charters::is_blocked))]
fn is_blocked(view: &View, request: &Request) -> bool
    ensures { result ≡ is_blocked view.entry.now request.now }
{
    match user_of(&request.head.from.uri) {
        Some(user) => is_among(view.params.as_slice(), user),
        None => false,
    }
}
