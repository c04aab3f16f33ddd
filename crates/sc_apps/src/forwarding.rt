//! The applications that proxy each request to one target.

ghost use Rattle.std.specs.Prelude.{◌≡◌, [], true, false, unwrap_or, IfOk, OnOk};
ghost use Rattle.sc_terms.specs.declared.charters.Charter.{Charter};
ghost use Rattle.sc_hosts.specs.Charters.{forward_script};
ghost use Rattle.sc_hosts.specs.Scripting.{uri_param};
ghost use Rattle.sc_apps.specs.Scripted.{IsPlayed};

use crate::ending::ended;
use crate::proxying::proxy_one;
use crate::reading::{memory_of, shown, uri_param};
use sc_servlets::SipServlet;
use sc_terms::{Charter, End, Event, View};
use sc_turn::Turn;
use sc_value::{CloneIn, NoMemory, Request, Uri};
use std::alloc::Global;

/// Proxies the request that began the application session (JSR 289 section 10.2) to the URI of its
/// first parameter. Where that is missing or no URI, it passes the request on to its own
/// Request-URI. The application doesn't stay on the path of later requests. A request whose
/// Max-Forwards is 0 it answers 483 `Too Many Hops`. At all other events it makes no call.
#[derive(Clone, Copy, Debug)]
pub struct Forwards;

/// As [`Forwards`], but it stays on the path of later requests: it records its route (RFC 3261
/// section 16.6).
#[derive(Clone, Copy, Debug)]
pub struct Records;

impl SipServlet for Forwards {
    ghost stated = { λ _. Charter.Forward };

    fn charter(&self) -> Charter {
        Charter::Forward
    }

    #[tactic(auto, unfolding(sc_servlets::specs::Brought::Promises, sc_hosts::specs::Bringing::servlet_script), using(crate::proofs::Playing::keeps))]
    fn turn(&self, t: &mut Turn, e: &Event) -> End {
        ended(forward(t, e, false))
    }
}

impl SipServlet for Records {
    ghost stated = { λ _. Charter.Recorder };

    fn charter(&self) -> Charter {
        Charter::Recorder
    }

    #[tactic(auto, unfolding(sc_servlets::specs::Brought::Promises, sc_hosts::specs::Bringing::servlet_script), using(crate::proofs::Playing::keeps))]
    fn turn(&self, t: &mut Turn, e: &Event) -> End {
        ended(forward(t, e, true))
    }
}

#[tactic(auto, unfolding(sc_hosts::specs::Charters::forward_script), using(crate::proofs::Playing::played_done, crate::proofs::Playing::begun_room))]
fn forward(t: &mut Turn, e: &Event, record_route: bool) -> Result<(), NoMemory>
    requires calls { t.old.calls ≡ [] }
    requires memory { t.old.starved ≡ false }
    ensures same { t.new.shown ≡ t.old.shown }
    ensures played { OnOk result
        (IsPlayed (forward_script record_route t.old.shown e.now) t.old t.new) }
{
    match e {
        Event::Initial { req, request, .. } => {
            let target = target_of(memory_of(t), shown(t), request.get())?;
            proxy_one(t, *req, target, record_route)
        }
        _ => Ok(()),
    }
}

/// The URI to which a request is forwarded.
fn target_of(alloc: Global, view: &View, request: &Request) -> Result<Uri, NoMemory>
    ensures { IfOk result (λ uri. uri ≡ unwrap_or (uri_param view.entry.now 0) request.now.uri) }
{
    match uri_param(alloc, view, 0)? {
        Some(uri) => Ok(uri),
        None => request.uri.clone_in(alloc),
    }
}
