//! Looking up what an application session knows of a request.

ghost use Rattle.std.specs.Prelude.{◌≡◌};
ghost use Rattle.std.specs.List.{find};
ghost use Rattle.std.specs.Option.{option_copied};
ghost use Rattle.sc_hosts.specs.Looking.{same_request};
ghost use Rattle.sc_hosts.specs.Preparing.{kept_of, own_tag_of, proxy_of};

use sc_looking::session_in;
use sc_pages::{Probe, Scope};
use sc_state::{Kept, Known, Proxy};
use sc_terms::View;
use sc_value::{ReqId, SessId};

// Whether a kept request has this number.
#[derive(Clone, Copy)]
struct KeptNumbered {
    req: ReqId,
}

impl Probe<Kept> for KeptNumbered {
    ghost passes = { λ p kept. same_request kept.id p.req };

    fn passes(&self, kept: &Kept) -> bool {
        kept.id.0 == self.req.0
    }
}

/// The request of this number, as it is kept.
pub fn kept_of(known: &Known, req: ReqId) -> Option<&Kept>
    ensures { option_copied result ≡ kept_of known.entry.now req }
{
    known.kept.find(Scope::Number(req.0), &KeptNumbered { req })
}

/// Whether a proxied request has this number.
#[derive(Clone, Copy)]
pub struct ProxyNumbered {
    pub req: ReqId,
}

impl Probe<Proxy> for ProxyNumbered {
    ghost passes = { λ p proxy. same_request proxy.req p.req };

    fn passes(&self, proxy: &Proxy) -> bool {
        proxy.req.0 == self.req.0
    }
}

/// The proxied request of this number.
#[tactic(auto, unfolding(sc_hosts::specs::Preparing::proxy_of))]
pub fn proxy_of(known: &Known, req: ReqId) -> Option<&Proxy>
    ensures { option_copied result ≡ proxy_of known.entry.now req }
{
    known
        .proxies
        .find(Scope::Number(req.0), &ProxyNumbered { req })
}

/// The own tag of a SipSession, none where the SipSession was never there.
#[tactic(auto, unfolding(sc_hosts::specs::Preparing::own_tag_of))]
pub fn own_tag_of(view: &View, sess: SessId) -> &[u8]
    ensures { result.now ≡ own_tag_of view.entry.now sess }
{
    match session_in(view, sess) {
        Some(session) => session.own_tag.as_bytes(),
        None => b"",
    }
}
