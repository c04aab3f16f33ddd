//! What the requests of a view tell, and which attributes are set.

ghost use Rattle.std.specs.Prelude.{◌≡◌, ◌&&◌, false};
ghost use Rattle.std.specs.List.{find};
ghost use Rattle.std.specs.Option.{option_copied, option_map_or};
ghost use Rattle.sc_hosts.specs.Looking.{same_request, same_session};
ghost use Rattle.sc_hosts.specs.Refusals.{awaits_ack, begun_by, is_set};

use crate::views::has_session;
use sc_pages::{Probe, Scope};
use sc_terms::{RequestView, View};
use sc_value::{Field, ReqId, SessId};

/// Whether the first request, where there is one, has this number.
pub fn is_first(first: Option<ReqId>, req: ReqId) -> bool
    ensures { result ≡ option_map_or (same_request req) first false }
{
    match first {
        Some(first) => req.0 == first.0,
        None => false,
    }
}

/// Whether a request is a sent INVITE whose 2xx in this SipSession has no ACK.
pub fn awaits_ack(request: &RequestView, sess: SessId) -> bool
    ensures { result ≡ awaits_ack sess request.now }
{
    has_session(request.unacked.as_slice(), sess)
}

/// Whether a request is a sent INVITE whose 2xx in this SipSession has no ACK.
#[derive(Clone, Copy)]
pub struct AwaitingAck {
    pub sess: SessId,
}

impl Probe<RequestView> for AwaitingAck {
    ghost passes = { λ p. awaits_ack p.sess };

    fn passes(&self, request: &RequestView) -> bool {
        awaits_ack(request, self.sess)
    }
}

/// The request of lowest number that is a sent INVITE whose 2xx in this SipSession has no ACK.
#[tactic(auto, using(sc_terms::proofs::RestLaws::awaiting_busy))]
pub fn awaiting(view: &View, sess: SessId) -> Option<&RequestView>
    ensures { option_copied result ≡ find (awaits_ack sess) view.entry.now.requests }
{
    view.requests.find(Scope::Busy, &AwaitingAck { sess })
}

// Whether a request was received and began this SipSession.
#[derive(Clone, Copy)]
struct Beginning {
    sess: SessId,
}

impl Probe<RequestView> for Beginning {
    ghost passes = { λ p request.
        request.received && request.initial && same_session request.sess p.sess };

    fn passes(&self, request: &RequestView) -> bool {
        request.received && request.initial && request.sess.0 == self.sess.0
    }
}

/// The received request that began a SipSession.
#[tactic(auto, unfolding(sc_hosts::specs::Refusals::begun_by), using(sc_terms::proofs::RestLaws::initial_busy))]
pub fn begun_by(view: &View, sess: SessId) -> Option<&RequestView>
    ensures { option_copied result ≡ begun_by view.entry.now sess }
{
    view.requests.find(Scope::Busy, &Beginning { sess })
}

/// Whether a field has this name.
#[tactic(auto, unfolding(sc_hosts::specs::Refusals::is_set))]
pub fn is_set(name: &[u8], fields: &[Field]) -> bool
    ensures { result ≡ is_set name.now fields.now }
{
    fields.iter().any(|field| field.name.as_bytes() == name)
}
