//! Refusals of `proxy_to` and `proxy_cancel`.

ghost use Rattle.std.specs.Prelude.{◌≡◌, ◌∷◌, [], ◌+◌, ◌==◌, ◌||◌, ◌&&◌, not, nat_lt, Some, None, is_some, if◌then◌else◌};
ghost use Rattle.std.specs.Option.{option_or};
ghost use Rattle.sc_hosts.specs.Looking.{request_in, session_in};
ghost use Rattle.sc_terms.specs.declared.calls.Refusal.TheVariants.{NotYours, NotInitial, AlreadyAnswered, AlreadyProxy, NoHops, BadText, Limit};
ghost use Rattle.sc_hosts.specs.Refusals.{branch_count, is_begun, state_refusal, proxy_refusal, proxy_cancel_refusal};
ghost use Rattle.sc_hosts.specs.RefusalParts.{first_of};

use crate::sums::passes_branches;
use sc_looking::{is_begun, request_in, session_in};
use sc_state::Play;
use sc_terms::{ProxyOptions, Refusal, RequestView, View};
use sc_value::{ReqId, SessId};

#[tactic(auto, unfolding(sc_hosts::specs::Refusals::state_refusal))]
fn state_refusal(view: &View, sess: SessId) -> Option<Refusal>
    ensures { result ≡ state_refusal (session_in view.entry.now sess) }
{
    match session_in(view, sess) {
        Some(session) => Some(Refusal::WrongState(session.state)),
        None => None,
    }
}

// A request that isn't proxied yet has a SipSession in the state INITIAL.
fn begun_refusal(view: &View, request: &RequestView) -> Option<Refusal>
    ensures { result
        ≡ if◌then◌else◌
        (not request.now.proxied && is_begun (session_in view.entry.now request.now.sess))
        (state_refusal (session_in view.entry.now request.now.sess)) None }
{
    if !request.proxied && is_begun(view, request.sess) {
        return state_refusal(view, request.sess);
    }
    None
}

// The refusals of a request that can't be proxied, before its targets are looked at.
#[tactic(auto, unfolding(sc_hosts::specs::RefusalParts::first_of))]
fn unproxied(request: &RequestView) -> Option<Refusal>
    ensures { result
        ≡ first_of
        ((not request.now.received, NotYours) ∷ (not request.now.initial, NotInitial)
        ∷ (is_some request.now.answered && not request.now.proxied, AlreadyAnswered)
        ∷ (is_some request.now.answered, AlreadyProxy) ∷ []) }
{
    if !request.received {
        return Some(Refusal::NotYours);
    }
    if !request.initial {
        return Some(Refusal::NotInitial);
    }
    if request.answered.is_none() {
        return None;
    }
    if request.proxied {
        return Some(Refusal::AlreadyProxy);
    }
    Some(Refusal::AlreadyAnswered)
}

// The refusals of so many targets with these options.
#[tactic(auto, unfolding(sc_hosts::specs::RefusalParts::first_of))]
fn targets_refusal(
    view: &View,
    request: &RequestView,
    count: usize,
    options: ProxyOptions,
) -> Option<Refusal>
    ensures { result
        ≡ first_of
        ((request.now.hops == 0, NoHops) ∷ (count == 0, BadText 0)
        ∷ (options.timeout == 0 || nat_lt 3600 options.timeout, BadText 1)
        ∷ (nat_lt 32 (branch_count view.entry.now + count), Limit 32) ∷ []) }
{
    if request.hops == 0 {
        return Some(Refusal::NoHops);
    }
    if count == 0 {
        return Some(Refusal::BadText(0));
    }
    if options.timeout == 0 || 3600 < options.timeout {
        return Some(Refusal::BadText(1));
    }
    if passes_branches(view, count) {
        return Some(Refusal::Limit(32));
    }
    None
}

fn or_else(first: Option<Refusal>, second: Option<Refusal>) -> Option<Refusal>
    ensures { result ≡ option_or first second }
{
    first.or(second)
}

#[tactic(auto, unfolding(sc_hosts::specs::Refusals::proxy_refusal))]
fn proxied_refusal(
    play: &Play,
    request: &RequestView,
    count: usize,
    options: ProxyOptions,
) -> Option<Refusal>
    ensures { result ≡ proxy_refusal play.now (Some request.now) count options }
{
    or_else(
        unproxied(request),
        or_else(
            begun_refusal(&play.view, request),
            targets_refusal(&play.view, request, count, options),
        ),
    )
}

/// The refusal of so many targets for a request, with these options.
#[tactic(auto, unfolding(sc_hosts::specs::Refusals::proxy_refusal))]
pub fn proxy_refusal(
    play: &Play,
    req: ReqId,
    count: usize,
    options: ProxyOptions,
) -> Option<Refusal>
    ensures { result ≡ proxy_refusal play.now (request_in play.now.view req) count options }
{
    match request_in(&play.view, req) {
        Some(request) => proxied_refusal(play, request, count, options),
        None => Some(Refusal::NotYours),
    }
}

#[tactic(auto, unfolding(sc_hosts::specs::Refusals::proxy_cancel_refusal, sc_hosts::specs::RefusalParts::first_of))]
fn stopped(request: &RequestView) -> Option<Refusal>
    ensures { result ≡ proxy_cancel_refusal (Some request.now) }
{
    if !request.proxied {
        return Some(Refusal::NotSent);
    }
    if request.answered.is_some() {
        return Some(Refusal::AlreadyAnswered);
    }
    None
}

/// The refusal to cancel the branches of a request.
#[tactic(auto, unfolding(sc_hosts::specs::Refusals::proxy_cancel_refusal))]
pub fn proxy_cancel_refusal(view: &View, req: ReqId) -> Option<Refusal>
    ensures { result ≡ proxy_cancel_refusal (request_in view.entry.now req) }
{
    match request_in(view, req) {
        Some(request) => stopped(request),
        None => Some(Refusal::NotYours),
    }
}
