//! What a call names: SipSessions, by themselves, by a request or by a draft.

ghost use Rattle.std.specs.Prelude.{◌≡◌, ◌∷◌, [], None, Some};
ghost use Rattle.sc_hosts.specs.RefusalParts.{draft_in, known_session, name_refusal, of_origin, session_of_draft, session_of_request, sessions_in_call};

use sc_looking::{draft_in, is_gone_in, request_in, session_in};
use sc_state::Play;
use sc_terms::{Call, Refusal, Target, View};
use sc_value::{ReqId, SessId};

#[tactic(auto, unfolding(sc_hosts::specs::RefusalParts::session_of_request))]
fn session_of_request(play: &Play, req: ReqId) -> Option<SessId>
    ensures { result ≡ session_of_request play.now req }
{
    match request_in(&play.view, req) {
        Some(request) => Some(request.sess),
        None => None,
    }
}

#[tactic(auto, unfolding(sc_hosts::specs::RefusalParts::session_of_draft))]
fn session_of_draft(play: &Play, draft: u32) -> Option<SessId>
    ensures { result ≡ session_of_draft play.now draft }
{
    match draft_in(play, draft) {
        Some(draft) => Some(draft.sess),
        None => None,
    }
}

#[tactic(auto, unfolding(sc_hosts::specs::RefusalParts::known_session))]
fn known_session(play: &Play, sess: SessId) -> Option<SessId>
    ensures { result ≡ known_session play.now sess }
{
    match session_in(&play.view, sess) {
        Some(session) => Some(session.id),
        None => None,
    }
}

// One name: it names something, whose SipSession is there.
#[tactic(auto, unfolding(sc_hosts::specs::RefusalParts::name_refusal))]
fn name_refusal(view: &View, name: Option<SessId>) -> Option<Refusal>
    ensures { result ≡ name_refusal view.entry.now (name ∷ []) }
{
    match name {
        None => Some(Refusal::NotYours),
        Some(sess) => {
            if is_gone_in(view, sess) {
                return Some(Refusal::Invalidated);
            }
            None
        }
    }
}

// Two names: both name something, and then both SipSessions are there.
#[tactic(auto, unfolding(sc_hosts::specs::RefusalParts::name_refusal))]
fn names_refusal(view: &View, first: Option<SessId>, second: Option<SessId>) -> Option<Refusal>
    ensures { result ≡ name_refusal view.entry.now (first ∷ second ∷ []) }
{
    let (Some(a), Some(b)) = (first, second) else {
        return Some(Refusal::NotYours);
    };
    if is_gone_in(view, a) || is_gone_in(view, b) {
        return Some(Refusal::Invalidated);
    }
    None
}

#[tactic(auto, unfolding(sc_hosts::specs::RefusalParts::of_origin, sc_hosts::specs::RefusalParts::name_refusal))]
fn origin_refusal(play: &Play, origin: Option<ReqId>) -> Option<Refusal>
    ensures { result ≡ name_refusal play.now.view (of_origin play.now origin) }
{
    match origin {
        Some(req) => name_refusal(&play.view, session_of_request(play, req)),
        None => None,
    }
}

#[tactic(auto, unfolding(sc_hosts::specs::RefusalParts::of_origin))]
fn directed_refusal(play: &Play, draft: u32, origin: Option<ReqId>) -> Option<Refusal>
    ensures { result
        ≡ name_refusal play.now.view (session_of_draft play.now draft ∷ of_origin play.now origin) }
{
    match origin {
        Some(req) => names_refusal(
            &play.view,
            session_of_draft(play, draft),
            session_of_request(play, req),
        ),
        None => name_refusal(&play.view, session_of_draft(play, draft)),
    }
}

fn request_named(play: &Play, req: ReqId) -> Option<Refusal>
    ensures { result ≡ name_refusal play.now.view (session_of_request play.now req ∷ []) }
{
    name_refusal(&play.view, session_of_request(play, req))
}

fn session_named(play: &Play, sess: SessId) -> Option<Refusal>
    ensures { result ≡ name_refusal play.now.view (known_session play.now sess ∷ []) }
{
    name_refusal(&play.view, known_session(play, sess))
}

fn draft_named(play: &Play, draft: u32) -> Option<Refusal>
    ensures { result ≡ name_refusal play.now.view (session_of_draft play.now draft ∷ []) }
{
    name_refusal(&play.view, session_of_draft(play, draft))
}

// The names of a call that makes a request, or does something with a draft or a SipSession.
#[tactic(auto, unfolding(sc_hosts::specs::RefusalParts::sessions_in_call, sc_hosts::specs::RefusalParts::name_refusal))]
pub fn named_refusal(play: &Play, call: &Call) -> Option<Refusal>
    ensures { result ≡ name_refusal play.now.view (sessions_in_call play.now call.now) }
{
    match call {
        Call::Respond { req, .. }
        | Call::B2bCreate { req, .. }
        | Call::Cancel { req }
        | Call::ProxyTo { req, .. }
        | Call::ProxyCancel { req } => request_named(play, *req),
        Call::CreateRequest { ask } => origin_refusal(play, ask.origin),
        Call::SetDirective { draft, origin, .. } => directed_refusal(play, *draft, *origin),
        Call::Send { draft } | Call::Discard { draft } => draft_named(play, *draft),
        Call::CreateInDialog { sess, .. }
        | Call::Ack { sess, .. }
        | Call::B2bRespond { sess, .. }
        | Call::InvalidateSession { sess } => session_named(play, *sess),
        Call::Link { a, b } => names_refusal(
            &play.view,
            known_session(play, *a),
            known_session(play, *b),
        ),
        Call::Unlink { a } => session_named(play, *a),
        Call::SetReadyFlag {
            target: Target::Session(sess),
            ..
        } => session_named(play, *sess),
        Call::SetReadyFlag {
            target: Target::Application,
            ..
        }
        | Call::StartTimer { .. }
        | Call::CancelTimer { .. }
        | Call::SetAttribute { .. }
        | Call::RemoveAttribute { .. }
        | Call::SetExpires { .. }
        | Call::InvalidateApplication => None,
    }
}
