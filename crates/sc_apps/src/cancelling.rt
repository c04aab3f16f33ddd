//! A CANCEL passes from one leg to the other.

ghost use Rattle.std.specs.Prelude.{◌≡◌, ◌<◌, [], false, option_map, OnOk};
ghost use Rattle.std.specs.List.{find};
ghost use Rattle.sc_hosts.specs.Scripting.{only, where_some};
ghost use Rattle.sc_hosts.specs.Charters.{sent_initial};
ghost use Rattle.sc_hosts.specs.Looking.{partner};
ghost use Rattle.sc_hosts.specs.RefusalParts.{MOST_CALLS};
ghost use Rattle.sc_turn.specs.Working.{play_of};
ghost use Rattle.sc_apps.specs.Scripted.{IsPlayed, is_first_of};

use crate::calling::cancel;
use crate::reading::shown;
use sc_looking::partner;
use sc_pages::{Probe, Scope};
use sc_terms::{Call, RequestView, View};
use sc_turn::Turn;
use sc_value::{NoMemory, ReqId, SessId};

// Whether a request is the first that was sent in this SipSession.
#[derive(Clone, Copy)]
struct FirstOf {
    sess: SessId,
}

impl Probe<RequestView> for FirstOf {
    ghost passes = { λ p. is_first_of p.sess };

    fn passes(&self, request: &RequestView) -> bool {
        request.initial && !request.received && request.sess.0 == self.sess.0
    }
}

/// The initial request that was sent in a SipSession.
#[tactic(auto, unfolding(sc_hosts::specs::Charters::sent_initial), using(sc_terms::proofs::RestLaws::initial_busy))]
fn sent_initial(view: &View, sess: SessId) -> Option<ReqId>
    ensures { result ≡ option_map (λ request. request.id) (sent_initial view.entry.now sess) }
{
    match view.requests.find(Scope::Busy, &FirstOf { sess }) {
        Some(request) => Some(request.id),
        None => None,
    }
}

/// Cancels the request of the other leg, where there is one.
#[tactic(auto, using(crate::proofs::Playing::begun_room))]
pub fn cancel_leg(t: &mut Turn, sess: SessId) -> Result<(), NoMemory>
    requires calls { t.old.calls ≡ [] }
    requires memory { t.old.starved ≡ false }
    ensures same { t.new.shown ≡ t.old.shown }
    ensures played { OnOk result
        (IsPlayed
        (where_some (partner t.old.shown sess)
        (λ other.
        where_some (sent_initial t.old.shown other)
        (λ request. only (Call.Cancel request.id)))) t.old t.new) }
{
    let other = partner(shown(t), sess);
    cancel_other(t, other)
}

#[tactic(auto, unfolding(sc_hosts::specs::Scripting::where_some), using(crate::proofs::Playing::played_done))]
fn cancel_other(t: &mut Turn, other: Option<SessId>) -> Result<(), NoMemory>
    requires calls { t.old.calls ≡ [] }
    requires memory { t.old.starved ≡ false }
    ensures same { t.new.shown ≡ t.old.shown }
    ensures played { OnOk result
        (IsPlayed
        (where_some other
        (λ other.
        where_some (sent_initial t.old.shown other)
        (λ request. only (Call.Cancel request.id)))) t.old t.new) }
{
    match other {
        Some(other) => cancel_first(t, other),
        None => Ok(()),
    }
}

#[tactic(auto, using(crate::proofs::Playing::begun_room, crate::proofs::Playing::played_request))]
fn cancel_first(t: &mut Turn, other: SessId) -> Result<(), NoMemory>
    requires calls { t.old.calls ≡ [] }
    requires memory { t.old.starved ≡ false }
    ensures same { t.new.shown ≡ t.old.shown }
    ensures played { OnOk result
        (IsPlayed
        (where_some (sent_initial t.old.shown other) (λ request. only (Call.Cancel request.id)))
        t.old t.new) }
{
    let req = sent_initial(shown(t), other);
    cancel_some(t, req)
}

#[tactic(auto, unfolding(sc_hosts::specs::Scripting::where_some), using(crate::proofs::Playing::played_done, crate::proofs::Playing::played_only))]
fn cancel_some(t: &mut Turn, req: Option<ReqId>) -> Result<(), NoMemory>
    requires { (play_of t.old).listed < MOST_CALLS }
    ensures same { t.new.shown ≡ t.old.shown }
    ensures played { OnOk result
        (IsPlayed (where_some req (λ req. only (Call.Cancel req))) t.old t.new) }
{
    match req {
        Some(req) => {
            cancel(t, req)?;
            Ok(())
        }
        None => Ok(()),
    }
}
