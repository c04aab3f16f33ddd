//! Proxying a request as the applications do.

ghost use Rattle.std.specs.Prelude.{◌≡◌, ◌+◌, ◌<◌, [], ◌∷◌, OnOk};
ghost use Rattle.sc_hosts.specs.Scripting.{is_no_hops};
ghost use Rattle.sc_hosts.specs.Charters.{proxy_options, proxy_script, without_hops};
ghost use Rattle.sc_hosts.specs.RefusalParts.{MOST_CALLS};
ghost use Rattle.sc_turn.specs.Working.{play_of};
ghost use Rattle.sc_apps.specs.Scripted.{IsPlayed};

use crate::calling::proxy_to;
use crate::reading::memory_of;
use crate::replies::reply_483;
use sc_terms::{CallAnswer, ProxyOptions, Refusal};
use sc_turn::Turn;
use sc_value::{List, NoMemory, ReqId, Uri};

/// All targets at once, with the Contacts of a 3xx, and 181 seconds for each branch.
#[tactic(auto, unfolding(sc_hosts::specs::Charters::proxy_options))]
pub fn proxy_options(record_route: bool) -> ProxyOptions
    ensures { result ≡ proxy_options record_route }
{
    ProxyOptions {
        parallel: true,
        recurse: true,
        supervised: true,
        record_route,
        timeout: 181,
    }
}

/// Whether a call was refused because Max-Forwards is 0.
#[tactic(auto, unfolding(sc_hosts::specs::Scripting::is_no_hops))]
pub fn is_no_hops(answer: CallAnswer) -> bool
    ensures { result ≡ is_no_hops answer }
{
    match answer {
        CallAnswer::Refused(Refusal::NoHops) => true,
        _ => false,
    }
}

/// Answers 483 where Max-Forwards is 0.
#[tactic(auto, unfolding(sc_hosts::specs::Charters::without_hops), using(crate::proofs::Playing::played_done))]
pub fn without_hops(t: &mut Turn, req: ReqId, answer: CallAnswer) -> Result<(), NoMemory>
    requires { (play_of t.old).listed < MOST_CALLS }
    ensures same { t.new.shown ≡ t.old.shown }
    ensures played { OnOk result (IsPlayed (without_hops req answer) t.old t.new) }
{
    if is_no_hops(answer) {
        return reply_483(t, req);
    }
    Ok(())
}

/// Proxies a request to these targets.
#[tactic(auto, unfolding(sc_hosts::specs::Charters::proxy_script), using(crate::proofs::Playing::played_make))]
pub fn proxy(
    t: &mut Turn,
    req: ReqId,
    targets: List<Uri>,
    record_route: bool,
) -> Result<(), NoMemory>
    requires { (play_of t.old).listed + 1 < MOST_CALLS }
    ensures same { t.new.shown ≡ t.old.shown }
    ensures played { OnOk result (IsPlayed (proxy_script req targets record_route) t.old t.new) }
{
    let answer = proxy_to(t, req, targets, proxy_options(record_route))?;
    without_hops(t, req, answer)
}

/// Proxies a request to one target.
pub fn proxy_one(t: &mut Turn, req: ReqId, target: Uri, record_route: bool) -> Result<(), NoMemory>
    requires { (play_of t.old).listed + 1 < MOST_CALLS }
    ensures same { t.new.shown ≡ t.old.shown }
    ensures played { OnOk result
        (IsPlayed (proxy_script req (target ∷ []) record_route) t.old t.new) }
{
    let mut targets = List::new(memory_of(t));
    targets.push(target)?;
    proxy(t, req, targets, record_route)
}
