//! Which answer a request gets that asks for a session interval (RFC 4028 section 9).

ghost use Rattle.std.specs.Prelude.{◌≡◌, ◌<◌, ◌∷◌, ◌||◌, [], false, nat_lt, Some, None, codes, decimal, option_and_then, if◌then◌else◌, IfOk, OnOk};
ghost use Rattle.sc_hosts.specs.HelperParts.{answer_with, field};
ghost use Rattle.sc_hosts.specs.RefusalParts.{MOST_CALLS};
ghost use Rattle.sc_hosts.specs.Scripting.{only, param_at, small_number};
ghost use Rattle.sc_hosts.specs.SessionTimers.{grant, grant_by, least_interval, too_small};
ghost use Rattle.sc_turn.specs.Working.{play_of};
ghost use Rattle.sc_apps.specs.Scripted.{IsPlayed};
ghost use Rattle.sc_refreshes.specs.Intervals.{granted_of, IsGrantable};

use crate::intervals::{Interval, granted};
use crate::timing::accept;
use sc_apps::{memory_of, param_at, shown, small_number};
use sc_helpers::{answer_only, number_field, one};
use sc_terms::View;
use sc_turn::Turn;
use sc_value::{Field, List, NoMemory, ReqId, Request, SessId};
use std::alloc::Global;

fn number_param(view: &View) -> Option<u32>
    ensures { result ≡ option_and_then small_number (param_at view.entry.now 0) }
{
    match param_at(view, 0) {
        Some(text) => small_number(text.as_bytes()),
        None => None,
    }
}

fn in_range(number: Option<u32>) -> Option<u32>
    ensures { result
        ≡ option_and_then (λ n. if nat_lt n 90 || nat_lt 86400 n then None else Some n) number }
{
    let number = number?;
    if number < 90 || 86_400 < number {
        None
    } else {
        Some(number)
    }
}

/// The least interval in seconds.
#[tactic(auto, unfolding(sc_hosts::specs::SessionTimers::least_interval))]
fn least_interval(view: &View) -> u32
    ensures { result ≡ least_interval view.entry.now }
{
    in_range(number_param(view)).unwrap_or(90)
}

/// Answers an INVITE or an UPDATE.
#[tactic(auto, unfolding(sc_hosts::specs::SessionTimers::grant))]
pub fn grant(t: &mut Turn, req: ReqId, sess: SessId, request: &Request) -> Result<(), NoMemory>
    requires calls { t.old.calls ≡ [] }
    requires memory { t.old.starved ≡ false }
    ensures same { t.new.shown ≡ t.old.shown }
    ensures played { OnOk result (IsPlayed (grant t.old.shown req sess request.now) t.old t.new) }
{
    let least = least_interval(shown(t));
    let interval = granted(request, least);
    grant_by(t, req, sess, interval, least)
}

#[tactic(auto, unfolding(sc_hosts::specs::SessionTimers::grant_by, crate::specs::Intervals::granted_of), using(sc_apps::proofs::Playing::begun_room))]
fn grant_by(
    t: &mut Turn,
    req: ReqId,
    sess: SessId,
    interval: Interval,
    least: u32,
) -> Result<(), NoMemory>
    requires calls { t.old.calls ≡ [] }
    requires memory { t.old.starved ≡ false }
    requires interval { IsGrantable interval }
    requires least { least ≡ least_interval t.old.shown }
    ensures same { t.new.shown ≡ t.old.shown }
    ensures played { OnOk result
        (IsPlayed (grant_by t.old.shown req sess (granted_of interval)) t.old t.new) }
{
    match interval {
        Interval::TooSmall => refuse(t, req, least),
        Interval::Off => accept(t, req, sess, interval),
        Interval::On(_, _) => accept(t, req, sess, interval),
    }
}

fn least_field(alloc: Global, least: u32) -> Result<List<Field>, NoMemory>
    ensures { IfOk result (λ fields. fields ≡ field (codes "Min-SE") (decimal least) ∷ []) }
{
    let field = number_field(alloc, b"Min-SE", u64::from(least))?;
    one(alloc, field)
}

#[tactic(auto, unfolding(sc_hosts::specs::SessionTimers::too_small))]
fn refuse(t: &mut Turn, req: ReqId, least: u32) -> Result<(), NoMemory>
    requires { (play_of t.old).listed < MOST_CALLS }
    ensures same { t.new.shown ≡ t.old.shown }
    ensures played { OnOk result
        (IsPlayed
        (only (answer_with req 422 too_small (field (codes "Min-SE") (decimal least) ∷ []))) t.old
        t.new) }
{
    let fields = least_field(memory_of(t), least)?;
    answer_only(t, req, 422, b"Session Interval Too Small", fields)
}
