//! Copies of what an application session knows of a response's request.

ghost use Rattle.std.specs.Prelude.{◌≡◌, IfOk};
ghost use Rattle.std.specs.List.{find};
ghost use Rattle.sc_hosts.specs.Branches.{has_branch};
ghost use Rattle.sc_hosts.specs.Looking.{session_in, timer_in};
ghost use Rattle.sc_hosts.specs.Preparing.{is_invited, kept_of, proxy_of};
ghost use Rattle.sc_hosts.specs.PreparingResponses.{is_sent_on};

use sc_branches::has_branch;
use sc_effects::{kept_of, proxy_of};
use sc_looking::{session_in, timer_in};
use sc_pages::{Probe, Scope};
use sc_state::{Invited, Kept, Known, Proxy, Way};
use sc_terms::{SessionView, TimerView, View};
use sc_value::{CloneIn, NoMemory, ReqId, SessId, TimerId};
use std::alloc::Global;

/// The SipSession of this number.
pub fn session_copy(
    alloc: Global,
    view: &View,
    sess: SessId,
) -> Result<Option<SessionView>, NoMemory>
    ensures { IfOk result (λ s. s ≡ session_in view.entry.now sess) }
{
    match session_in(view, sess) {
        Some(session) => Ok(Some(session.clone_in(alloc)?)),
        None => Ok(None),
    }
}

/// The active timer of this number.
pub fn timer_copy(alloc: Global, view: &View, id: TimerId) -> Result<Option<TimerView>, NoMemory>
    ensures { IfOk result (λ t. t ≡ timer_in view.entry.now id) }
{
    match timer_in(view, id) {
        Some(timer) => Ok(Some(timer.clone_in(alloc)?)),
        None => Ok(None),
    }
}

/// The request of this number, as it is kept.
pub fn kept_copy(alloc: Global, known: &Known, req: ReqId) -> Result<Option<Kept>, NoMemory>
    ensures { IfOk result (λ k. k ≡ kept_of known.now req) }
{
    match kept_of(known, req) {
        Some(kept) => Ok(Some(kept.clone_in(alloc)?)),
        None => Ok(None),
    }
}

/// The proxy of this request.
pub fn proxy_copy(alloc: Global, known: &Known, req: ReqId) -> Result<Option<Proxy>, NoMemory>
    ensures { IfOk result (λ p. p ≡ proxy_of known.now req) }
{
    match proxy_of(known, req) {
        Some(proxy) => Ok(Some(proxy.clone_in(alloc)?)),
        None => Ok(None),
    }
}

fn is_sent_on(kept: &Kept, branch: u64) -> bool
    ensures { result ≡ is_sent_on branch kept.now }
{
    match kept.way {
        Way::Sent { branch: number } => number == branch,
        Way::Received { event: _ } => false,
    }
}

// Whether a kept request was sent on this branch.
#[derive(Clone, Copy)]
struct SentOn {
    branch: u64,
}

impl Probe<Kept> for SentOn {
    ghost passes = { λ p. is_sent_on p.branch };

    fn passes(&self, kept: &Kept) -> bool {
        is_sent_on(kept, self.branch)
    }
}

/// The request that was sent on this branch.
pub fn sent_copy(alloc: Global, known: &Known, branch: u64) -> Result<Option<Kept>, NoMemory>
    ensures { IfOk result (λ k. k ≡ find (is_sent_on branch) known.now.kept) }
{
    match known.kept.find(Scope::All, &SentOn { branch }) {
        Some(kept) => Ok(Some(kept.clone_in(alloc)?)),
        None => Ok(None),
    }
}

// Whether a proxied request has this branch.
#[derive(Clone, Copy)]
struct Branching {
    branch: u64,
}

impl Probe<Proxy> for Branching {
    ghost passes = { λ p. has_branch p.branch };

    fn passes(&self, proxy: &Proxy) -> bool {
        has_branch(self.branch, proxy)
    }
}

/// The proxy that has this branch.
pub fn branch_copy(alloc: Global, known: &Known, branch: u64) -> Result<Option<Proxy>, NoMemory>
    ensures { IfOk result (λ p. p ≡ find (has_branch branch) known.now.proxies) }
{
    match known.proxies.find(Scope::All, &Branching { branch }) {
        Some(proxy) => Ok(Some(proxy.clone_in(alloc)?)),
        None => Ok(None),
    }
}

// Whether an INVITE came under this event's number.
#[derive(Clone, Copy)]
struct CameBy {
    event: u64,
}

impl Probe<Invited> for CameBy {
    ghost passes = { λ p. is_invited p.event };

    fn passes(&self, invited: &Invited) -> bool {
        invited.event == self.event
    }
}

/// The INVITE that came under this event's number.
pub fn invited_by(known: &Known, event: u64) -> Option<Invited>
    ensures { result ≡ find (is_invited event) known.now.invited }
{
    match known.invited.find(Scope::All, &CameBy { event }) {
        Some(invited) => Some(*invited),
        None => None,
    }
}
