//! When something of an application session is due.

ghost use Rattle.std.specs.Prelude.{◌≡◌, [], ◌∷◌, List as Items};
ghost use Rattle.std.specs.List.{flat_map};
ghost use Rattle.sc_state.specs.Entries.{SessionEntry, expiry_entry, timer_entry, branch_entry, entries_of, is_fired, lower, least_due};

use crate::{Branch, Fired, Proxy, Session};
use sc_pages::{Page, Pages};
use sc_parts::TimerName;
use sc_terms::TimerView;

/// What runs in an application session.
pub trait Timed: Drop {
    ghost entries: { Self → Items SessionEntry };

    /// The least due moment of the entries that haven't had their event, None where there is none.
    fn least_due(&self, fired: &[Fired]) -> Option<u64>
        ensures { result ≡ least_due fired.now (entries self.now) };
}

impl Timed for Session {
    ghost entries = { λ session. entries_of session };

    #[tactic(auto, unfolding(crate::specs::Entries::entries_of), using(crate::proofs::LeastDue::least_of))]
    fn least_due(&self, fired: &[Fired]) -> Option<u64> {
        let expiry = expiry_due(self.view.expires, fired);
        let timers = timers_due(self.view.timers.as_slice(), fired);
        let branches = all_due(&self.known.proxies, fired);
        lower(lower(expiry, timers), branches)
    }
}

fn lower(a: Option<u64>, b: Option<u64>) -> Option<u64>
    ensures { result ≡ lower a b }
{
    match (a, b) {
        (None, b) => b,
        (Some(a), None) => Some(a),
        (Some(a), Some(b)) => Some(a.min(b)),
    }
}

/// Whether the timer that was due at this moment, in milliseconds, has had its event.
#[tactic(auto, unfolding(crate::specs::Entries::is_fired))]
pub fn is_fired(fired: &[Fired], due: u64, timer: TimerName) -> bool
    ensures { result ≡ is_fired fired.now due timer }
{
    fired.iter().any(|f| f.due == due && f.timer == timer)
}

#[tactic(auto, unfolding(crate::specs::Entries::expiry_entry, crate::specs::Entries::least_due))]
fn expiry_due(expires: Option<u64>, fired: &[Fired]) -> Option<u64>
    ensures { result ≡ least_due fired.now (expiry_entry expires) }
{
    match expires {
        Some(due) if !is_fired(fired, due, TimerName::Expiry) => Some(due),
        Some(_) | None => None,
    }
}

#[tactic(auto, unfolding(crate::specs::Entries::timer_entry, crate::specs::Entries::least_due))]
fn timer_due(timer: &TimerView, fired: &[Fired]) -> Option<u64>
    ensures { result ≡ least_due fired.now (timer_entry timer.now ∷ []) }
{
    if is_fired(fired, timer.due, TimerName::Servlet(timer.id)) {
        return None;
    }
    Some(timer.due)
}

#[tactic(auto, using(crate::proofs::LeastDue::least_none, crate::proofs::LeastDue::least_both))]
fn timers_due(timers: &[TimerView], fired: &[Fired]) -> Option<u64>
    ensures { result
        ≡ least_due fired.now (flat_map (λ timer. timer_entry timer ∷ []) timers.now) }
{
    let mut least = None;
    for timer in timers {
        least = lower(least, timer_due(timer, fired));
    }
    least
}

#[tactic(auto, unfolding(crate::specs::Entries::branch_entry, crate::specs::Entries::least_due))]
fn branch_due(branch: &Branch, fired: &[Fired]) -> Option<u64>
    ensures { result ≡ least_due fired.now (branch_entry branch.now) }
{
    match branch.due {
        Some(due) if !is_fired(fired, due, TimerName::Branch(branch.number)) => Some(due),
        Some(_) | None => None,
    }
}

#[tactic(auto, using(crate::proofs::LeastDue::least_none, crate::proofs::LeastDue::least_both))]
fn branches_due(branches: &[Branch], fired: &[Fired]) -> Option<u64>
    ensures { result ≡ least_due fired.now (flat_map branch_entry branches.now) }
{
    let mut least = None;
    for branch in branches {
        least = lower(least, branch_due(branch, fired));
    }
    least
}

#[tactic(auto, using(crate::proofs::LeastDue::least_none, crate::proofs::LeastDue::least_both))]
fn proxies_due(proxies: &[Proxy], fired: &[Fired]) -> Option<u64>
    ensures { result
        ≡ least_due fired.now
        (flat_map (λ proxy. flat_map branch_entry proxy.branches) proxies.now) }
{
    let mut least = None;
    for proxy in proxies {
        least = lower(least, branches_due(proxy.branches.as_slice(), fired));
    }
    least
}

#[tactic(auto, using(crate::proofs::RestingLaws::none_due))]
fn page_due(page: &Page<Proxy>, fired: &[Fired]) -> Option<u64>
    ensures { result
        ≡ least_due fired.now
        (flat_map (λ proxy. flat_map branch_entry proxy.branches) page.now) }
{
    if page.rests() {
        return None;
    }
    proxies_due(page.items(), fired)
}

#[tactic(auto, using(crate::proofs::LeastDue::least_none, crate::proofs::LeastDue::least_both))]
fn pages_due(pages: &[Page<Proxy>], fired: &[Fired]) -> Option<u64>
    ensures { result
        ≡ least_due fired.now
        (flat_map (λ page. flat_map (λ proxy. flat_map branch_entry proxy.branches) page)
        pages.now) }
{
    let mut least = None;
    for page in pages {
        least = lower(least, page_due(page, fired));
    }
    least
}

fn all_due(proxies: &Pages<Proxy>, fired: &[Fired]) -> Option<u64>
    ensures { result
        ≡ least_due fired.now
        (flat_map (λ proxy. flat_map branch_entry proxy.branches) proxies.now) }
{
    let (pages, newest) = proxies.parts();
    lower(pages_due(pages, fired), proxies_due(newest, fired))
}
