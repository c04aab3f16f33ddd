//! Whether an entry runs in an application session.

ghost use Rattle.std.specs.Prelude.{◌≡◌, ◌==◌, ◌&&◌, ◌||◌};
ghost use Rattle.std.specs.List.{list_any};
ghost use Rattle.sc_parts.specs.TimerNames.{same_timer};
ghost use Rattle.sc_hosts.specs.Sessions.{expiry_entry, timer_entry, branch_entry, entries_of};
ghost use Rattle.sc_ticks.specs.Running.{is_entry};

use sc_pages::{Probe, Scope};
use sc_parts::TimerName;
use sc_state::{Branch, Proxy, Session};
use sc_terms::TimerView;

#[tactic(auto, unfolding(sc_hosts::specs::Sessions::expiry_entry))]
fn expiry_runs(expires: Option<u64>, due: u64, name: TimerName) -> bool
    ensures { result ≡ list_any (is_entry due name) (expiry_entry expires) }
{
    match expires {
        Some(at) => at == due && TimerName::Expiry == name,
        None => false,
    }
}

#[tactic(auto, unfolding(sc_hosts::specs::Sessions::timer_entry))]
fn timer_runs(timer: &TimerView, due: u64, name: TimerName) -> bool
    ensures { result ≡ is_entry due name (timer_entry timer.now) }
{
    timer.due == due && TimerName::Servlet(timer.id) == name
}

fn timers_run(timers: &[TimerView], due: u64, name: TimerName) -> bool
    ensures { result ≡ list_any (λ timer. is_entry due name (timer_entry timer)) timers.now }
{
    timers.iter().any(|timer| timer_runs(timer, due, name))
}

#[tactic(auto, unfolding(sc_hosts::specs::Sessions::branch_entry))]
fn branch_runs(branch: &Branch, due: u64, name: TimerName) -> bool
    ensures { result ≡ list_any (is_entry due name) (branch_entry branch.now) }
{
    match branch.due {
        Some(at) => at == due && TimerName::Branch(branch.number) == name,
        None => false,
    }
}

fn branches_run(branches: &[Branch], due: u64, name: TimerName) -> bool
    ensures { result
        ≡ list_any (λ branch. list_any (is_entry due name) (branch_entry branch)) branches.now }
{
    branches.iter().any(|branch| branch_runs(branch, due, name))
}

// Whether a timer of a branch of a proxied request runs.
#[derive(Clone, Copy)]
struct TimerRuns {
    due: u64,
    name: TimerName,
}

impl Probe<Proxy> for TimerRuns {
    ghost passes = { λ p proxy.
        list_any (λ branch. list_any (is_entry p.due p.name) (branch_entry branch)) proxy.branches };

    fn passes(&self, proxy: &Proxy) -> bool {
        branches_run(proxy.branches.as_slice(), self.due, self.name)
    }
}

fn parts_run(session: &Session, due: u64, name: TimerName) -> bool
    ensures { result
        ≡ ((list_any (is_entry due name) (expiry_entry session.now.view.expires)
        || list_any (λ timer. is_entry due name (timer_entry timer)) session.now.view.timers)
        || list_any
        (λ proxy.
        list_any (λ branch. list_any (is_entry due name) (branch_entry branch))
        proxy.branches) session.now.known.proxies) }
{
    expiry_runs(session.view.expires, due, name)
        || timers_run(session.view.timers.as_slice(), due, name)
        || session
            .known
            .proxies
            .any(Scope::All, &TimerRuns { due, name })
}

/// Whether the timer of this name, due at this moment in milliseconds, runs in the session.
pub fn runs(session: &Session, due: u64, name: TimerName) -> bool
    ensures { result
        ≡ list_any (λ entry. entry.due == due && same_timer entry.timer name)
        (entries_of session.now) }
{
    parts_run(session, due, name)
}
