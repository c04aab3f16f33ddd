//! What runs in an application session.

ghost use Rattle.std.specs.Prelude.{◌≡◌, ◌++◌, [], ◌∷◌, IfOk, OnOk};
ghost use Rattle.std.specs.List.{flat_map};
ghost use Rattle.sc_hosts.specs.Sessions.{expiry_entry, timer_entry, branch_entry, entries_of};

use sc_pages::{Page, Pages};
use sc_parts::TimerName;
use sc_state::{Branch, Proxy, Queued, Session};
use sc_terms::TimerView;
use sc_value::{List, NoMemory};
use std::alloc::Global;
use std::marker::Model;

/// An entry of an application session: the moment at which it is due, in milliseconds, its timer,
/// and the event that is queued then.
#[derive(Drop)]
pub struct SessionEntry {
    pub due: u64,
    pub timer: TimerName,
    pub event: Queued,
}

impl Model for SessionEntry {
    ghost use Rattle.sc_hosts.specs.Sessions.{SessionEntry as Seen};

    ghost Value = { Seen };

    ghost view = { λ e. record { due = e.due; timer = e.timer; event = e.event } };
}

#[tactic(auto, unfolding(sc_hosts::specs::Sessions::expiry_entry))]
fn put_expiry(expires: Option<u64>, out: &mut List<SessionEntry>) -> Result<(), NoMemory>
    ensures { OnOk result (out.new ≡ out.old ++ expiry_entry expires) }
{
    match expires {
        Some(due) => {
            out.push(SessionEntry {
                due,
                timer: TimerName::Expiry,
                event: Queued::Expired,
            })?;
            Ok(())
        }
        None => Ok(()),
    }
}

#[tactic(auto, unfolding(sc_hosts::specs::Sessions::timer_entry))]
fn timer_entry(timer: &TimerView) -> SessionEntry
    ensures { result ≡ timer_entry timer.now }
{
    SessionEntry {
        due: timer.due,
        timer: TimerName::Servlet(timer.id),
        event: Queued::Timer { id: timer.id },
    }
}

fn put_timers(timers: &[TimerView], out: &mut List<SessionEntry>) -> Result<(), NoMemory>
    ensures { OnOk result
        (out.new ≡ out.old ++ flat_map (λ timer. timer_entry timer ∷ []) timers.now) }
{
    for timer in timers {
        out.push(timer_entry(timer))?;
    }
    Ok(())
}

#[tactic(auto, unfolding(sc_hosts::specs::Sessions::branch_entry))]
fn put_branch(branch: &Branch, out: &mut List<SessionEntry>) -> Result<(), NoMemory>
    ensures { OnOk result (out.new ≡ out.old ++ branch_entry branch.now) }
{
    let due = match branch.due {
        Some(due) => due,
        None => return Ok(()),
    };
    let branch = branch.number;
    out.push(SessionEntry {
        due,
        timer: TimerName::Branch(branch),
        event: Queued::BranchTimer { branch, due },
    })?;
    Ok(())
}

fn put_branches(branches: &[Branch], out: &mut List<SessionEntry>) -> Result<(), NoMemory>
    ensures { OnOk result (out.new ≡ out.old ++ flat_map branch_entry branches.now) }
{
    for branch in branches {
        put_branch(branch, out)?;
    }
    Ok(())
}

fn put_proxies(proxies: &[Proxy], out: &mut List<SessionEntry>) -> Result<(), NoMemory>
    ensures { OnOk result
        (out.new
        ≡ out.old ++ flat_map (λ proxy. flat_map branch_entry proxy.branches) proxies.now) }
{
    for proxy in proxies {
        put_branches(proxy.branches.as_slice(), out)?;
    }
    Ok(())
}

fn put_pages(pages: &[Page<Proxy>], out: &mut List<SessionEntry>) -> Result<(), NoMemory>
    ensures { OnOk result
        (out.new
        ≡ out.old
        ++ flat_map (λ page. flat_map (λ proxy. flat_map branch_entry proxy.branches) page)
        pages.now) }
{
    for page in pages {
        put_proxies(page.items(), out)?;
    }
    Ok(())
}

#[tactic(auto, using(sc_pages::proofs::PagesLaws::flat_parts))]
fn put_all(proxies: &Pages<Proxy>, out: &mut List<SessionEntry>) -> Result<(), NoMemory>
    ensures { OnOk result
        (out.new
        ≡ out.old ++ flat_map (λ proxy. flat_map branch_entry proxy.branches) proxies.now) }
{
    let (pages, newest) = proxies.parts();
    put_pages(pages, out)?;
    put_proxies(newest, out)
}

/// All that runs in a session: its expiry, its timers and those of its branches.
#[tactic(auto, unfolding(sc_hosts::specs::Sessions::entries_of))]
pub fn entries_of(alloc: Global, session: &Session) -> Result<List<SessionEntry>, NoMemory>
    ensures { IfOk result (λ entries. entries ≡ entries_of session.now) }
{
    let mut entries = List::new(alloc);
    put_expiry(session.view.expires, &mut entries)?;
    put_timers(session.view.timers.as_slice(), &mut entries)?;
    put_all(&session.known.proxies, &mut entries)?;
    Ok(entries)
}
