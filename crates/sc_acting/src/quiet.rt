//! Proxied requests that have nothing to do at the end of a turn, as most of many that are open:
//! they stay as they are.

ghost use Rattle.std.specs.Prelude.{◌≡◌, ◌++◌, filter, IfOk, OnOk};
ghost use Rattle.std.specs.List.{flat_map, fold, list_all};
ghost use Rattle.sc_acting.specs.Quiet.{acting, climbs, is_at_rest, is_busy, is_quiet, are_rising};

use sc_branches::can_choose;
use sc_pages::{Page, Pages};
use sc_state::{Branch, Proxy};
use sc_value::{CloneIn, List, NoMemory};
use std::alloc::Global;

/// Whether the numbers of the proxied requests so far rise, and the last of them.
#[derive(Clone, Copy)]
pub struct Climb {
    pub rising: bool,
    pub last: u32,
}

#[tactic(auto, unfolding(crate::specs::Quiet::climbs))]
fn climbs(climb: &mut Climb, proxy: &Proxy)
    ensures { climb.new ≡ climbs climb.old proxy.now }
{
    climb.rising = climb.rising && climb.last < proxy.req.0;
    climb.last = proxy.req.0;
}

fn all_climb(climb: &mut Climb, proxies: &[Proxy])
    ensures { climb.new ≡ fold climbs climb.old proxies.now }
{
    for proxy in proxies {
        climbs(climb, proxy);
    }
}

fn pages_climb(climb: &mut Climb, pages: &[Page<Proxy>])
    ensures { climb.new ≡ fold (λ climb page. fold climbs climb page) climb.old pages.now }
{
    for page in pages {
        all_climb(climb, page.items());
    }
}

#[tactic(auto, unfolding(crate::specs::Quiet::are_rising), using(sc_pages::proofs::PagesLaws::fold_parts))]
fn are_rising(proxies: &Pages<Proxy>) -> bool
    ensures { result ≡ are_rising proxies.now }
{
    let mut climb = Climb {
        rising: true,
        last: 0,
    };
    let (pages, newest) = proxies.parts();
    pages_climb(&mut climb, pages);
    all_climb(&mut climb, newest);
    climb.rising
}

#[tactic(auto, unfolding(crate::specs::Quiet::is_at_rest))]
fn all_at_rest(branches: &[Branch]) -> bool
    ensures { result ≡ list_all is_at_rest branches.now }
{
    branches.iter().all(|branch| !branch.cancelled)
}

/// Whether a proxied request has nothing to do: no target waits, nothing is to be forwarded, and no
/// branch ended in this turn or is to be cancelled.
#[tactic(auto, unfolding(crate::specs::Quiet::is_quiet))]
fn is_quiet(proxy: &Proxy) -> bool
    ensures { result ≡ is_quiet proxy.now }
{
    proxy.targets.is_empty()
        && proxy.passing.is_none()
        && !proxy.heard_final
        && !can_choose(proxy)
        && all_at_rest(proxy.branches.as_slice())
}

fn add_busy(alloc: Global, busy: &mut List<Proxy>, proxies: &[Proxy]) -> Result<(), NoMemory>
    ensures { OnOk result (busy.new ≡ busy.old ++ filter is_busy proxies.now) }
{
    for proxy in proxies {
        if !is_quiet(proxy) {
            let copy = proxy.clone_in(alloc)?;
            busy.push(copy)?;
        }
    }
    Ok(())
}

#[tactic(auto, using(crate::proofs::Paged::none_busy))]
fn add_busy_page(alloc: Global, busy: &mut List<Proxy>, page: &Page<Proxy>) -> Result<(), NoMemory>
    ensures { OnOk result (busy.new ≡ busy.old ++ filter is_busy page.now) }
{
    if page.rests() {
        return Ok(());
    }
    add_busy(alloc, busy, page.items())
}

fn add_busy_pages(
    alloc: Global,
    busy: &mut List<Proxy>,
    pages: &[Page<Proxy>],
) -> Result<(), NoMemory>
    ensures { OnOk result (busy.new ≡ busy.old ++ flat_map (λ page. filter is_busy page) pages.now) }
{
    for page in pages {
        add_busy_page(alloc, busy, page)?;
    }
    Ok(())
}

#[tactic(auto, using(sc_pages::proofs::PagesLaws::filter_parts))]
fn busy_of(alloc: Global, proxies: &Pages<Proxy>) -> Result<List<Proxy>, NoMemory>
    ensures { IfOk result (λ busy. busy ≡ filter is_busy proxies.now) }
{
    let mut busy = List::new(alloc);
    let (pages, newest) = proxies.parts();
    add_busy_pages(alloc, &mut busy, pages)?;
    add_busy(alloc, &mut busy, newest)?;
    Ok(busy)
}

/// The proxied requests that have something to do; where their numbers don't rise, all of them.
#[tactic(auto, unfolding(crate::specs::Quiet::acting))]
pub fn acting(alloc: Global, proxies: &Pages<Proxy>) -> Result<List<Proxy>, NoMemory>
    ensures { IfOk result (λ some. some ≡ acting proxies.now) }
{
    if are_rising(proxies) {
        return busy_of(alloc, proxies);
    }
    proxies.to_list()
}
