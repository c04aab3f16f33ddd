//! Changes of many pages.

ghost use Rattle.std.specs.Prelude.{◌≡◌, ◌≤◌, ℕ, true, false, filter, map, OnOk};
ghost use Rattle.sc_queue.specs.Joined.{joined};
ghost use Rattle.sc_pages.specs.Filled.{is_filled};
ghost use Rattle.sc_pages.specs.Runs.{are_within};
ghost use Rattle.sc_pages.specs.Scopes.{is_in};

use crate::outline::Outline;
use crate::page::Page;
use crate::scope::may_have;
use crate::{Change, Paged, Probe, Run, Scope};
use sc_value::{List, NoMemory};
use std::alloc::Global;

/// Changes all items. Those that don't pass stay as they are, and all that pass are of the scope.
#[tactic(auto, using(crate::proofs::Steps::map_step))]
fn change_pages<T: Paged, P: Probe<T>, C: Change<T>>(
    alloc: Global,
    pages: &mut [Page<T>],
    scope: Scope,
    probe: &P,
    change: &C,
) -> Result<(), NoMemory>
    requires scope { (x : T) → P.passes probe.now x ≡ true → is_in T.number T.rests scope x ≡ true }
    requires same { (x : T) → P.passes probe.now x ≡ false → C.changed change.now x ≡ x }
    ensures { OnOk result (pages.new ≡ map (map (C.changed change.now)) pages.old) }
{
    for i in 0..pages.len() {
        pages[i].change_all(alloc, scope, probe, change)?;
    }
    Ok(())
}

/// The same of a list of pages.
pub fn change_pages_in<T: Paged, P: Probe<T>, C: Change<T>>(
    alloc: Global,
    pages: &mut List<Page<T>>,
    scope: Scope,
    probe: &P,
    change: &C,
) -> Result<(), NoMemory>
    requires scope { (x : T) → P.passes probe.now x ≡ true → is_in T.number T.rests scope x ≡ true }
    requires same { (x : T) → P.passes probe.now x ≡ false → C.changed change.now x ≡ x }
    ensures { OnOk result (pages.new ≡ map (map (C.changed change.now)) pages.old) }
{
    change_pages(alloc, &mut pages.items, scope, probe, change)
}

#[tactic(auto, using(crate::proofs::ScopeLaws::none_goes))]
fn keep_page<T: Paged, P: Probe<T>>(
    alloc: Global,
    page: &mut Page<T>,
    scope: Scope,
    probe: &P,
) -> Result<(), NoMemory>
    requires { (x : T) → P.passes probe.now x ≡ false → is_in T.number T.rests scope x ≡ true }
    ensures { OnOk result (page.new ≡ filter (P.passes probe.now) page.old) }
{
    if !may_have(scope, page.outline()) {
        return Ok(());
    }
    page.keep(alloc, probe)
}

#[tactic(auto, using(crate::proofs::Steps::map_step))]
fn keep_each<T: Paged, P: Probe<T>>(
    alloc: Global,
    pages: &mut [Page<T>],
    scope: Scope,
    probe: &P,
) -> Result<(), NoMemory>
    requires { (x : T) → P.passes probe.now x ≡ false → is_in T.number T.rests scope x ≡ true }
    ensures { OnOk result (pages.new ≡ map (filter (P.passes probe.now)) pages.old) }
{
    for i in 0..pages.len() {
        keep_page(alloc, &mut pages[i], scope, probe)?;
    }
    Ok(())
}

fn keep_each_in<T: Paged, P: Probe<T>>(
    alloc: Global,
    pages: &mut List<Page<T>>,
    scope: Scope,
    probe: &P,
) -> Result<(), NoMemory>
    requires { (x : T) → P.passes probe.now x ≡ false → is_in T.number T.rests scope x ≡ true }
    ensures { OnOk result (pages.new ≡ map (filter (P.passes probe.now)) pages.old) }
{
    keep_each(alloc, &mut pages.items, scope, probe)
}

/// Takes the items away that don't pass. All of them are of the scope.
#[tactic(auto, using(crate::proofs::PageLaws::kept_of_each))]
pub fn keep_pages<T: Paged, P: Probe<T>>(
    alloc: Global,
    pages: &mut List<Page<T>>,
    scope: Scope,
    probe: &P,
) -> Result<(), NoMemory>
    requires { (x : T) → P.passes probe.now x ≡ false → is_in T.number T.rests scope x ≡ true }
    ensures { OnOk result (joined pages.new ≡ filter (P.passes probe.now) (joined pages.old)) }
{
    keep_each_in(alloc, pages, scope, probe)?;
    drop_empty(pages);
    Ok(())
}

fn has_empty<T: Paged>(pages: &[Page<T>]) -> bool {
    pages.iter().any(|page| page.is_empty())
}

fn keep_filled<T: Paged>(pages: &mut List<Page<T>>)
    ensures { pages.new ≡ filter is_filled pages.old }
{
    pages.items.retain(|page| !page.is_empty());
}

// The pages without items go.
#[tactic(auto, using(crate::proofs::PageLaws::joined_filled))]
fn drop_empty<T: Paged>(pages: &mut List<Page<T>>)
    ensures { joined pages.new ≡ joined pages.old }
{
    if has_empty(pages.as_slice()) {
        keep_filled(pages);
    }
}

// From this place on, the place of the first run that doesn't end at this number or before it.
fn reached(runs: &[Run], from: usize, number: u32) -> usize {
    let mut at = from;
    while at < runs.len() && runs[at].to <= u64::from(number) {
        at += 1;
    }
    at
}

// Whether all numbers of a page are within the run at this place.
#[tactic(auto, using(crate::proofs::RunLaws::within_one))]
fn is_covered(runs: &[Run], at: usize, outline: Outline) -> bool
    ensures { result ≡ true
        → (n : ℕ) → outline.least ≤ n → n ≤ outline.most → are_within runs.now n ≡ true }
{
    match runs.get(at) {
        Some(run) => run.from <= u64::from(outline.least) && u64::from(outline.most) < run.to,
        None => false,
    }
}

#[tactic(auto, using(crate::proofs::RunLaws::none_goes))]
fn keep_page_outside<T: Paged, P: Probe<T>>(
    alloc: Global,
    page: &mut Page<T>,
    runs: &[Run],
    at: usize,
    probe: &P,
) -> Result<(), NoMemory>
    requires { (x : T) → are_within runs.now (T.number x) ≡ true → P.passes probe.now x ≡ true }
    ensures { OnOk result (page.new ≡ filter (P.passes probe.now) page.old) }
{
    if is_covered(runs, at, page.outline()) {
        return Ok(());
    }
    page.keep(alloc, probe)
}

#[tactic(auto, using(crate::proofs::Steps::map_step))]
fn keep_each_outside<T: Paged, P: Probe<T>>(
    alloc: Global,
    pages: &mut [Page<T>],
    runs: &[Run],
    probe: &P,
) -> Result<(), NoMemory>
    requires { (x : T) → are_within runs.now (T.number x) ≡ true → P.passes probe.now x ≡ true }
    ensures { OnOk result (pages.new ≡ map (filter (P.passes probe.now)) pages.old) }
{
    let mut at = 0;
    for i in 0..pages.len() {
        at = reached(runs, at, pages[i].outline().least);
        keep_page_outside(alloc, &mut pages[i], runs, at, probe)?;
    }
    Ok(())
}

fn keep_each_outside_in<T: Paged, P: Probe<T>>(
    alloc: Global,
    pages: &mut List<Page<T>>,
    runs: &[Run],
    probe: &P,
) -> Result<(), NoMemory>
    requires { (x : T) → are_within runs.now (T.number x) ≡ true → P.passes probe.now x ≡ true }
    ensures { OnOk result (pages.new ≡ map (filter (P.passes probe.now)) pages.old) }
{
    keep_each_outside(alloc, &mut pages.items, runs, probe)
}

/// Takes the items away that don't pass. All whose numbers are within one of these runs pass.
#[tactic(auto, using(crate::proofs::PageLaws::kept_of_each))]
pub fn keep_outside_of<T: Paged, P: Probe<T>>(
    alloc: Global,
    pages: &mut List<Page<T>>,
    runs: &[Run],
    probe: &P,
) -> Result<(), NoMemory>
    requires { (x : T) → are_within runs.now (T.number x) ≡ true → P.passes probe.now x ≡ true }
    ensures { OnOk result (joined pages.new ≡ filter (P.passes probe.now) (joined pages.old)) }
{
    keep_each_outside_in(alloc, pages, runs, probe)?;
    drop_empty(pages);
    Ok(())
}
