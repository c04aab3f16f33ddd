//! Pages that copies have in common.
//!
//! What there is to do with pages stands in functions of its own, so that where there are none, as
//! with most lists, only a test for that is inlined.

ghost use Rattle.std.specs.Prelude.{◌≡◌, ◌++◌, ◌∷◌, [], true, false, filter, map, position, IfOk, OnOk, Some, IsTrue, ◌↔◌, List as Items};
ghost use Rattle.std.specs.List.{list_any};
ghost use Rattle.std.specs.Arc.{arc_value};
ghost use Rattle.sc_value.specs.Lists.{change_first};
ghost use Rattle.sc_queue.specs.Joined.{joined};
ghost use Rattle.sc_pages.specs.Runs.{are_within};
ghost use Rattle.sc_pages.specs.Scopes.{is_in};

use crate::changing::{change_pages_in, keep_outside_of, keep_pages};
use crate::owning::own;
use crate::page::Page;
use crate::searching::page_with;
use crate::{Change, Paged, Probe, Run, Scope};
use sc_value::{CloneIn, List, NoMemory, Same};
use std::alloc::Global;
use std::marker::Model;
use std::sync::Arc;

/// Pages in order. A copy is one owner more, and no pages take no memory.
#[derive(Drop)]
pub struct Shelf<T: Paged> {
    pages: Option<Arc<List<Page<T>>>>,
}

impl<T: Paged> Model for Shelf<T> {
    ghost use Rattle.std.specs.Prelude.{List as Items};
    ghost use Rattle.sc_value.specs.SharedItems.{items_of};

    ghost Value = { Items (Items T) };

    ghost view = { λ s. items_of s.pages };
}

impl<T: Paged> Shelf<T> {
    /// No pages.
    pub fn new() -> Shelf<T>
        ensures { result ≡ [] }
    {
        Shelf { pages: None }
    }

    /// Whether there are no pages.
    pub fn is_bare(&self) -> bool {
        match &self.pages {
            Some(_) => false,
            None => true,
        }
    }

    /// The pages in order.
    pub fn as_slice(&self) -> &[Page<T>]
        ensures { result.now ≡ self.now }
    {
        match &self.pages {
            Some(pages) => pages.as_slice(),
            None => &[],
        }
    }

    /// Puts a page at the end.
    pub fn push(&mut self, alloc: Global, page: Page<T>) -> Result<(), NoMemory>
        ensures { OnOk result (self.new ≡ self.old ++ page ∷ []) }
    {
        if let Some(pages) = &mut self.pages {
            return push_page(alloc, pages, page);
        }
        let first = first_page(alloc, page)?;
        self.pages = Some(first);
        Ok(())
    }

    /// The first page that has an item that passes. All that pass are of the scope.
    pub fn page_with<P: Probe<T>>(&self, scope: Scope, probe: &P) -> Option<usize>
        requires { (x : T) → P.passes probe.now x ≡ true → is_in T.number T.rests scope x ≡ true }
        ensures { result ≡ position (list_any (P.passes probe.now)) self.now }
    {
        match &self.pages {
            Some(pages) => page_with(pages.as_slice(), scope, probe),
            None => None,
        }
    }

    /// Changes the first item that passes, which is in this page.
    pub fn change_page<P: Probe<T>, C: Change<T>>(
        &mut self,
        alloc: Global,
        at: usize,
        probe: &P,
        change: &C,
    ) -> Result<(), NoMemory>
        requires { position (list_any (P.passes probe.now)) self.now ≡ Some at }
        ensures { OnOk result
            ((newest : Items T) → joined self.new ++ newest
            ≡ change_first (P.passes probe.now) (C.changed change.now) (joined self.old ++ newest)) }
    {
        match &mut self.pages {
            Some(pages) => change_page_of(alloc, pages, at, probe, change),
            None => Err(NoMemory),
        }
    }

    /// Changes all items. Those that don't pass stay as they are, and all that pass are of the
    /// scope.
    pub fn change_all<P: Probe<T>, C: Change<T>>(
        &mut self,
        alloc: Global,
        scope: Scope,
        probe: &P,
        change: &C,
    ) -> Result<(), NoMemory>
        requires scope { (x : T) → P.passes probe.now x ≡ true
            → is_in T.number T.rests scope x ≡ true }
        requires same { (x : T) → P.passes probe.now x ≡ false → C.changed change.now x ≡ x }
        ensures { OnOk result (joined self.new ≡ map (C.changed change.now) (joined self.old)) }
    {
        match &mut self.pages {
            Some(pages) => change_all_of(alloc, pages, scope, probe, change),
            None => Ok(()),
        }
    }

    /// Takes the items away that don't pass. All of them are of the scope.
    pub fn keep<P: Probe<T>>(
        &mut self,
        alloc: Global,
        scope: Scope,
        probe: &P,
    ) -> Result<(), NoMemory>
        requires { (x : T) → P.passes probe.now x ≡ false → is_in T.number T.rests scope x ≡ true }
        ensures { OnOk result (joined self.new ≡ filter (P.passes probe.now) (joined self.old)) }
    {
        match &mut self.pages {
            Some(pages) => keep_all_of(alloc, pages, scope, probe),
            None => Ok(()),
        }
    }

    /// Takes the items away that don't pass. All whose numbers are within one of these runs pass.
    pub fn keep_outside<P: Probe<T>>(
        &mut self,
        alloc: Global,
        runs: &[Run],
        probe: &P,
    ) -> Result<(), NoMemory>
        requires { (x : T) → are_within runs.now (T.number x) ≡ true → P.passes probe.now x ≡ true }
        ensures { OnOk result (joined self.new ≡ filter (P.passes probe.now) (joined self.old)) }
    {
        match &mut self.pages {
            Some(pages) => keep_all_outside(alloc, pages, runs, probe),
            None => Ok(()),
        }
    }
}

impl<T: Paged> CloneIn for Shelf<T> {
    fn clone_in(&self, _alloc: Global) -> Result<Shelf<T>, NoMemory> {
        let pages = match &self.pages {
            Some(pages) => Some(Arc::try_clone(pages)?),
            None => None,
        };
        Ok(Shelf { pages })
    }
}

impl<T: Paged + Same> Same for Shelf<T> {
    fn same(&self, other: &Shelf<T>) -> bool {
        if let Some(pages) = &self.pages {
            if let Some(others) = &other.pages {
                return same_pages(pages, others);
            }
        }
        self.as_slice().is_empty() && other.as_slice().is_empty()
    }
}

#[inline(never)]
fn same_pages<T: Paged + Same>(pages: &List<Page<T>>, others: &List<Page<T>>) -> bool
    ensures { IsTrue result ↔ (pages.now ≡ others.now) }
{
    pages.same(others)
}

fn first_page<T: Paged>(alloc: Global, page: Page<T>) -> Result<Arc<List<Page<T>>>, NoMemory>
    ensures { IfOk result (λ pages. arc_value pages ≡ page ∷ []) }
{
    let mut pages = List::new(alloc);
    pages.push(page)?;
    let pages = Arc::new(alloc, pages)?;
    Ok(pages)
}

fn push_page<T: Paged>(
    alloc: Global,
    pages: &mut Arc<List<Page<T>>>,
    page: Page<T>,
) -> Result<(), NoMemory>
    ensures { OnOk result (arc_value pages.new ≡ arc_value pages.old ++ page ∷ []) }
{
    own(alloc, pages)?;
    match Arc::get_mut(pages) {
        Some(own) => {
            own.push(page)?;
            Ok(())
        }
        None => Err(NoMemory),
    }
}

#[tactic(auto, using(crate::proofs::PagesLaws::changed_in_page))]
fn change_at<T: Paged, P: Probe<T>, C: Change<T>>(
    alloc: Global,
    pages: &mut [Page<T>],
    at: usize,
    probe: &P,
    change: &C,
) -> Result<(), NoMemory>
    requires { position (list_any (P.passes probe.now)) pages.now ≡ Some at }
    ensures { OnOk result
        ((newest : Items T) → joined pages.new ++ newest
        ≡ change_first (P.passes probe.now) (C.changed change.now) (joined pages.old ++ newest)) }
{
    pages[at].change_first(alloc, probe, change)
}

#[inline(never)]
fn change_page_of<T: Paged, P: Probe<T>, C: Change<T>>(
    alloc: Global,
    pages: &mut Arc<List<Page<T>>>,
    at: usize,
    probe: &P,
    change: &C,
) -> Result<(), NoMemory>
    requires { position (list_any (P.passes probe.now)) (arc_value pages.now) ≡ Some at }
    ensures { OnOk result
        ((newest : Items T) → joined (arc_value pages.new) ++ newest
        ≡ change_first
        (P.passes probe.now)
        (C.changed change.now)
        (joined (arc_value pages.old) ++ newest)) }
{
    own(alloc, pages)?;
    match Arc::get_mut(pages) {
        Some(own) => change_at(alloc, &mut own.items, at, probe, change),
        None => Err(NoMemory),
    }
}

#[tactic(auto, using(crate::proofs::ShelfLaws::all_changed))]
fn change_each_of<T: Paged, P: Probe<T>, C: Change<T>>(
    alloc: Global,
    pages: &mut Arc<List<Page<T>>>,
    scope: Scope,
    probe: &P,
    change: &C,
) -> Result<(), NoMemory>
    requires scope { (x : T) → P.passes probe.now x ≡ true → is_in T.number T.rests scope x ≡ true }
    requires same { (x : T) → P.passes probe.now x ≡ false → C.changed change.now x ≡ x }
    ensures { OnOk result
        (joined (arc_value pages.new) ≡ map (C.changed change.now) (joined (arc_value pages.old))) }
{
    own(alloc, pages)?;
    match Arc::get_mut(pages) {
        Some(own) => change_pages_in(alloc, own, scope, probe, change),
        None => Err(NoMemory),
    }
}

#[inline(never)]
fn change_all_of<T: Paged, P: Probe<T>, C: Change<T>>(
    alloc: Global,
    pages: &mut Arc<List<Page<T>>>,
    scope: Scope,
    probe: &P,
    change: &C,
) -> Result<(), NoMemory>
    requires scope { (x : T) → P.passes probe.now x ≡ true → is_in T.number T.rests scope x ≡ true }
    requires same { (x : T) → P.passes probe.now x ≡ false → C.changed change.now x ≡ x }
    ensures { OnOk result
        (joined (arc_value pages.new) ≡ map (C.changed change.now) (joined (arc_value pages.old))) }
{
    match page_with(pages.as_slice(), scope, probe) {
        Some(_) => change_each_of(alloc, pages, scope, probe, change),
        None => Ok(()),
    }
}

#[inline(never)]
fn keep_all_of<T: Paged, P: Probe<T>>(
    alloc: Global,
    pages: &mut Arc<List<Page<T>>>,
    scope: Scope,
    probe: &P,
) -> Result<(), NoMemory>
    requires { (x : T) → P.passes probe.now x ≡ false → is_in T.number T.rests scope x ≡ true }
    ensures { OnOk result
        (joined (arc_value pages.new) ≡ filter (P.passes probe.now) (joined (arc_value pages.old))) }
{
    own(alloc, pages)?;
    match Arc::get_mut(pages) {
        Some(own) => keep_pages(alloc, own, scope, probe),
        None => Err(NoMemory),
    }
}

#[inline(never)]
fn keep_all_outside<T: Paged, P: Probe<T>>(
    alloc: Global,
    pages: &mut Arc<List<Page<T>>>,
    runs: &[Run],
    probe: &P,
) -> Result<(), NoMemory>
    requires { (x : T) → are_within runs.now (T.number x) ≡ true → P.passes probe.now x ≡ true }
    ensures { OnOk result
        (joined (arc_value pages.new) ≡ filter (P.passes probe.now) (joined (arc_value pages.old))) }
{
    own(alloc, pages)?;
    match Arc::get_mut(pages) {
        Some(own) => keep_outside_of(alloc, own, runs, probe),
        None => Err(NoMemory),
    }
}
