//! Lists in pages.

ghost use Rattle.std.specs.Prelude.{◌≡◌, ◌++◌, ◌∷◌, [], true, false, filter, map, IfOk, OnOk};
ghost use Rattle.std.specs.List.{find, list_any};
ghost use Rattle.std.specs.Option.{option_copied};
ghost use Rattle.sc_value.specs.Lists.{change_first};
ghost use Rattle.sc_queue.specs.Joined.{joined};
ghost use Rattle.sc_pages.specs.Scopes.{is_in};
ghost use Rattle.sc_pages.specs.Runs.{AllRest, are_within};

use crate::copies::{add_items, add_pages};
use crate::page::Page;
use crate::runs::{Run, add_runs};
use crate::same::same_apart;
use crate::searching::{any_in, first_in};
use crate::shelf::Shelf;
use crate::turning::{change_every_in, change_one_in, keep_passing};
use crate::{Change, Paged, Probe, Scope};
use sc_value::{CloneIn, List, NoMemory, Same};
use std::alloc::Global;
use std::marker::Model;
use std::mem::replace;

/// How many items a list has of its own at most.
const MOST_OWN: usize = 32;

/// A list of numbered items, all but the newest of which stand in pages. A copy has the pages in
/// common with it, and a change makes a page of its own of the one that it touches.
#[derive(Drop)]
pub struct Pages<T: Paged> {
    /// The older items.
    pages: Shelf<T>,
    /// The newest items.
    newest: List<T>,
    alloc: Global,
}

impl<T: Paged> Model for Pages<T> {
    ghost use Rattle.std.specs.Prelude.{◌++◌, List as Items};
    ghost use Rattle.sc_queue.specs.Joined.{joined};

    ghost Value = { Items T };

    ghost view = { λ p. joined p.pages ++ p.newest };
}

impl<T: Paged> Pages<T> {
    /// The empty list. It takes no memory.
    pub fn new(alloc: Global) -> Pages<T>
        ensures { result ≡ [] }
    {
        Pages {
            pages: Shelf::new(),
            newest: List::new(alloc),
            alloc,
        }
    }

    /// Puts an item at the end.
    #[tactic(auto, using(crate::proofs::PagesLaws::joined_more))]
    pub fn push(&mut self, item: T) -> Result<(), NoMemory>
        ensures { OnOk result (self.new ≡ self.old ++ item ∷ []) }
    {
        if MOST_OWN <= self.newest.len() {
            self.turn_over()?;
        }
        self.newest.push(item)?;
        Ok(())
    }

    // The newest items become a page.
    #[inline(never)]
    #[tactic(auto, using(crate::proofs::PagesLaws::page_more))]
    fn turn_over(&mut self) -> Result<(), NoMemory>
        ensures { OnOk result (self.new ≡ self.old) }
    {
        let none = List::new(self.alloc);
        let items = replace(&mut self.newest, none);
        let page = Page::new(self.alloc, items)?;
        self.pages.push(self.alloc, page)?;
        Ok(())
    }

    /// The first item that passes. All that pass are of the scope.
    #[tactic(auto, using(crate::proofs::PagesLaws::found_in_page, crate::proofs::PagesLaws::found_behind))]
    pub fn find<P: Probe<T>>(&self, scope: Scope, probe: &P) -> Option<&T>
        requires { (x : T) → P.passes probe.now x ≡ true → is_in T.number T.rests scope x ≡ true }
        ensures { option_copied result ≡ find (P.passes probe.now) self.now }
    {
        match self.pages.page_with(scope, probe) {
            Some(at) => self.pages.as_slice()[at].find(probe),
            None => first_in(self.newest.as_slice(), probe),
        }
    }

    /// Whether an item passes. All that pass are of the scope.
    #[tactic(auto, using(crate::proofs::PagesLaws::any_in_page, crate::proofs::PagesLaws::any_behind))]
    pub fn any<P: Probe<T>>(&self, scope: Scope, probe: &P) -> bool
        requires { (x : T) → P.passes probe.now x ≡ true → is_in T.number T.rests scope x ≡ true }
        ensures { result ≡ list_any (P.passes probe.now) self.now }
    {
        match self.pages.page_with(scope, probe) {
            Some(_) => true,
            None => any_in(self.newest.as_slice(), probe),
        }
    }

    /// Changes the first item that passes, where there is one. All that pass are of the scope.
    #[tactic(auto, using(crate::proofs::PagesLaws::changed_behind))]
    pub fn change_first<P: Probe<T>, C: Change<T>>(
        &mut self,
        scope: Scope,
        probe: &P,
        change: &C,
    ) -> Result<(), NoMemory>
        requires { (x : T) → P.passes probe.now x ≡ true → is_in T.number T.rests scope x ≡ true }
        ensures { OnOk result
            (self.new ≡ change_first (P.passes probe.now) (C.changed change.now) self.old) }
    {
        match self.pages.page_with(scope, probe) {
            Some(at) => self.pages.change_page(self.alloc, at, probe, change),
            None => {
                change_one_in(&mut self.newest, probe, change)?;
                Ok(())
            }
        }
    }

    /// Changes all items. Those that don't pass stay as they are, and all that pass are of the
    /// scope.
    #[tactic(auto, using(crate::proofs::PagesLaws::all_changed))]
    pub fn change_all<P: Probe<T>, C: Change<T>>(
        &mut self,
        scope: Scope,
        probe: &P,
        change: &C,
    ) -> Result<(), NoMemory>
        requires scope { (x : T) → P.passes probe.now x ≡ true
            → is_in T.number T.rests scope x ≡ true }
        requires same { (x : T) → P.passes probe.now x ≡ false → C.changed change.now x ≡ x }
        ensures { OnOk result (self.new ≡ map (C.changed change.now) self.old) }
    {
        self.pages.change_all(self.alloc, scope, probe, change)?;
        change_every_in(&mut self.newest, probe, change)?;
        Ok(())
    }

    /// Takes the items away that don't pass. All of them are of the scope.
    #[tactic(auto, using(crate::proofs::PagesLaws::all_passing))]
    pub fn keep<P: Probe<T>>(&mut self, scope: Scope, probe: &P) -> Result<(), NoMemory>
        requires { (x : T) → P.passes probe.now x ≡ false → is_in T.number T.rests scope x ≡ true }
        ensures { OnOk result (self.new ≡ filter (P.passes probe.now) self.old) }
    {
        self.pages.keep(self.alloc, scope, probe)?;
        keep_passing(&mut self.newest, probe);
        Ok(())
    }

    /// Takes the items away that don't pass. All whose numbers are within one of these runs pass.
    #[tactic(auto, using(crate::proofs::PagesLaws::all_passing))]
    pub fn keep_outside<P: Probe<T>>(&mut self, runs: &[Run], probe: &P) -> Result<(), NoMemory>
        requires { (x : T) → are_within runs.now (T.number x) ≡ true → P.passes probe.now x ≡ true }
        ensures { OnOk result (self.new ≡ filter (P.passes probe.now) self.old) }
    {
        self.pages.keep_outside(self.alloc, runs, probe)?;
        keep_passing(&mut self.newest, probe);
        Ok(())
    }

    /// Its pages, and the newest items behind them.
    pub fn parts(&self) -> (&[Page<T>], &[T])
        ensures { self.now ≡ joined result.0.now ++ result.1.now }
    {
        (self.pages.as_slice(), self.newest.as_slice())
    }

    /// A list of its own of the items.
    pub fn to_list(&self) -> Result<List<T>, NoMemory>
        ensures { IfOk result (λ items. items ≡ self.now) }
    {
        let mut items = List::new(self.alloc);
        add_pages(self.alloc, self.pages.as_slice(), &mut items)?;
        add_items(self.alloc, self.newest.as_slice(), &mut items)?;
        Ok(items)
    }

    /// Runs of numbers, in order, at each of which stands an item that rests.
    #[tactic(auto, using(crate::proofs::RunLaws::all_rest))]
    pub fn resting(&self) -> Result<List<Run>, NoMemory>
        ensures { IfOk result (λ runs. AllRest T.number T.rests self.now runs) }
    {
        let mut runs = List::new(self.alloc);
        if self.pages.is_bare() {
            return Ok(runs);
        }
        add_runs(self.pages.as_slice(), &mut runs)?;
        Ok(runs)
    }
}

impl<T: Paged> Pages<T> {
    /// Copies of these items.
    pub fn from_slice(alloc: Global, items: &[T]) -> Result<Pages<T>, NoMemory>
        ensures { IfOk result (λ pages. pages ≡ items.now) }
    {
        let mut pages = Pages::new(alloc);
        for item in items {
            let copy = item.clone_in(alloc)?;
            pages.push(copy)?;
        }
        Ok(pages)
    }
}

impl<T: Paged> CloneIn for Pages<T> {
    fn clone_in(&self, alloc: Global) -> Result<Pages<T>, NoMemory> {
        let pages = self.pages.clone_in(alloc)?;
        let newest = self.newest.clone_in(alloc)?;
        Ok(Pages {
            pages,
            newest,
            alloc,
        })
    }
}

impl<T: Paged + Same> Same for Pages<T> {
    #[tactic(auto, using(crate::proofs::SameLaws::same_parts))]
    fn same(&self, other: &Pages<T>) -> bool {
        if self.pages.same(&other.pages) && self.newest.same(&other.newest) {
            return true;
        }
        same_apart(
            self.pages.as_slice(),
            self.newest.as_slice(),
            other.pages.as_slice(),
            other.newest.as_slice(),
        )
    }
}
