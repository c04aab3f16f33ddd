//! Pages: some items together, which copies have in common.

ghost use Rattle.std.specs.Prelude.{◌≡◌, ◌==◌, true, false, length, filter, map, IfOk, OnOk};
ghost use Rattle.std.specs.List.{find, list_all, list_any};
ghost use Rattle.std.specs.Option.{option_copied};
ghost use Rattle.std.specs.Arc.{arc_value};
ghost use Rattle.sc_value.specs.Lists.{change_first};
ghost use Rattle.sc_pages.specs.Outlines.{outline_of};
ghost use Rattle.sc_pages.specs.Scopes.{is_in};

use crate::outline::{Outline, outline_of};
use crate::owning::own;
use crate::scope::may_have;
use crate::searching::{all_in, any_in, first_in};
use crate::turning::{change_every, change_one, keep_those};
use crate::{Change, Paged, Probe, Scope};
use sc_value::{CloneIn, List, NoMemory};
use std::alloc::Global;
use std::marker::Model;
use std::sync::Arc;

/// Some items together, with their outline. A copy is one owner more.
#[derive(Drop)]
pub struct Page<T: Paged> {
    items: Arc<List<T>>,
    outline: Outline,
}

impl<T: Paged> Model for Page<T> {
    ghost use Rattle.std.specs.Prelude.{◌≡◌, List as Items};
    ghost use Rattle.std.specs.Arc.{arc_value};
    ghost use Rattle.sc_pages.specs.Outlines.{outline_of};

    ghost Value = { Items T };

    ghost view = { λ p. arc_value p.items };

    ghost invariant = { λ p. p.outline ≡ outline_of T.number T.rests (arc_value p.items) };
}

impl<T: Paged> Page<T> {
    /// A page of these items.
    pub(crate) fn new(alloc: Global, items: List<T>) -> Result<Page<T>, NoMemory>
        ensures { IfOk result (λ page. page ≡ items) }
    {
        let outline = outline_of(items.as_slice());
        let items = Arc::new(alloc, items)?;
        Ok(Page { items, outline })
    }

    /// The items.
    pub fn items(&self) -> &[T]
        ensures { result.now ≡ self.now }
    {
        self.items.as_slice()
    }

    /// The list of the items.
    pub(crate) fn list(&self) -> &List<T>
        ensures { result.now ≡ self.now }
    {
        &self.items
    }

    /// Their outline.
    pub(crate) fn outline(&self) -> Outline
        ensures { result ≡ outline_of T.number T.rests self.now }
    {
        self.outline
    }

    /// Whether all items are known to rest.
    #[tactic(auto, using(crate::proofs::OutlineLaws::page_rests))]
    pub fn rests(&self) -> bool
        ensures { result ≡ true → list_all T.rests self.now ≡ true }
    {
        self.outline.rests
    }

    /// Whether there is no item.
    pub(crate) fn is_empty(&self) -> bool
        ensures { result ≡ (length self.now == 0) }
    {
        self.items.is_empty()
    }

    /// Whether an item passes. All that pass are of the scope.
    #[tactic(auto, using(crate::proofs::ScopeLaws::none_there))]
    pub(crate) fn has<P: Probe<T>>(&self, scope: Scope, probe: &P) -> bool
        requires { (x : T) → P.passes probe.now x ≡ true → is_in T.number T.rests scope x ≡ true }
        ensures { result ≡ list_any (P.passes probe.now) self.now }
    {
        may_have(scope, self.outline) && any_in(self.items.as_slice(), probe)
    }

    /// The first item that passes.
    #[inline(never)]
    pub(crate) fn find<P: Probe<T>>(&self, probe: &P) -> Option<&T>
        ensures { option_copied result ≡ find (P.passes probe.now) self.now }
    {
        first_in(self.items.as_slice(), probe)
    }

    /// Changes the first item that passes, where there is one.
    pub(crate) fn change_first<P: Probe<T>, C: Change<T>>(
        &mut self,
        alloc: Global,
        probe: &P,
        change: &C,
    ) -> Result<(), NoMemory>
        ensures { OnOk result
            (self.new ≡ change_first (P.passes probe.now) (C.changed change.now) self.old) }
    {
        let done = change_one_of(alloc, &mut self.items, probe, change);
        self.outline = outline_of(self.items.as_slice());
        done
    }

    /// Changes all items. Those that don't pass stay as they are, and all that pass are of the
    /// scope.
    #[tactic(auto, using(crate::proofs::PageLaws::none_changed))]
    pub(crate) fn change_all<P: Probe<T>, C: Change<T>>(
        &mut self,
        alloc: Global,
        scope: Scope,
        probe: &P,
        change: &C,
    ) -> Result<(), NoMemory>
        requires scope { (x : T) → P.passes probe.now x ≡ true
            → is_in T.number T.rests scope x ≡ true }
        requires same { (x : T) → P.passes probe.now x ≡ false → C.changed change.now x ≡ x }
        ensures { OnOk result (self.new ≡ map (C.changed change.now) self.old) }
    {
        if !self.has(scope, probe) {
            return Ok(());
        }
        let done = change_each_of(alloc, &mut self.items, change);
        self.outline = outline_of(self.items.as_slice());
        done
    }

    /// Takes the items away that don't pass.
    #[tactic(auto, using(crate::proofs::PageLaws::all_kept))]
    pub(crate) fn keep<P: Probe<T>>(&mut self, alloc: Global, probe: &P) -> Result<(), NoMemory>
        ensures { OnOk result (self.new ≡ filter (P.passes probe.now) self.old) }
    {
        if all_in(self.items.as_slice(), probe) {
            return Ok(());
        }
        let done = keep_of(alloc, &mut self.items, probe);
        self.outline = outline_of(self.items.as_slice());
        done
    }
}

impl<T: Paged> CloneIn for Page<T> {
    fn clone_in(&self, _alloc: Global) -> Result<Page<T>, NoMemory> {
        let items = Arc::try_clone(&self.items)?;
        Ok(Page {
            items,
            outline: self.outline,
        })
    }
}

fn change_one_of<T: CloneIn, P: Probe<T>, C: Change<T>>(
    alloc: Global,
    items: &mut Arc<List<T>>,
    probe: &P,
    change: &C,
) -> Result<(), NoMemory>
    ensures { OnOk result
        (arc_value items.new
        ≡ change_first (P.passes probe.now) (C.changed change.now) (arc_value items.old)) }
{
    own(alloc, items)?;
    match Arc::get_mut(items) {
        Some(own) => change_one(&mut own.items, probe, change),
        None => Err(NoMemory),
    }
}

fn change_each_of<T: CloneIn, C: Change<T>>(
    alloc: Global,
    items: &mut Arc<List<T>>,
    change: &C,
) -> Result<(), NoMemory>
    ensures { OnOk result (arc_value items.new ≡ map (C.changed change.now) (arc_value items.old)) }
{
    own(alloc, items)?;
    match Arc::get_mut(items) {
        Some(own) => change_every(&mut own.items, change),
        None => Err(NoMemory),
    }
}

fn keep_of<T: CloneIn, P: Probe<T>>(
    alloc: Global,
    items: &mut Arc<List<T>>,
    probe: &P,
) -> Result<(), NoMemory>
    ensures { OnOk result (arc_value items.new ≡ filter (P.passes probe.now) (arc_value items.old)) }
{
    own(alloc, items)?;
    match Arc::get_mut(items) {
        Some(own) => {
            keep_those(own, probe);
            Ok(())
        }
        None => Err(NoMemory),
    }
}
