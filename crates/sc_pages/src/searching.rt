//! Searches of items, and of the first page that has one.

ghost use Rattle.std.specs.Prelude.{◌≡◌, ◌&&◌, true, position};
ghost use Rattle.std.specs.List.{find, list_any, list_all};
ghost use Rattle.std.specs.Option.{option_copied};
ghost use Rattle.sc_pages.specs.Outlines.{outline_of};
ghost use Rattle.sc_pages.specs.Scopes.{is_in, may_have};

use crate::page::Page;
use crate::scope::may_have;
use crate::{Paged, Probe, Scope};

/// The place of the first item that passes.
pub fn place_in<T, P: Probe<T>>(items: &[T], probe: &P) -> Option<usize>
    ensures { result ≡ position (P.passes probe.now) items.now }
{
    items.iter().position(|item| probe.passes(item))
}

/// The first item that passes.
#[tactic(auto, using(sc_value::proofs::ListFacts::find_position, sc_value::proofs::ListFacts::find_none))]
pub fn first_in<'a, T, P: Probe<T>>(items: &'a [T], probe: &P) -> Option<&'a T>
    ensures { option_copied result ≡ find (P.passes probe.now) items.now }
{
    match place_in(items, probe) {
        Some(at) => Some(&items[at]),
        None => None,
    }
}

/// Whether an item passes.
pub fn any_in<T, P: Probe<T>>(items: &[T], probe: &P) -> bool
    ensures { result ≡ list_any (P.passes probe.now) items.now }
{
    items.iter().any(|item| probe.passes(item))
}

/// Whether all items pass.
pub fn all_in<T, P: Probe<T>>(items: &[T], probe: &P) -> bool
    ensures { result ≡ list_all (P.passes probe.now) items.now }
{
    items.iter().all(|item| probe.passes(item))
}

// The first page that has an item that passes, as far as the outlines tell.
fn page_seen<T: Paged, P: Probe<T>>(pages: &[Page<T>], scope: Scope, probe: &P) -> Option<usize>
    ensures { result
        ≡ position
        (λ page.
        may_have scope (outline_of T.number T.rests page) && list_any (P.passes probe.now) page)
        pages.now }
{
    pages.iter().position(|page| may_have(scope, page.outline()) && any_in(page.items(), probe))
}

/// The first page that has an item that passes. All that pass are of the scope.
#[inline(never)]
pub fn page_with<T: Paged, P: Probe<T>>(pages: &[Page<T>], scope: Scope, probe: &P) -> Option<usize>
    requires { (x : T) → P.passes probe.now x ≡ true → is_in T.number T.rests scope x ≡ true }
    ensures { result ≡ position (list_any (P.passes probe.now)) pages.now }
{
    page_seen(pages, scope, probe)
}
