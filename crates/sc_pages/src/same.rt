//! Whether two lists have the same items, in whichever pages they stand.

ghost use Rattle.std.specs.Prelude.{◌≡◌, ◌++◌, ◌∷◌, ◌<◌, [], true, false, length, get_or, IsTrue, ◌↔◌, List as Items};
ghost use Rattle.sc_queue.specs.Joined.{joined};
ghost use Rattle.sc_pages.specs.Spots.{rest};

use crate::Paged;
use crate::page::Page;
use sc_value::Same;

impl<T: Paged + Same> Same for Page<T> {
    fn same(&self, other: &Page<T>) -> bool {
        self.list().same(other.list())
    }
}

/// How far a walk over the items of a list in pages has come.
#[derive(Clone, Copy)]
pub struct Spot {
    /// So many pages are behind it.
    pub page: usize,
    /// And so many items of those that follow.
    pub within: usize,
}

// The same, by the first page that isn't wholly behind it.
#[tactic(auto, using(crate::proofs::SameLaws::page_behind))]
fn settled<T: Paged>(pages: &[Page<T>], spot: Spot) -> Spot
    ensures same { (newest : Items T) → rest pages.now newest result ≡ rest pages.now newest spot }
    ensures within { result.page < length pages.now
        → result.within < length (get_or pages.now result.page []) }
{
    let mut page = spot.page;
    let mut within = spot.within;
    while page < pages.len() && pages[page].items().len() <= within {
        within -= pages[page].items().len();
        page += 1;
    }
    Spot { page, within }
}

fn past(spot: Spot, within: usize) -> Spot
    ensures { result ≡ record { page = spot.page; within = within } }
{
    Spot {
        page: spot.page,
        within,
    }
}

// Whether the next item is this one; the spot goes past it then.
fn next_same<T: Paged + Same>(pages: &[Page<T>], newest: &[T], spot: &mut Spot, item: &T) -> bool
    ensures yes { result ≡ true
        → rest pages.now newest.now spot.old ≡ item.now ∷ rest pages.now newest.now spot.new }
    ensures no { result ≡ false
        → (xs : Items T) → rest pages.now newest.now spot.old ≡ item.now ∷ xs → ⊥ }
{
    let at = settled(pages, *spot);
    if at.page < pages.len() {
        let items = pages[at.page].items();
        *spot = past(at, at.within + 1);
        return items[at.within].same(item);
    }
    if newest.len() <= at.within {
        return false;
    }
    *spot = past(at, at.within + 1);
    newest[at.within].same(item)
}

// Whether the next items are these; the spot goes past them then.
#[tactic(auto, using(crate::proofs::SameLaws::one_same, crate::proofs::SameLaws::one_other))]
fn next_all_same<T: Paged + Same>(
    pages: &[Page<T>],
    newest: &[T],
    spot: &mut Spot,
    items: &[T],
) -> bool
    ensures yes { result ≡ true
        → rest pages.now newest.now spot.old ≡ items.now ++ rest pages.now newest.now spot.new }
    ensures no { result ≡ false
        → (xs : Items T) → rest pages.now newest.now spot.old ≡ items.now ++ xs → ⊥ }
{
    for item in items {
        if !next_same(pages, newest, spot, item) {
            return false;
        }
    }
    true
}

// The same of the items of pages.
#[tactic(auto, using(crate::proofs::SameLaws::page_same, crate::proofs::SameLaws::page_other))]
fn next_pages_same<T: Paged + Same>(
    pages: &[Page<T>],
    newest: &[T],
    spot: &mut Spot,
    others: &[Page<T>],
) -> bool
    ensures yes { result ≡ true
        → rest pages.now newest.now spot.old
        ≡ joined others.now ++ rest pages.now newest.now spot.new }
    ensures no { result ≡ false
        → (xs : Items T) → rest pages.now newest.now spot.old ≡ joined others.now ++ xs → ⊥ }
{
    for page in others {
        if !next_all_same(pages, newest, spot, page.items()) {
            return false;
        }
    }
    true
}

// Whether no item follows.
fn is_end<T: Paged>(pages: &[Page<T>], newest: &[T], spot: Spot) -> bool
    ensures { IsTrue result ↔ (rest pages.now newest.now spot ≡ []) }
{
    let at = settled(pages, spot);
    pages.len() <= at.page && newest.len() <= at.within
}

/// Whether two lists in pages have the same items.
#[inline(never)]
#[tactic(auto, using(crate::proofs::SameLaws::pages_differ, crate::proofs::SameLaws::newest_differs, crate::proofs::SameLaws::end_same, crate::proofs::SameLaws::same_end))]
pub fn same_apart<T: Paged + Same>(
    pages: &[Page<T>],
    newest: &[T],
    others: &[Page<T>],
    other_newest: &[T],
) -> bool
    ensures { IsTrue result
        ↔ (joined pages.now ++ newest.now ≡ joined others.now ++ other_newest.now) }
{
    let mut spot = Spot { page: 0, within: 0 };
    if !next_pages_same(pages, newest, &mut spot, others) {
        return false;
    }
    if !next_all_same(pages, newest, &mut spot, other_newest) {
        return false;
    }
    is_end(pages, newest, spot)
}
