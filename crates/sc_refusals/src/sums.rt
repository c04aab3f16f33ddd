//! Sums that are compared with a limit: they stop at the greatest number, which is past every
//! limit.

ghost use Rattle.std.specs.Prelude.{◌≡◌, ◌+◌, nat_lt, length, sum_by, min};
ghost use Rattle.sc_hosts.specs.Refusals.{attribute_bytes, branch_count};
ghost use Rattle.sc_refusals.specs.AttributeSums.{bytes_beside};

use sc_pages::{Page, Pages};
use sc_terms::{RequestView, View};
use sc_value::Field;

// The branches of requests.
fn branches_of(requests: &[RequestView]) -> u64
    ensures { result ≡ min (sum_by (λ request. request.branches) requests.now) u64.MAX }
{
    let mut sum: u64 = 0;
    for request in requests {
        sum = sum.saturating_add(u64::from(request.branches));
    }
    sum
}

// The branches of the requests of pages.
fn branches_of_pages(pages: &[Page<RequestView>]) -> u64
    ensures { result ≡ min (sum_by (λ page. sum_by (λ request. request.branches) page) pages.now) u64.MAX }
{
    let mut sum: u64 = 0;
    for page in pages {
        sum = sum.saturating_add(branches_of(page.items()));
    }
    sum
}

fn branches_of_all(requests: &Pages<RequestView>) -> u64
    ensures { result ≡ min (sum_by (λ request. request.branches) requests.now) u64.MAX }
{
    let (pages, newest) = requests.parts();
    branches_of_pages(pages).saturating_add(branches_of(newest))
}

/// Whether an application session would have more than 32 branches with so many more.
#[tactic(auto, unfolding(sc_hosts::specs::Refusals::branch_count))]
pub fn passes_branches(view: &View, more: usize) -> bool
    ensures { result ≡ nat_lt 32 (branch_count view.entry.now + more) }
{
    32 < branches_of_all(&view.requests).saturating_add(more as u64)
}

// The bytes of an attribute, none where it has this name.
#[tactic(auto, unfolding(crate::specs::AttributeSums::bytes_beside))]
fn bytes_beside(name: &[u8], field: &Field) -> u64
    ensures { result ≡ min (bytes_beside name.now field.now) u64.MAX }
{
    if field.name.as_bytes() == name {
        return 0;
    }
    (field.name.len() as u64).saturating_add(field.value.len() as u64)
}

// The bytes of all attributes but one of this name.
#[tactic(auto, using(crate::proofs::AttributeSums::bytes_of_others))]
fn other_bytes(name: &[u8], fields: &[Field]) -> u64
    ensures { result ≡ min (attribute_bytes name.now fields.now) u64.MAX }
{
    all_beside(name, fields)
}

fn all_beside(name: &[u8], fields: &[Field]) -> u64
    ensures { result ≡ min (sum_by (bytes_beside name.now) fields.now) u64.MAX }
{
    let mut sum: u64 = 0;
    for field in fields {
        sum = sum.saturating_add(bytes_beside(name, field));
    }
    sum
}

/// Whether the attributes would have more than 4,096 bytes with one of this name and value.
pub fn passes_attributes(view: &View, name: &[u8], value: &[u8]) -> bool
    ensures { result
        ≡ nat_lt 4096
        (attribute_bytes name.now view.entry.now.attributes + length name.now
        + length value.now) }
{
    let others = other_bytes(name, view.attributes.as_slice());
    4096 < others
        .saturating_add(name.len() as u64)
        .saturating_add(value.len() as u64)
}
