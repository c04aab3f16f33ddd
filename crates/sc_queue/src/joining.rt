//! Newest items that become a part of a long list.

ghost use Rattle.std.specs.Prelude.{◌≡◌, ◌++◌, ◌≤◌, length, IfOk};
ghost use Rattle.sc_queue.specs.Joined.{joined};

use crate::copies::{add_items, add_parts};
use sc_value::{CloneIn, List, NoMemory, Shared};
use std::alloc::Global;

/// How many of the parts stay as they are where so many items become a part: from the end on, those
/// are joined with it that aren't longer. So each is longer than all behind it, and they are few.
fn staying<T>(parts: &[Shared<List<T>>], count: usize) -> usize
    ensures { result ≤ length parts.now }
{
    let mut at = parts.len();
    let mut joined = count;
    while 0 < at && parts[at - 1].get().len() <= joined {
        at -= 1;
        joined = joined.saturating_add(parts[at].get().len());
    }
    at
}

fn whole<T: CloneIn>(
    alloc: Global,
    parts: &[Shared<List<T>>],
    newest: &[T],
) -> Result<List<T>, NoMemory>
    ensures { IfOk result (λ part. part ≡ joined parts.now ++ newest.now) }
{
    let mut part = List::new(alloc);
    add_parts(alloc, parts, &mut part)?;
    add_items(alloc, newest, &mut part)?;
    Ok(part)
}

fn owners<T: Drop>(
    alloc: Global,
    parts: &[Shared<List<T>>],
) -> Result<List<Shared<List<T>>>, NoMemory>
    ensures { IfOk result (λ owners. owners ≡ parts.now) }
{
    let mut owners = List::new(alloc);
    add_items(alloc, parts, &mut owners)?;
    Ok(owners)
}

#[tactic(auto, using(crate::proofs::Parts::joined_behind))]
fn with_part<T: CloneIn>(
    alloc: Global,
    front: &[Shared<List<T>>],
    back: &[Shared<List<T>>],
    newest: &[T],
) -> Result<List<Shared<List<T>>>, NoMemory>
    ensures { IfOk result
        (λ all. joined all ≡ joined front.now ++ (joined back.now ++ newest.now)) }
{
    let mut all = owners(alloc, front)?;
    let part = whole(alloc, back, newest)?;
    let part = Shared::new(alloc, part)?;
    all.push(part)?;
    Ok(all)
}

/// The parts with the newest items as one part more.
#[tactic(auto, using(crate::proofs::Parts::joined_split))]
pub fn grown<T: CloneIn>(
    alloc: Global,
    parts: &[Shared<List<T>>],
    newest: &[T],
) -> Result<List<Shared<List<T>>>, NoMemory>
    ensures { IfOk result (λ all. joined all ≡ joined parts.now ++ newest.now) }
{
    let at = staying(parts, newest.len());
    let (front, back) = parts.split_at(at);
    with_part(alloc, front, back, newest)
}
