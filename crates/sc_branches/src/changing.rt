//! Changes of the branches and the targets of a proxied request.

ghost use Rattle.std.specs.Prelude.{◌≡◌, ◌++◌, map, OnOk};
ghost use Rattle.sc_value.specs.Lists.{change_first};
ghost use Rattle.sc_hosts.specs.Branches.{cancelled_branch, is_branch, with_end, with_targets, without_search};
ghost use Rattle.sc_branches.specs.Changes.{cancelling, with_due};

use crate::options::{branch_place, is_open};
use sc_state::{Branch, Proxy};
use sc_value::{CloneIn, List, NoMemory, Uri};
use std::alloc::Global;

#[tactic(auto, unfolding(crate::specs::Changes::with_due))]
fn with_due(branch: &mut Branch, due: Option<u64>)
    ensures { branch.new ≡ with_due due branch.old }
{
    branch.due = due;
}

/// The timer of the branch of this number is due at this moment, or ends.
#[tactic(auto, using(sc_value::proofs::ListFacts::change_first_position, sc_value::proofs::ListFacts::change_first_none))]
pub fn due_in(branches: &mut [Branch], number: u64, due: Option<u64>)
    ensures { branches.new ≡ change_first (is_branch number) (with_due due) branches.old }
{
    if let Some(at) = branch_place(branches, number) {
        with_due(&mut branches[at], due);
    }
}

#[tactic(auto, unfolding(sc_hosts::specs::Branches::with_end))]
fn with_end(branch: &mut Branch, code: u16)
    ensures { branch.new ≡ with_end code branch.old }
{
    branch.ended = Some(code);
    branch.cancelled = false;
    branch.due = None;
}

/// The branch of this number has a final response of this code.
#[tactic(auto, using(sc_value::proofs::ListFacts::change_first_position, sc_value::proofs::ListFacts::change_first_none))]
pub fn end_in(branches: &mut [Branch], number: u64, code: u16)
    ensures { branches.new ≡ change_first (is_branch number) (with_end code) branches.old }
{
    if let Some(at) = branch_place(branches, number) {
        with_end(&mut branches[at], code);
    }
}

#[tactic(auto, unfolding(crate::specs::Changes::cancelling))]
fn cancelling(branch: &mut Branch)
    ensures { branch.new ≡ cancelling branch.old }
{
    branch.cancelled = true;
    branch.due = None;
}

/// The branch of this number is to be cancelled, and its timer ends.
#[tactic(auto, using(sc_value::proofs::ListFacts::change_first_position, sc_value::proofs::ListFacts::change_first_none))]
pub fn cancel_in(branches: &mut [Branch], number: u64)
    ensures { branches.new ≡ change_first (is_branch number) cancelling branches.old }
{
    if let Some(at) = branch_place(branches, number) {
        cancelling(&mut branches[at]);
    }
}

#[tactic(auto, unfolding(sc_hosts::specs::Branches::cancelled_branch))]
fn cancelled_branch(branch: &mut Branch)
    ensures { branch.new ≡ cancelled_branch branch.old }
{
    if is_open(branch) {
        branch.cancelled = true;
    }
}

#[tactic(auto, using(crate::proofs::Mapping::mapped_next))]
fn cancel_all(branches: &mut [Branch])
    ensures { branches.new ≡ map cancelled_branch branches.old }
{
    for branch in branches {
        cancelled_branch(branch);
    }
}

/// No further target, and a CANCEL to each open branch.
#[tactic(auto, unfolding(sc_hosts::specs::Branches::without_search))]
pub fn stopped(proxy: &mut Proxy)
    ensures { proxy.new ≡ without_search proxy.old }
{
    proxy.targets.items.clear();
    proxy.settled = true;
    cancel_all(&mut proxy.branches.items);
}

/// These targets more.
#[tactic(auto, unfolding(sc_hosts::specs::Branches::with_targets))]
pub fn with_targets(alloc: Global, proxy: &mut Proxy, uris: &[Uri]) -> Result<(), NoMemory>
    ensures { OnOk result (proxy.new ≡ with_targets uris.now proxy.old) }
{
    add_uris(alloc, &mut proxy.tried, uris)?;
    add_uris(alloc, &mut proxy.targets, uris)
}

fn add_uris(alloc: Global, list: &mut List<Uri>, uris: &[Uri]) -> Result<(), NoMemory>
    ensures { OnOk result (list.new ≡ list.old ++ uris.now) }
{
    for uri in uris {
        let copy = uri.clone_in(alloc)?;
        list.push(copy)?;
    }
    Ok(())
}
