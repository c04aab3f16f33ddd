//! Kept and proxied requests by their numbers, and those with which a walk finds nothing to do.

ghost use Rattle.std.specs.Prelude.{◌≡◌, true};
ghost use Rattle.std.specs.List.{list_all};
ghost use Rattle.sc_state.specs.Resting.{has_no_timer, is_resting};

use crate::{Branch, Invited, Kept, Proxy};
use sc_pages::Paged;

impl Paged for Kept {
    ghost number = { λ kept. kept.id.0 };

    ghost rests = { λ _. true };

    fn number(&self) -> u32 {
        self.id.0
    }

    fn rests(&self) -> bool {
        true
    }
}

impl Paged for Invited {
    ghost number = { λ invited. invited.req.0 };

    ghost rests = { λ _. true };

    fn number(&self) -> u32 {
        self.req.0
    }

    fn rests(&self) -> bool {
        true
    }
}

fn has_no_timer(branch: &Branch) -> bool
    ensures { result ≡ has_no_timer branch.now }
{
    branch.due.is_none() && !branch.cancelled
}

fn have_no_timer(branches: &[Branch]) -> bool
    ensures { result ≡ list_all has_no_timer branches.now }
{
    branches.iter().all(|branch| has_no_timer(branch))
}

#[tactic(auto, unfolding(crate::specs::Resting::is_resting))]
fn is_resting(proxy: &Proxy) -> bool
    ensures { result ≡ is_resting proxy.now }
{
    proxy.targets.is_empty()
        && proxy.candidates.is_empty()
        && proxy.passing.is_none()
        && !proxy.heard_final
        && have_no_timer(proxy.branches.as_slice())
}

impl Paged for Proxy {
    ghost number = { λ proxy. proxy.req.0 };

    ghost rests = { λ proxy. is_resting proxy };

    fn number(&self) -> u32 {
        self.req.0
    }

    fn rests(&self) -> bool {
        is_resting(self)
    }
}
