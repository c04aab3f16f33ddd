ghost use Rattle.std.specs.Prelude.{◌≡◌};
ghost use Rattle.sc_pages.specs.Scopes.{may_have};

use crate::outline::Outline;

/// Which items can pass a test, as far as their pages tell.
#[derive(Clone, Copy)]
pub enum Scope {
    /// Any.
    All,
    /// Those that don't rest.
    Busy,
    /// Those of this number.
    Number(u32),
}

/// Whether a page of this outline may have an item of the scope.
#[tactic(auto, unfolding(crate::specs::Scopes::may_have))]
pub fn may_have(scope: Scope, outline: Outline) -> bool
    ensures { result ≡ may_have scope outline }
{
    match scope {
        Scope::All => true,
        Scope::Busy => !outline.rests,
        Scope::Number(number) => outline.least <= number && number <= outline.most,
    }
}
