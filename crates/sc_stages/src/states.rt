//! States of a transaction.

ghost use Rattle.std.specs.Prelude.{◌≡◌};
ghost use Rattle.sc_stages.specs.States.{is_over, is_proceeding, is_completed};

use sc_parts::TxnState;

/// Whether the state is that of a transaction that is over.
#[tactic(auto, unfolding(crate::specs::States::is_over))]
pub fn is_over(state: TxnState) -> bool
    ensures { result ≡ is_over state }
{
    state == TxnState::Terminated
}

/// Whether the state is Proceeding.
#[tactic(auto, unfolding(crate::specs::States::is_proceeding))]
pub fn is_proceeding(state: TxnState) -> bool
    ensures { result ≡ is_proceeding state }
{
    state == TxnState::Proceeding
}

/// Whether the state is Completed.
#[tactic(auto, unfolding(crate::specs::States::is_completed))]
pub fn is_completed(state: TxnState) -> bool
    ensures { result ≡ is_completed state }
{
    state == TxnState::Completed
}
