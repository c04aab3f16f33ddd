//! Timers by the moment at which they began, in milliseconds.

ghost use Rattle.std.specs.Prelude.{◌≡◌, IfOk};
ghost use Rattle.sc_model.specs.Transactions.{is_reached};
ghost use Rattle.sc_stages.specs.Stages.{due_since};

use sc_value::{NoMemory, sum};

/// 64*T1: timers B, F, H, L and M, and the time after a CANCEL.
pub const TIMEOUT: u64 = 32_000;

/// Whether a timer that began at this moment is due by another.
#[tactic(auto, unfolding(sc_model::specs::Transactions::is_reached))]
pub fn is_reached(begun: Option<u64>, moment: u64) -> bool
    ensures { result ≡ is_reached (due_since begun) moment }
{
    match begun {
        Some(begun) => TIMEOUT <= moment && begun <= moment - TIMEOUT,
        None => false,
    }
}

/// When it is due.
pub fn due_since(begun: Option<u64>) -> Result<Option<u64>, NoMemory>
    ensures { IfOk result (λ due. due ≡ due_since begun) }
{
    match begun {
        Some(begun) => Ok(Some(sum(begun, TIMEOUT)?)),
        None => Ok(None),
    }
}
