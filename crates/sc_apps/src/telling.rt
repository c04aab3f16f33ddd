//! What a call answers that was refused.

ghost use Rattle.sc_apps.specs.Scripted.{IsTold};

use sc_terms::{CallAnswer, Refusal};
use sc_value::NoMemory;

/// What a refused call answers. For want of memory the turn is over.
#[tactic(auto, unfolding(crate::specs::Scripted::IsTold))]
pub fn told(refused: Refusal) -> Result<CallAnswer, NoMemory>
    ensures { IsTold refused result }
{
    if refused == Refusal::NoMemory {
        Err(NoMemory)
    } else {
        Ok(CallAnswer::Refused(refused))
    }
}
