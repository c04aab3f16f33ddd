//! Where the calls of a helper stop, and how many of them were accepted before.

ghost use Rattle.std.specs.Prelude.{◌≡◌, ◌<◌};
ghost use Rattle.sc_helpers.specs.Stopping.{IsCounted, IsHeard};

use sc_terms::Refusal;
use sc_value::NoMemory;

/// Where the calls of a helper stopped: the turn refused one of them, and none is made behind it.
#[derive(Clone, Copy, Debug, PartialEq, Eq)]
pub struct Stopped {
    /// Why the turn refused the call. It is `NoMemory` too where memory was wanting for what the
    /// call names.
    pub refusal: Refusal,
    /// How many calls of the helper were accepted before that one.
    pub made: u8,
}

/// Memory was wanting behind so many accepted calls.
pub fn wanting(made: u8) -> Stopped
    ensures { result ≡ record { refusal = Refusal.NoMemory; made = made } }
{
    Stopped {
        refusal: Refusal::NoMemory,
        made,
    }
}

/// How many calls were accepted after one that was answered so, or where they stopped.
#[tactic(auto, unfolding(crate::specs::Stopping::IsCounted))]
pub fn counted(made: u8, told: Result<(), Refusal>) -> Result<u8, Stopped>
    requires few { made < 100 }
    ensures { IsCounted made told result }
{
    match told {
        Ok(()) => Ok(made + 1),
        Err(refusal) => Err(Stopped { refusal, made }),
    }
}

/// A servlet whose helper stopped makes no further call; for want of memory its turn is over.
#[tactic(auto, unfolding(crate::specs::Stopping::IsHeard))]
pub fn heard(stop: Stopped) -> Result<(), NoMemory>
    ensures { IsHeard stop result }
{
    if stop.refusal == Refusal::NoMemory {
        Err(NoMemory)
    } else {
        Ok(())
    }
}
