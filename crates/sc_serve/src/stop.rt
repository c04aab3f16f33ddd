ghost use Rattle.std.specs.Prelude.{◌≡◌, ◌⊎◌};
ghost use Rattle.sc_switch.specs.Standing.{Known};
ghost use Rattle.sc_rounds.specs.Dues.{HasDue};
ghost use Rattle.sc_serve.specs.Running.{IsDueAt};

use sc_switch::StepRefused;

/// Why a run can't go on.
#[derive(Clone, Copy, Debug, PartialEq, Eq)]
pub enum Stop {
    /// A step was due that the journal had no room for.
    JournalFull,
    /// The edge can't listen.
    Edge,
    /// Want of memory.
    NoMemory,
}

/// The cause, where a step was refused.
pub fn stop_of(cause: StepRefused) -> Stop
    ensures cause { (result ≡ Stop.JournalFull) ⊎ (result ≡ Stop.NoMemory) }
    ensures due { (known : Known) → HasDue known cause → IsDueAt known result }
{
    match cause {
        StepRefused::JournalFull { .. } => Stop::JournalFull,
        StepRefused::NoMemory => Stop::NoMemory,
    }
}
