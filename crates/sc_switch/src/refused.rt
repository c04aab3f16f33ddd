//! Why a step was refused, what became of a turn, and why an epoch goes on.

ghost use Rattle.std.specs.Prelude.{◌≡◌, Ok, IfErr, IsErr, OnErr, OnOk};
ghost use Rattle.sc_servlets.specs.declared.done.Done.{Done};

use crate::brought::Taken;
use sc_journal::Journal;
use sc_servlets::Done;
use sc_terms::Step;
use sc_value::Discard;
use std::alloc::AllocError;

/// Why a step was refused. Nothing is changed and no message is sent.
#[derive(Clone, Copy, Debug, PartialEq, Eq)]
pub enum StepRefused {
    /// The journal has its most steps, or with this step would have more than its most bytes; the
    /// two limits.
    JournalFull { steps: u64, bytes: u64 },
    /// Want of memory.
    NoMemory,
}

/// A step or a turn that was refused, handed back.
#[derive(Drop)]
pub struct Untaken {
    pub taken: Taken,
    pub cause: StepRefused,
}

/// What became of a turn that was brought.
#[derive(Clone, Copy, Debug, PartialEq, Eq)]
pub enum Committed {
    /// It is the last step of the journal.
    Taken,
    /// No lease of its number is live; the number. Nothing is changed.
    Gone(u64),
    /// The brought lease or its charters aren't those of the live lease of its number; the number.
    /// That lease ends, and its event can be leased again.
    Other(u64),
}

/// A turn that was refused: it is handed back, and its lease stays live.
#[derive(Drop)]
pub struct CommitRefused {
    pub done: Done,
    pub cause: StepRefused,
}

/// An epoch that ended.
#[derive(Drop)]
pub struct Epoch {
    /// Its number, from 0.
    pub number: u32,
    /// Its first moment, in milliseconds.
    pub began: u64,
    /// Its journal, or what of it wasn't handed on before.
    pub journal: Journal<Step>,
}

/// Why an epoch goes on: the first that there is of these. Nothing is changed.
#[derive(Clone, Copy, Debug, PartialEq, Eq)]
pub enum EpochRefused {
    /// So many application sessions live.
    Live(u64),
    /// So many transactions aren't Terminated yet.
    Busy(u64),
    /// So many messages were sent and not taken yet.
    Unsent(u64),
    /// It is the last one, of the number 4,294,967,295.
    Last,
}

impl From<AllocError> for StepRefused {
    ghost use Rattle.std.specs.Prelude.{◌≡◌};
    ghost use Rattle.sc_switch.specs.declared.refused.StepRefused.TheVariants.{NoMemory};

    ghost from_gives = { λ _ e. e ≡ NoMemory };

    fn from(_cause: AllocError) -> StepRefused {
        StepRefused::NoMemory
    }
}

impl From<sc_value::NoMemory> for StepRefused {
    ghost use Rattle.std.specs.Prelude.{◌≡◌};
    ghost use Rattle.sc_switch.specs.declared.refused.StepRefused.TheVariants.{NoMemory};

    ghost from_gives = { λ _ e. e ≡ NoMemory };

    fn from(_cause: sc_value::NoMemory) -> StepRefused {
        StepRefused::NoMemory
    }
}

/// Lets go of a step that was refused.
pub fn told(answer: Result<(), Untaken>) -> Result<(), StepRefused>
    ensures ok { OnOk result (answer ≡ Ok tt) }
    ensures err { IfErr result (λ cause. IfErr answer (λ untaken. untaken.cause ≡ cause)) }
    ensures is_err { OnErr result (IsErr answer) }
{
    match answer {
        Ok(()) => Ok(()),
        Err(Untaken { taken, cause }) => {
            taken.discard();
            Err(cause)
        }
    }
}

/// The turn that was refused.
pub fn refused_turn(untaken: Untaken) -> CommitRefused
    requires { (done : Done) × (untaken.taken ≡ Taken.Turn done) }
    ensures done { untaken.taken ≡ Taken.Turn result.done }
    ensures cause { untaken.cause ≡ result.cause }
{
    let Untaken { taken, cause } = untaken;
    match taken {
        Taken::Turn(done) => CommitRefused { done, cause },
        Taken::Step(_) => unreachable!(),
    }
}
