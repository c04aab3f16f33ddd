//! What is brought to be taken: a step, or a turn that was made; its step, and the number of its
//! lease.

ghost use Rattle.std.specs.Prelude.{◌≡◌};
ghost use Rattle.sc_switch.specs.Standing.{step_of};
ghost use Rattle.sc_switch.specs.Stepping.{taken_step};

use crate::refused::Committed;
use sc_servlets::Done;
use sc_terms::Step;
use sc_value::Discard;

/// What is taken as the next step.
#[derive(Drop)]
pub enum Taken {
    /// A step.
    Step(Step),
    /// A turn that was made.
    Turn(Done),
}

impl Discard for Taken {
    fn discard(self) {
        match self {
            Taken::Step(step) => step.discard(),
            Taken::Turn(done) => done.discard(),
        }
    }
}

/// The step that is taken.
#[tactic(auto, unfolding(crate::specs::Stepping::taken_step))]
pub fn taken_step(taken: Taken) -> Step
    ensures { result ≡ taken_step taken }
{
    match taken {
        Taken::Step(step) => step,
        Taken::Turn(done) => step_of(done),
    }
}

/// The step of a turn that was made.
#[tactic(auto, unfolding(crate::specs::Standing::step_of))]
fn step_of(done: Done) -> Step
    ensures { result ≡ step_of done }
{
    let Done {
        lease,
        calls,
        end,
        ..
    } = done;
    let step = Step::Turn {
        app: lease.app,
        event: lease.event_number,
        now: lease.shown.get().now,
        calls,
        end,
    };
    lease.discard();
    step
}

/// Lets a turn go whose lease isn't live.
pub fn gone(done: Done) -> Committed
    ensures { result ≡ Committed.Gone done.lease.number }
{
    Committed::Gone(number_of(done))
}

/// Lets a turn go; the number of its lease.
pub fn number_of(done: Done) -> u64
    ensures { result ≡ done.lease.number }
{
    let number = done.lease.number;
    done.discard();
    number
}
