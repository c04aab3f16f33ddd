//! One step of a switch that has no live lease.

ghost use Rattle.std.specs.Prelude.{◌≡◌, ◌≤◌, ◌<◌, length, IfErr, IfOk, OnOk, OnErr};
ghost use Rattle.sc_terms.specs.declared.steps.Step.TheVariants as steps;
ghost use Rattle.sc_hosts.specs.Runs.{HasVia};
ghost use Rattle.sc_switch.specs.Standing.{net_of};
ghost use Rattle.sc_follow.specs.Moving.{IsUntaken, IsFree, TookStep, IsStopped, Withdrew, IsStillThere};

use sc_switch::{StepRefused, Switch};
use sc_terms::{Bad, Step};
use sc_value::{AppId, Message, Place};
use std::alloc::Global;

/// A message came.
pub fn arrive(
    alloc: Global,
    switch: &mut Switch,
    from: Place,
    message: Message,
) -> Result<(), StepRefused>
    requires via { HasVia message }
    requires untaken { IsUntaken switch.old }
    requires free { IsFree switch.old }
    ensures ok { OnOk result (TookStep switch.old switch.new (Step.In from message)) }
    ensures room { OnOk result (length switch.old.journal < switch.old.setup.config.journal_steps) }
    ensures err { OnErr result (switch.new ≡ switch.old) }
    ensures stopped { IfErr result (λ cause. IsStopped switch.old (Step.In from message) cause) }
{
    switch.show_laws();
    switch.arrive(alloc, from, message)
}

/// A text came that is no message.
pub fn hear_bad(
    alloc: Global,
    switch: &mut Switch,
    from: Place,
    bad: Bad,
) -> Result<(), StepRefused>
    requires untaken { IsUntaken switch.old }
    requires free { IsFree switch.old }
    ensures ok { OnOk result (TookStep switch.old switch.new (Step.Bad from bad)) }
    ensures err { OnErr result (switch.new ≡ switch.old) }
    ensures stopped { IfErr result (λ cause. IsStopped switch.old (Step.Bad from bad) cause) }
{
    switch.hear_bad(alloc, from, bad)
}

/// A place is lost.
pub fn lost(alloc: Global, switch: &mut Switch, at: Place) -> Result<(), StepRefused>
    requires untaken { IsUntaken switch.old }
    requires free { IsFree switch.old }
    ensures ok { OnOk result (TookStep switch.old switch.new (Step.Lost at)) }
    ensures err { OnErr result (switch.new ≡ switch.old) }
    ensures stopped { IfErr result (λ cause. IsStopped switch.old (Step.Lost at) cause) }
{
    switch.lost(alloc, at)
}

/// The clock reaches a moment.
pub fn tick(alloc: Global, switch: &mut Switch, now: u64) -> Result<(), StepRefused>
    requires later { (net_of switch.old).moment ≤ now }
    requires within { now ≤ 9223372036854775808 }
    requires untaken { IsUntaken switch.old }
    requires free { IsFree switch.old }
    ensures ok { OnOk result (TookStep switch.old switch.new (Step.Tick now)) }
    ensures err { OnErr result (switch.new ≡ switch.old) }
    ensures stopped { IfErr result (λ cause. IsStopped switch.old (Step.Tick now) cause) }
{
    switch.tick(alloc, now)
}

/// An application session is ended, where it lives.
pub fn withdraw(alloc: Global, switch: &mut Switch, app: AppId) -> Result<bool, StepRefused>
    requires untaken { IsUntaken switch.old }
    requires free { IsFree switch.old }
    ensures ok { IfOk result (λ lived. Withdrew switch.old switch.new app lived) }
    ensures err { OnErr result (switch.new ≡ switch.old) }
    ensures stopped { IfErr result (λ cause. IsStillThere switch.old app cause) }
{
    switch.withdraw(alloc, app)
}
