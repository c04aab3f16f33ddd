//! Playing: a switch takes turns that are due.

ghost use Rattle.std.specs.Prelude.{◌≡◌, ◌<◌, length, map, option_map, IfOk, IfErr, OnOk, OnErr};
ghost use Rattle.sc_servlets.specs.Stated.{both_charters};
ghost use Rattle.sc_model.specs.Settings.{IsSetup};
ghost use Rattle.sc_hosts.specs.Histories.{as_session};
ghost use Rattle.sc_hosts.specs.Steps.{live_at};
ghost use Rattle.sc_runs.specs.Following.{IsPartRun, IsWholeRun, IsTurnOf, first_number};
ghost use Rattle.sc_switch.specs.Standing.{net_of, Fits};
ghost use Rattle.sc_follow.specs.Moving.{IsUntaken, IsFree, IsCut, IsDone};
ghost use Rattle.sc_follow.specs.Playing.{IsLent, IsRunStopped, IsSameRun, IsTurnStopped, Lends, LendsOf, TookTurn, TookTurnOf, TurnsUpto};

use sc_servlets::{Catalogue, Done, Lease};
use sc_switch::{CommitRefused, Committed, StepRefused, Switch};
use sc_terms::End;
use sc_value::{AppId, Discard, NoMemory};
use std::alloc::Global;

/// Takes turns until no event waits.
///
/// # Errors
///
/// `JournalFull` where the journal has no room for the turn that is due, and `NoMemory`. The turns
/// before it stand.
pub fn play(alloc: Global, switch: &mut Switch, apps: &Catalogue) -> Result<(), StepRefused>
    requires right { IsSetup switch.old.setup }
    requires kinds { switch.old.setup.kinds
        ≡ map
        (λ k.
        both_charters (stated (k.servlet.vtable, k.servlet.value))
        (option_map (λ l. listens (l.vtable, l.value)) k.listener)) apps.now.kinds }
    requires untaken { IsUntaken switch.old }
    requires free { IsFree switch.old }
    ensures ok { OnOk result
        (IsDone (IsWholeRun as_session switch.old.setup (net_of switch.old)) switch.old
        switch.new) }
    ensures err { IfErr result
        (λ cause.
        IsCut (IsPartRun as_session switch.old.setup (net_of switch.old)) switch.old switch.new
        cause) }
{
    while take_turn(alloc, switch, apps)? {}
    Ok(())
}

/// Takes the turn of the lowest event that waits: false exactly where none does.
///
/// # Errors
///
/// As `play`. The run stays as it was.
#[tactic(auto, unfolding(crate::specs::Playing::IsRunStopped))]
fn take_turn(alloc: Global, switch: &mut Switch, apps: &Catalogue) -> Result<bool, StepRefused>
    requires right { IsSetup switch.old.setup }
    requires kinds { switch.old.setup.kinds
        ≡ map
        (λ k.
        both_charters (stated (k.servlet.vtable, k.servlet.value))
        (option_map (λ l. listens (l.vtable, l.value)) k.listener)) apps.now.kinds }
    requires untaken { IsUntaken switch.old }
    requires free { IsFree switch.old }
    ensures took { IfOk result (λ more. TookTurn switch.old switch.new more) }
    ensures same { OnErr result (IsSameRun switch.old switch.new) }
    ensures stopped { IfErr result (λ cause. IsRunStopped switch.old cause) }
{
    match lend(alloc, switch) {
        Ok(Some(lease)) => match bring(alloc, switch, apps, lease) {
            Ok(()) => Ok(true),
            Err(cause) => Err(cause),
        },
        Ok(None) => Ok(false),
        Err(NoMemory) => Err(StepRefused::NoMemory),
    }
}

/// Takes the turn of the first event of a session, where one waits for it.
///
/// # Errors
///
/// As `play`.
pub fn play_of(
    alloc: Global,
    switch: &mut Switch,
    apps: &Catalogue,
    app: AppId,
) -> Result<(), StepRefused>
    requires right { IsSetup switch.old.setup }
    requires kinds { switch.old.setup.kinds
        ≡ map
        (λ k.
        both_charters (stated (k.servlet.vtable, k.servlet.value))
        (option_map (λ l. listens (l.vtable, l.value)) k.listener)) apps.now.kinds }
    requires untaken { IsUntaken switch.old }
    requires free { IsFree switch.old }
    ensures ok { OnOk result
        (IsDone
        (IsTurnOf app (net_of switch.old).moment (first_number (live_at app (net_of switch.old))))
        switch.old switch.new) }
    ensures err { IfErr result
        (λ cause. IsCut (TurnsUpto switch.old app) switch.old switch.new cause) }
{
    match lend_of(alloc, switch, app) {
        Ok(Some(lease)) => match bring(alloc, switch, apps, lease) {
            Ok(()) => Ok(()),
            Err(cause) => Err(cause),
        },
        Ok(None) => Ok(()),
        Err(NoMemory) => Err(StepRefused::NoMemory),
    }
}

/// Lends out the lowest event that waits: None exactly where none does.
fn lend(alloc: Global, switch: &mut Switch) -> Result<Option<Lease>, NoMemory>
    requires right { IsSetup switch.old.setup }
    requires untaken { IsUntaken switch.old }
    requires free { IsFree switch.old }
    ensures lends { IfOk result (λ lease. Lends switch.old switch.new lease) }
    ensures err { OnErr result (switch.new ≡ switch.old) }
{
    switch.show_laws();
    switch.lease(alloc)
}

/// Lends out the first event of a session: None exactly where none waits for it.
fn lend_of(alloc: Global, switch: &mut Switch, app: AppId) -> Result<Option<Lease>, NoMemory>
    requires right { IsSetup switch.old.setup }
    requires untaken { IsUntaken switch.old }
    requires free { IsFree switch.old }
    ensures lends { IfOk result (λ lease. LendsOf app switch.old switch.new lease) }
    ensures err { OnErr result (switch.new ≡ switch.old) }
{
    switch.show_laws();
    switch.lease_of(alloc, app)
}

/// Makes the turn of the live lease, and commits it.
fn bring(
    alloc: Global,
    switch: &mut Switch,
    apps: &Catalogue,
    lease: Lease,
) -> Result<(), StepRefused>
    requires right { IsSetup switch.old.setup }
    requires kinds { switch.old.setup.kinds
        ≡ map
        (λ k.
        both_charters (stated (k.servlet.vtable, k.servlet.value))
        (option_map (λ l. listens (l.vtable, l.value)) k.listener)) apps.now.kinds }
    requires lent { IsLent switch.old lease }
    ensures ok { OnOk result (TookTurnOf switch.old switch.new lease.app lease.event_number) }
    ensures room { OnOk result (length switch.old.journal < switch.old.setup.config.journal_steps) }
    ensures err { OnErr result (switch.new ≡ switch.old) }
    ensures stopped { IfErr result
        (λ cause. IsTurnStopped switch.old lease.app lease.event_number cause) }
{
    settle(alloc, switch, apps.react(alloc, lease))
}

/// Commits a turn, unless it ended for want of memory.
#[tactic(auto, unfolding(crate::specs::Playing::IsTurnStopped, sc_switch::specs::Answers::Received))]
fn settle(alloc: Global, switch: &mut Switch, done: Done) -> Result<(), StepRefused>
    requires right { IsSetup switch.old.setup }
    requires lent { IsLent switch.old done.lease }
    requires fits { Fits switch.old.setup switch.old.kept done }
    ensures ok { OnOk result
        (TookTurnOf switch.old switch.new done.lease.app done.lease.event_number) }
    ensures room { OnOk result (length switch.old.journal < switch.old.setup.config.journal_steps) }
    ensures err { OnErr result (switch.new ≡ switch.old) }
    ensures stopped { IfErr result
        (λ cause. IsTurnStopped switch.old done.lease.app done.lease.event_number cause) }
{
    if let End::Starved = done.end {
        done.discard();
        return Err(StepRefused::NoMemory);
    }
    switch.show_laws();
    match switch.commit(alloc, done) {
        Ok(Committed::Taken) => Ok(()),
        Ok(Committed::Gone(_)) => unreachable!(),
        Ok(Committed::Other(_)) => unreachable!(),
        Err(CommitRefused { done, cause }) => {
            done.discard();
            Err(cause)
        }
    }
}
