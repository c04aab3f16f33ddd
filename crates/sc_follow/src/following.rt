//! All lines of a script.

ghost use Rattle.std.specs.Prelude.{◌≡◌, [], map, option_map, IfErr, OnOk};
ghost use Rattle.sc_servlets.specs.Stated.{both_charters};
ghost use Rattle.sc_model.specs.Settings.{IsSetup};
ghost use Rattle.sc_hosts.specs.Histories.{as_session};
ghost use Rattle.sc_runs.specs.Following.{Follows};
ghost use Rattle.sc_follow.specs.Moving.{IsUntaken};
ghost use Rattle.sc_follow.specs.Leading.{IsNew, IsFollowed, IsLeft, IsStoppedIn};

use crate::lines::do_line;
use sc_servlets::Catalogue;
use sc_streams::Streams;
use sc_switch::{StepRefused, Switch};
use sc_terms::Line;
use std::alloc::Global;

/// Lets a switch that took no step take the steps that the lines of a script say.
///
/// # Errors
///
/// `JournalFull` where the journal has no room for the step that is due, and `NoMemory`. The steps
/// before it stand.
pub fn follow(
    alloc: Global,
    switch: &mut Switch,
    lines: &[Line],
    apps: &Catalogue,
) -> Result<(), StepRefused>
    requires new { IsNew switch.old }
    requires right { IsSetup switch.old.setup }
    requires kinds { switch.old.setup.kinds
        ≡ map
        (λ k.
        both_charters (stated (k.servlet.vtable, k.servlet.value))
        (option_map (λ l. listens (l.vtable, l.value)) k.listener)) apps.now.kinds }
    ensures setup { switch.new.setup ≡ switch.old.setup }
    ensures epoch { switch.new.epoch ≡ 0 }
    ensures began { switch.new.began ≡ 0 }
    ensures handed { switch.new.handed ≡ [] }
    ensures untaken { IsUntaken switch.new }
    ensures follows { OnOk result
        (Follows as_session switch.old.setup lines.now switch.new.journal) }
    ensures stopped { IfErr result
        (λ cause. IsStoppedIn switch.old.setup lines.now switch.new.journal cause) }
{
    let followed = follow_lines(alloc, switch, lines, apps);
    switch.show_laws();
    followed
}

fn follow_lines(
    alloc: Global,
    switch: &mut Switch,
    lines: &[Line],
    apps: &Catalogue,
) -> Result<(), StepRefused>
    requires new { IsNew switch.old }
    requires right { IsSetup switch.old.setup }
    requires kinds { switch.old.setup.kinds
        ≡ map
        (λ k.
        both_charters (stated (k.servlet.vtable, k.servlet.value))
        (option_map (λ l. listens (l.vtable, l.value)) k.listener)) apps.now.kinds }
    ensures ok { OnOk result (IsFollowed switch.old.setup lines.now switch.new) }
    ensures err { IfErr result (λ cause. IsLeft switch.old.setup lines.now switch.new cause) }
{
    let mut streams = Streams::new(alloc);
    for line in lines {
        do_line(alloc, switch, &mut streams, apps, line)?;
    }
    Ok(())
}
