//! Each step.

ghost use Rattle.std.specs.Prelude.{◌≡◌, [], IfSome, OnOk};
ghost use Rattle.sc_terms.specs.declared.steps.Step.TheVariants as steps;
ghost use Rattle.sc_hosts.specs.Histories.{as_session};
ghost use Rattle.sc_hosts.specs.Runs.{after_step};
ghost use Rattle.sc_hosts.specs.Arrivals.{bad_by};
ghost use Rattle.sc_hosts.specs.Nets.{host_at};
ghost use Rattle.sc_hosts.specs.Steps.{before_delivery, live_at, ringing_at};
ghost use Rattle.sc_steps.specs.TurnParts.{Begins};

use crate::endings::withdrawn;
use crate::turning::turns;
use sc_arrivals::{answer_bad, arrived};
use sc_finish::Made;
use sc_net::delivered;
use sc_parts::Setup;
use sc_state::{Net, Prepared, Session};
use sc_terms::{Bad, Config, Step};
use sc_ticks::{lost, ticked};
use sc_value::{Boxed, List, NoMemory, Place};
use std::alloc::Global;

fn nothing_sent(alloc: Global, net: &mut Net<Session>)
    ensures { net.new ≡ record net.old { sent = [] } }
{
    net.sent = List::new(alloc);
}

#[tactic(auto, unfolding(sc_hosts::specs::Arrivals::bad_by))]
fn bad_arrived(
    alloc: Global,
    config: &Config,
    from: Place,
    bad: &Bad,
    net: &mut Net<Session>,
) -> Result<(), NoMemory>
    ensures { OnOk result (net.new ≡ bad_by config.now from bad.now.heads net.old) }
{
    match &bad.heads {
        Some(heads) => answer_bad(alloc, config, from, heads.get(), net),
        None => Ok(()),
    }
}

/// A step, before anything is delivered.
#[tactic(auto, unfolding(sc_hosts::specs::Steps::before_delivery))]
fn stepped(
    alloc: Global,
    setup: &Setup,
    step: &Step,
    net: &mut Net<Session>,
) -> Result<(), NoMemory>
    ensures { OnOk result (net.new ≡ before_delivery as_session setup.now step.now net.old) }
{
    match step {
        Step::In(from, message) => arrived(alloc, setup, *from, message, net),
        Step::Bad(from, bad) => bad_arrived(alloc, &setup.config, *from, bad, net),
        Step::Lost(place) => lost(alloc, &setup.config, *place, net),
        Step::Tick(now) => ticked(alloc, &setup.config, *now, net),
        Step::Turn {
            app,
            event,
            now,
            calls,
            end,
        } => {
            let made = Made {
                app: *app,
                event: *event,
                moment: *now,
                calls: calls.as_slice(),
                end: *end,
            };
            turns(alloc, setup, None, &made, net)
        }
        Step::Withdraw(app) => withdrawn(alloc, setup, *app, net),
    }
}

/// What a step makes of a net: all that it sends outside stands in `sent`, and no message is on its
/// way.
#[tactic(auto, unfolding(sc_hosts::specs::Runs::after_step))]
pub fn after_step(
    alloc: Global,
    setup: &Setup,
    step: &Step,
    net: &mut Net<Session>,
) -> Result<(), NoMemory>
    ensures { OnOk result (net.new ≡ after_step as_session setup.now net.old step.now) }
{
    nothing_sent(alloc, net);
    stepped(alloc, setup, step, net)?;
    delivered(alloc, setup, net)
}

/// What a turn that was made makes of a net, as `after_step`; it may be known already what the turn
/// begins with.
#[tactic(auto, unfolding(sc_hosts::specs::Runs::after_step, sc_hosts::specs::Steps::before_delivery))]
pub fn after_begun(
    alloc: Global,
    setup: &Setup,
    begun: Option<Boxed<Prepared>>,
    made: &Made<'_>,
    net: &mut Net<Session>,
) -> Result<(), NoMemory>
    requires { IfSome begun
        (λ shown.
        Begins setup.now.config (ringing_at made.now.app (host_at made.now.app.host net.old))
        (live_at made.now.app net.old) made.now.moment shown) }
    ensures { OnOk result
        (net.new
        ≡ after_step as_session setup.now net.old
        (Step.Turn made.now.end made.now.app made.now.event made.now.moment made.now.calls.now)) }
{
    nothing_sent(alloc, net);
    turns(alloc, setup, begun, made, net)?;
    delivered(alloc, setup, net)
}
