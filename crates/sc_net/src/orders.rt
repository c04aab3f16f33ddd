//! What a session gives to send, order by order.

ghost use Rattle.std.specs.Prelude.{◌≡◌, OnOk};
ghost use Rattle.sc_model.specs.Choices.{choice_of};
ghost use Rattle.sc_hosts.specs.Nets.{after_orders, begin_by, obey};

use crate::cancels::cancel;
use sc_parts::Setup;
use sc_router::next;
use sc_state::{Net, Order, Session};
use sc_value::{AppId, Directive, NoMemory, Region, Request, Shared};
use sc_wire::{acknowledge, begin_by, respond, send_later};
use std::alloc::Global;

fn begin(
    alloc: Global,
    setup: &Setup,
    app: AppId,
    branch: u64,
    directive: Directive,
    region: Region,
    state: Option<u32>,
    request: &Shared<Request>,
    net: &mut Net<Session>,
) -> Result<(), NoMemory>
    ensures { OnOk result
        (net.new
        ≡ begin_by setup.now.config app branch request.now
        (choice_of setup.now.config setup.now.dar request.now region directive state) net.old) }
{
    let choice = next(
        alloc,
        &setup.config,
        &setup.dar,
        request.get(),
        region,
        directive,
        state,
    )?;
    begin_by(alloc, &setup.config, app, branch, request, choice, net)
}

/// One order of a session.
#[tactic(auto, unfolding(sc_hosts::specs::Nets::obey))]
pub fn obey(
    alloc: Global,
    setup: &Setup,
    app: AppId,
    net: &mut Net<Session>,
    order: &Order,
) -> Result<(), NoMemory>
    ensures { OnOk result (net.new ≡ obey setup.now app net.old order.now) }
{
    match order {
        Order::Respond { event, response } => respond(alloc, app, *event, response, net),
        Order::Begin {
            branch,
            directive,
            region,
            state,
            request,
        } => begin(
            alloc, setup, app, *branch, *directive, *region, *state, request, net,
        ),
        Order::Send { branch, request } => {
            send_later(alloc, &setup.config, app, *branch, request, net)
        }
        Order::Acknowledge { request } => { acknowledge(alloc, &setup.config, app, request, net) }
        Order::Cancel { branch } => cancel(alloc, app, *branch, false, net),
        Order::CancelNow { branch } => cancel(alloc, app, *branch, true, net),
    }
}

/// All orders of a session, in turn.
#[tactic(auto, unfolding(sc_hosts::specs::Nets::after_orders))]
pub fn obeyed(
    alloc: Global,
    setup: &Setup,
    app: AppId,
    given: &[Order],
    net: &mut Net<Session>,
) -> Result<(), NoMemory>
    ensures { OnOk result (net.new ≡ after_orders setup.now app given.now net.old) }
{
    for order in given {
        obey(alloc, setup, app, net, order)?;
    }
    Ok(())
}
