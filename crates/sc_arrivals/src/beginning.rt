//! Requests that may begin a session: the router says of which application.

ghost use Rattle.std.specs.Prelude.{◌≡◌, is_some, if◌then◌else◌, IfOk, OnOk};
ghost use Rattle.std.specs.Option.{option_copied};
ghost use Rattle.sc_model.specs.Choices.{choice_of};
ghost use Rattle.sc_hosts.specs.Histories.{as_session};
ghost use Rattle.sc_hosts.specs.Routes.{position_of, popped_route, unrouted_initial};
ghost use Rattle.sc_hosts.specs.Arrivals.{begins_by, initial_arrives};

use crate::answers::answer_not_found;
use crate::messages::take_request;
use sc_parts::{Choice, Setup};
use sc_router::next;
use sc_state::{Net, Note, Session};
use sc_transact::is_ack;
use sc_value::{Address, NoMemory, Place, Request, Shared, copied};
use sc_wire::{Position, popped_route, position_of, unrouted_initial};
use std::alloc::Global;

// The Route that the router took off, else that which the container did.
fn route_taken(
    alloc: Global,
    route: Option<Address>,
    popped: Option<&Address>,
) -> Result<Option<Address>, NoMemory>
    ensures { IfOk result
        (λ taken. taken ≡ (if is_some route then route else option_copied popped.entry)) }
{
    match route {
        Some(route) => Ok(Some(route)),
        None => copied(alloc, popped),
    }
}

#[tactic(auto, unfolding(sc_hosts::specs::Arrivals::begins_by))]
fn begins_by(
    alloc: Global,
    setup: &Setup,
    from: Place,
    request: &Shared<Request>,
    popped: Option<&Address>,
    choice: Choice,
    net: &mut Net<Session>,
) -> Result<(), NoMemory>
    ensures { OnOk result
        (net.new
        ≡ begins_by as_session setup.now from request.now (option_copied popped.entry) choice
        net.old) }
{
    match choice {
        Choice::App {
            host,
            order,
            region,
            subscriber,
            popped: route,
        } => {
            let popped = route_taken(alloc, route, popped)?;
            let noted = Some(Note {
                order,
                region,
                subscriber,
                popped,
            });
            take_request(alloc, setup, from, &noted, request, host, net)
        }
        Choice::Send(_) => answer_not_found(alloc, &setup.config, from, request.get(), net),
        Choice::Onward => answer_not_found(alloc, &setup.config, from, request.get(), net),
        Choice::NotFound => answer_not_found(alloc, &setup.config, from, request.get(), net),
    }
}

fn chosen(
    alloc: Global,
    setup: &Setup,
    request: &Request,
    position: Position,
) -> Result<Choice, NoMemory>
    ensures { IfOk result
        (λ c.
        c
        ≡ choice_of setup.now.config setup.now.dar request.now position.region
        position.directive position.state) }
{
    next(
        alloc,
        &setup.config,
        &setup.dar,
        request,
        position.region,
        position.directive,
        position.state,
    )
}

fn begins(
    alloc: Global,
    setup: &Setup,
    from: Place,
    request: &Shared<Request>,
    net: &mut Net<Session>,
) -> Result<(), NoMemory>
    ensures { OnOk result
        (net.new
        ≡ begins_by as_session setup.now from (unrouted_initial setup.now.config request.now)
        (popped_route setup.now.config request.now)
        (choice_of setup.now.config setup.now.dar
        (unrouted_initial setup.now.config request.now)
        (position_of setup.now.config request.now).region
        (position_of setup.now.config request.now).directive
        (position_of setup.now.config request.now).state) net.old) }
{
    let position = position_of(alloc, &setup.config, request.get())?;
    let popped = popped_route(alloc, &setup.config, request.get())?;
    let unrouted = unrouted_initial(alloc, &setup.config, request)?;
    let choice = chosen(alloc, setup, unrouted.get(), position)?;
    begins_by(alloc, setup, from, &unrouted, popped, choice, net)
}

/// A request that may begin a session does so where the router has an application for it.
#[tactic(auto, unfolding(sc_hosts::specs::Arrivals::initial_arrives))]
pub fn initial_arrives(
    alloc: Global,
    setup: &Setup,
    from: Place,
    request: &Shared<Request>,
    net: &mut Net<Session>,
) -> Result<(), NoMemory>
    ensures { OnOk result
        (net.new ≡ initial_arrives as_session setup.now from request.now net.old) }
{
    if is_ack(request.get()) {
        return Ok(());
    }
    begins(alloc, setup, from, request, net)
}
