//! Where an initial request goes.

ghost use Rattle.std.specs.Prelude.{◌≡◌, ◌≤◌, ◌<◌, take, ◌+◌, ◌++◌, ◌∷◌, [], length, position, IfOk, OnOk};
ghost use Rattle.std.specs.Option.{option_copied};
ghost use Rattle.sc_parts.specs.declared.choice.Choice.TheVariants.{Send};
ghost use Rattle.sc_model.specs.Choices.{app_of, by_route, choice_at, choice_by_route, choice_in, choice_of, choice_without_tuple, is_opposite, next_order, tuples_of};

use crate::lists::list_of;
use crate::own::{is_home, is_own};
use crate::returning::way_back;
use crate::subscriber::subscriber_of;
use sc_parts::Choice;
use sc_terms::{Config, Dar, Modifier, Tuple};
use sc_value::{Address, CloneIn, Directive, List, NoMemory, Region, Request, copied};
use std::alloc::Global;

/// Where an initial request goes, by the table of the Default Application Router (JSR 289 appendix
/// C). `region` is that of the request's origin, and `state` the order at which CONTINUE goes on:
/// one above the origin's, or the place that the container's own return route names.
///
/// NEW begins at the first tuple of the method, CONTINUE at `state`, and REVERSE at the first tuple
/// of the region opposite to `region`, NEUTRAL's being NEUTRAL. Of the list of a method the first
/// 64 tuples count. Where there is a tuple, its route takes the request out by ROUTE, unless the
/// route is the container's own, and by ROUTE_BACK, with the own return route behind it that names
/// the next order; else its application is chosen. Where there is none, or the method has no list,
/// or CONTINUE has no state, the request goes `Onward` with a Route or with a Request-URI that the
/// container isn't responsible for, and else it is `NotFound`.
///
/// # Errors
///
/// `NoMemory` for want of memory.
#[tactic(auto, unfolding(sc_model::specs::Choices::choice_of))]
pub fn next(
    alloc: Global,
    config: &Config,
    dar: &Dar,
    request: &Request,
    region: Region,
    directive: Directive,
    state: Option<u32>,
) -> Result<Choice, NoMemory>
    ensures { IfOk result
        (λ c. c ≡ choice_of config.now dar.now request.now region directive state) }
{
    let tuples = tuples_of(dar, request.method.as_bytes());
    let order = next_order(tuples, region, directive, state);
    choice_in(alloc, config, request, tuples, order)
}

// The first 64 tuples of a method.
#[tactic(auto, unfolding(sc_model::specs::Choices::tuples_of))]
fn tuples_of<'a>(dar: &'a Dar, method: &[u8]) -> &'a [Tuple]
    ensures exact { result.now ≡ tuples_of method.now dar.now }
    ensures few { length result.now ≤ 64 }
{
    match list_of(dar, method) {
        Some(list) => first_64(list.tuples.as_slice()),
        None => &[],
    }
}

#[tactic(auto, using(crate::proofs::FirstTuples::few, crate::proofs::FirstTuples::many))]
fn first_64(tuples: &[Tuple]) -> &[Tuple]
    ensures exact { result.now ≡ take 64 tuples.now }
    ensures few { length result.now ≤ 64 }
{
    if tuples.len() <= 64 {
        tuples
    } else {
        &tuples[..64]
    }
}

// Whether the region is that opposite to the other.
#[tactic(auto, unfolding(sc_model::specs::Choices::is_opposite))]
fn is_opposite(region: Region, other: Region) -> bool
    ensures { result ≡ is_opposite region other }
{
    matches!(
        (region, other),
        (Region::Originating, Region::Terminating)
            | (Region::Terminating, Region::Originating)
            | (Region::Neutral, Region::Neutral)
    )
}

fn opposite_place(tuples: &[Tuple], region: Region) -> Option<usize>
    ensures { result ≡ position (λ tuple. is_opposite region tuple.region) tuples.now }
{
    tuples
        .iter()
        .position(|tuple| is_opposite(region, tuple.region))
}

// The order of the tuple that is next.
#[tactic(auto, unfolding(sc_model::specs::Choices::next_order))]
fn next_order(
    tuples: &[Tuple],
    region: Region,
    directive: Directive,
    state: Option<u32>,
) -> Option<u32>
    requires { length tuples.now ≤ 64 }
    ensures { result ≡ next_order tuples.now region directive state }
{
    match directive {
        Directive::New => Some(0),
        Directive::Continue => state,
        Directive::Reverse => match opposite_place(tuples, region) {
            Some(place) => Some(place as u32),
            None => None,
        },
    }
}

#[tactic(auto, unfolding(sc_model::specs::Choices::choice_in, sc_model::specs::Choices::choice_at))]
fn choice_in(
    alloc: Global,
    config: &Config,
    request: &Request,
    tuples: &[Tuple],
    order: Option<u32>,
) -> Result<Choice, NoMemory>
    requires { length tuples.now ≤ 64 }
    ensures { IfOk result (λ c. c ≡ choice_in config.now request.now tuples.now order) }
{
    let order = match order {
        Some(order) => order,
        None => return exhausted(alloc, config, request),
    };
    match tuples.get(order as usize) {
        Some(tuple) => routed(alloc, config, request, order, tuple),
        None => exhausted(alloc, config, request),
    }
}

// What a tuple does, by its modifier and its route.
#[tactic(auto, unfolding(sc_model::specs::Choices::choice_by_route))]
fn routed(
    alloc: Global,
    config: &Config,
    request: &Request,
    order: u32,
    tuple: &Tuple,
) -> Result<Choice, NoMemory>
    requires { order < 64 }
    ensures { IfOk result
        (λ c.
        c ≡ choice_by_route config.now request.now order tuple.now tuple.now.modifier tuple.now.route) }
{
    match (tuple.modifier, &tuple.route) {
        (Modifier::Route, Some(route)) => by_route(alloc, config, request, order, tuple, route),
        (Modifier::RouteBack, Some(route)) => {
            let back = way_back(alloc, config, order + 1, tuple.region)?;
            sent_by_two(alloc, route, back)
        }
        _ => app_of(alloc, request, order, tuple, None),
    }
}

// A route that isn't own takes the request out; an own one leads to the application.
#[tactic(auto, unfolding(sc_model::specs::Choices::by_route))]
fn by_route(
    alloc: Global,
    config: &Config,
    request: &Request,
    order: u32,
    tuple: &Tuple,
    route: &Address,
) -> Result<Choice, NoMemory>
    ensures { IfOk result (λ c. c ≡ by_route config.now request.now order tuple.now route.now) }
{
    if is_own(alloc, config, &route.uri)? {
        app_of(alloc, request, order, tuple, Some(route))
    } else {
        sent_by(alloc, route)
    }
}

fn put_route(routes: &mut List<Address>, route: Address) -> Result<(), NoMemory>
    ensures { OnOk result (routes.new ≡ routes.old ++ route ∷ []) }
{
    match routes.push(route) {
        Ok(()) => Ok(()),
        Err(_) => Err(NoMemory),
    }
}

// Out by this route.
fn sent_by(alloc: Global, route: &Address) -> Result<Choice, NoMemory>
    ensures { IfOk result (λ c. c ≡ Send (route.now ∷ [])) }
{
    let mut routes = List::new(alloc);
    put_route(&mut routes, route.clone_in(alloc)?)?;
    Ok(Choice::Send(routes))
}

// Out by this route, with another one behind it.
fn sent_by_two(alloc: Global, route: &Address, behind: Address) -> Result<Choice, NoMemory>
    ensures { IfOk result (λ c. c ≡ Send (route.now ∷ behind ∷ [])) }
{
    let mut routes = List::new(alloc);
    put_route(&mut routes, route.clone_in(alloc)?)?;
    put_route(&mut routes, behind)?;
    Ok(Choice::Send(routes))
}

// The application of a tuple, with the route that led to it.
#[tactic(auto, unfolding(sc_model::specs::Choices::app_of))]
fn app_of(
    alloc: Global,
    request: &Request,
    order: u32,
    tuple: &Tuple,
    popped: Option<&Address>,
) -> Result<Choice, NoMemory>
    ensures { IfOk result
        (λ c. c ≡ app_of request.now order tuple.now (option_copied popped.entry)) }
{
    let subscriber = subscriber_of(alloc, tuple.subscriber.as_bytes(), request)?;
    let popped = copied(alloc, popped)?;
    Ok(Choice::App {
        host: tuple.app,
        order,
        region: tuple.region,
        subscriber,
        popped,
    })
}

// No tuple is left: on by the request's Route or Request-URI, or nowhere.
#[tactic(auto, unfolding(sc_model::specs::Choices::choice_without_tuple))]
fn exhausted(alloc: Global, config: &Config, request: &Request) -> Result<Choice, NoMemory>
    ensures { IfOk result (λ c. c ≡ choice_without_tuple config.now request.now) }
{
    if !request.head.route.is_empty() {
        return Ok(Choice::Onward);
    }
    if is_home(alloc, config, &request.uri)? {
        Ok(Choice::NotFound)
    } else {
        Ok(Choice::Onward)
    }
}
