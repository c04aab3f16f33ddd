//! With what an initial request from outside asks the router: an own top Route is taken off, and
//! its `ar` gives the place in the list at which the router goes on and the region.

ghost use Rattle.std.specs.Prelude.{◌≡◌, ◌^◌, option_and_then, option_map, IfOk};
ghost use Rattle.std.specs.Option.{option_copied, option_map_or};
ghost use Rattle.sc_tokens.specs.Names.{same_bytes};
ghost use Rattle.sc_tokens.specs.Cuts.{before};
ghost use Rattle.sc_tokens.specs.Numbers.{number_below};
ghost use Rattle.sc_model.specs.Names.{ar_value};
ghost use Rattle.sc_model.specs.OwnHosts.{is_own};
ghost use Rattle.sc_hosts.specs.Routes.{at_beginning, popped_route, unrouted_initial, ar_of, named_number, at_number, named_position, position_by, position_of};

use sc_ascii::read_u64;
use sc_inboxes::{uri_param, without_top};
use sc_names::ar_value;
use sc_router::is_own;
use sc_terms::Config;
use sc_uri_text::cut;
use sc_value::{Address, CloneIn, Directive, NoMemory, Region, Request, Shared, Text, Uri};
use std::alloc::Global;
use std::marker::Model;

/// From where the router goes on.
#[derive(Clone, Copy)]
pub struct Position {
    pub region: Region,
    pub directive: Directive,
    pub state: Option<u32>,
}

impl Model for Position {
    ghost use Rattle.sc_hosts.specs.Routes.{Position as Seen};

    ghost Value = { Seen };

    ghost view = { λ p. record { region = p.region; directive = p.directive; state = p.state } };

    ghost inverse = { λ p. record { region = p.region; directive = p.directive; state = p.state } };
}

fn at_beginning() -> Position
    ensures { result ≡ at_beginning }
{
    Position {
        region: Region::Neutral,
        directive: Directive::New,
        state: None,
    }
}

fn own_route(alloc: Global, config: &Config, route: &Address) -> Result<bool, NoMemory>
    ensures { IfOk result (λ own. own ≡ is_own config.now route.now.uri) }
{
    is_own(alloc, config, &route.uri)
}

/// The container's own top Route, None where the top one is another or there is none.
#[tactic(auto, unfolding(sc_hosts::specs::Routes::popped_route))]
pub fn popped_route<'a>(
    alloc: Global,
    config: &Config,
    request: &'a Request,
) -> Result<Option<&'a Address>, NoMemory>
    ensures { IfOk result
        (λ route. option_copied route ≡ popped_route config.now request.entry.now) }
{
    let route = match request.head.route.as_slice().first() {
        Some(route) => route,
        None => return Ok(None),
    };
    if own_route(alloc, config, route)? {
        Ok(Some(route))
    } else {
        Ok(None)
    }
}

/// The request without its own top Route: one owner more where it has none.
#[tactic(auto, unfolding(sc_hosts::specs::Routes::unrouted_initial, sc_hosts::specs::Routes::without_top))]
pub fn unrouted_initial(
    alloc: Global,
    config: &Config,
    request: &Shared<Request>,
) -> Result<Shared<Request>, NoMemory>
    ensures { IfOk result (λ r. r ≡ unrouted_initial config.now request.now) }
{
    match popped_route(alloc, config, request.get())? {
        Some(_) => Shared::new(alloc, without_top(alloc, request.get())?),
        None => request.clone_in(alloc),
    }
}

#[tactic(auto, unfolding(sc_hosts::specs::Routes::ar_of, sc_model::specs::Names::ar_name))]
fn ar_of(uri: &Uri) -> Option<&Text>
    ensures { option_copied result ≡ ar_of uri.entry.now }
{
    uri_param(uri, b"ar")
}

#[tactic(auto, using(sc_syntax::proofs::NumberLaws::below_none, sc_syntax::proofs::NumberLaws::below_small, sc_syntax::proofs::NumberLaws::below_large))]
fn read_u32(text: &[u8]) -> Option<u32>
    ensures { result ≡ number_below (2 ^ 32) text.now }
{
    let number = read_u64(text)?;
    if number < 1 << 32 {
        Some(number as u32)
    } else {
        None
    }
}

fn first_number(text: &[u8]) -> Option<u32>
    ensures { result ≡ number_below (2 ^ 32) (before 45 text.now) }
{
    let (front, _) = cut(text, b'-');
    read_u32(front)
}

fn is_ar_value(alloc: Global, n: u32, region: Region, text: &[u8]) -> Result<bool, NoMemory>
    ensures { IfOk result (λ same. same ≡ same_bytes (ar_value n region) text.now) }
{
    let written = ar_value(alloc, n, region)?;
    Ok(written.as_bytes() == text)
}

// The number that the text names with this region: it is written so.
#[tactic(auto, unfolding(sc_hosts::specs::Routes::named_number))]
fn named_number(alloc: Global, text: &[u8], region: Region) -> Result<Option<u32>, NoMemory>
    ensures { IfOk result (λ n. n ≡ named_number text.now region) }
{
    let n = match first_number(text) {
        Some(n) => n,
        None => return Ok(None),
    };
    if is_ar_value(alloc, n, region, text)? {
        Ok(Some(n))
    } else {
        Ok(None)
    }
}

#[tactic(auto, unfolding(sc_hosts::specs::Routes::at_number))]
fn at_number(region: Region, n: u32) -> Position
    ensures { result ≡ at_number region n }
{
    Position {
        region,
        directive: Directive::Continue,
        state: Some(n),
    }
}

fn in_region(alloc: Global, text: &[u8], region: Region) -> Result<Option<Position>, NoMemory>
    ensures { IfOk result (λ p. p ≡ option_map (at_number region) (named_number text.now region)) }
{
    match named_number(alloc, text, region)? {
        Some(n) => Ok(Some(at_number(region, n))),
        None => Ok(None),
    }
}

// The position that an `ar` names, in one of the regions.
#[tactic(auto, unfolding(sc_hosts::specs::Routes::named_position))]
fn named_position(alloc: Global, text: &[u8]) -> Result<Option<Position>, NoMemory>
    ensures { IfOk result (λ p. p ≡ named_position text.now) }
{
    if let Some(position) = in_region(alloc, text, Region::Originating)? {
        return Ok(Some(position));
    }
    if let Some(position) = in_region(alloc, text, Region::Terminating)? {
        return Ok(Some(position));
    }
    in_region(alloc, text, Region::Neutral)
}

fn position_named(alloc: Global, text: Option<&Text>) -> Result<Position, NoMemory>
    ensures { IfOk result
        (λ p.
        p
        ≡ option_map_or (λ position. position)
        (option_and_then named_position (option_copied text.entry)) at_beginning) }
{
    let text = match text {
        Some(text) => text,
        None => return Ok(at_beginning()),
    };
    match named_position(alloc, text.as_bytes())? {
        Some(position) => Ok(position),
        None => Ok(at_beginning()),
    }
}

#[tactic(auto, unfolding(sc_hosts::specs::Routes::position_by))]
fn position_by(alloc: Global, route: Option<&Address>) -> Result<Position, NoMemory>
    ensures { IfOk result (λ p. p ≡ position_by (option_copied route.entry)) }
{
    match route {
        Some(route) => position_named(alloc, ar_of(&route.uri)),
        None => Ok(at_beginning()),
    }
}

/// The position that an initial request from outside names.
#[tactic(auto, unfolding(sc_hosts::specs::Routes::position_of))]
pub fn position_of(alloc: Global, config: &Config, request: &Request) -> Result<Position, NoMemory>
    ensures { IfOk result (λ p. p ≡ position_of config.now request.now) }
{
    position_by(alloc, popped_route(alloc, config, request)?)
}
