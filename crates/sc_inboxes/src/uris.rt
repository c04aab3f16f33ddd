//! The own URI by which a request comes, and the session that a URI names.

ghost use Rattle.std.specs.Prelude.{◌≡◌, ◌==◌, ◌+◌, ℕ, true, false, decimal, length, if◌then◌else◌, option_map, slice_get, drop, IfOk};
ghost use Rattle.std.specs.Option.{option_copied, option_map_or};
ghost use Rattle.sc_model.specs.Names.{ap_value};
ghost use Rattle.sc_model.specs.OwnHosts.{is_own};
ghost use Rattle.sc_state.specs.Groups.{serial_number};
ghost use Rattle.sc_hosts.specs.Taking.{ap_of, is_named_live, named_live, names, own_uri, without_own_route};
ghost use Rattle.sc_inboxes.specs.UriParams.{uri_param};

use itoa::Buffer;
use sc_book::Probe;
use sc_router::is_own;
use sc_state::{Host, Live, Session, text_number};
use sc_terms::Config;
use sc_transact::is_ap_value;
use sc_value::{Address, AppId, CloneIn, List, NoMemory, Request, Shared, Text, Uri, param_value};
use std::alloc::Global;

/// The value of the parameter of this name of a `sip:` URI, None where it has none.
pub fn uri_param<'a>(uri: &'a Uri, name: &[u8]) -> Option<&'a Text>
    ensures { option_copied result ≡ uri_param name.now uri.entry.now }
{
    match uri {
        Uri::Sip(uri) => param_value(uri.params.as_slice(), name),
        Uri::Other(_) => None,
    }
}

#[tactic(auto, unfolding(sc_hosts::specs::Taking::ap_of, sc_model::specs::Names::ap_name))]
fn ap_of(uri: &Uri) -> Option<&Text>
    ensures { option_copied result ≡ ap_of uri.entry.now }
{
    uri_param(uri, b"ap")
}

#[tactic(auto, unfolding(sc_hosts::specs::Taking::names))]
fn names(epoch: u32, app: AppId, uri: &Uri) -> bool
    ensures { result ≡ names epoch app uri.now }
{
    match ap_of(uri) {
        Some(value) => is_ap_value(value.as_bytes(), epoch, app),
        None => false,
    }
}

#[tactic(auto, unfolding(sc_hosts::specs::Taking::is_named_live))]
fn is_named_live(epoch: u32, number: u32, uri: &Uri, live: &Live<Session>) -> bool
    ensures { result ≡ is_named_live epoch number uri.now live.now }
{
    let app = AppId {
        host: number,
        serial: live.serial,
    };
    names(epoch, app, uri)
}

/// Whether a URI names a session of the host of this number.
#[derive(Clone, Copy)]
struct Named<'a> {
    epoch: u32,
    number: u32,
    uri: &'a Uri,
}

impl Probe<Live<Session>> for Named<'_> {
    ghost passes = { λ p. is_named_live p.epoch p.number p.uri.now };

    fn passes(&self, live: &Live<Session>) -> bool {
        is_named_live(self.epoch, self.number, self.uri, live)
    }
}

// How many bytes a name has before its serial.
fn start_len(number: u32) -> usize
    ensures { result ≡ length (decimal number) + 1 }
{
    let mut buffer = Buffer::new();
    buffer.format(number).len() + 1
}

// How many bytes a name ends with for its epoch.
fn end_len(epoch: u32) -> usize
    ensures { result ≡ (if epoch == 0 then 0 else length (decimal epoch) + 1) }
{
    if epoch == 0 {
        return 0;
    }
    let mut buffer = Buffer::new();
    buffer.format(epoch).len() + 1
}

// What stands in a value of `ap` of this epoch and host for the session.
#[tactic(auto, using(crate::proofs::NamedLives::serial_within))]
fn serial_part<'a>(value: &'a [u8], epoch: u32, number: u32) -> &'a [u8]
    ensures { (serial : ℕ) → value.now ≡ ap_value epoch (record { host = number; serial = serial })
        → result.now ≡ decimal serial }
{
    let start = start_len(number);
    let end = value.len().saturating_sub(end_len(epoch));
    if start <= end {
        let front = &value[..end];
        &front[start..]
    } else {
        b""
    }
}

// The number under which the session is found that the URI names.
#[tactic(auto, using(crate::proofs::NamedLives::serial_named))]
fn named_number(epoch: u32, number: u32, uri: &Uri) -> u64
    ensures { (serial : ℕ) → names epoch (record { host = number; serial = serial }) uri.now ≡ true
        → result ≡ serial_number serial }
{
    match ap_of(uri) {
        Some(value) => text_number(serial_part(value.as_bytes(), epoch, number)),
        None => 0,
    }
}

/// The live session of this host that the URI names, None where it names none.
#[tactic(auto, unfolding(sc_hosts::specs::Taking::named_live), using(crate::proofs::NamedLives::named_grouped))]
pub fn named_live<'a>(
    alloc: Global,
    epoch: u32,
    number: u32,
    uri: &Uri,
    host: &'a Host<Session>,
) -> Result<Option<&'a Shared<Live<Session>>>, NoMemory>
    ensures { IfOk result
        (λ found. option_copied found ≡ named_live epoch number uri.now host.entry.now) }
{
    let group = named_number(epoch, number, uri);
    host.find_live(alloc, group, &Named { epoch, number, uri })
}

fn top_route(request: &Request) -> Option<&Address>
    ensures { option_copied result ≡ slice_get request.entry.now.head.route 0 }
{
    request.head.route.as_slice().first()
}

/// Whether the top Route is the container's own.
pub fn is_own_routed(alloc: Global, config: &Config, request: &Request) -> Result<bool, NoMemory>
    ensures { IfOk result
        (λ own.
        own
        ≡ option_map_or (λ route. is_own config.now route.uri)
        (slice_get request.now.head.route 0) false) }
{
    match top_route(request) {
        Some(route) => is_own(alloc, config, &route.uri),
        None => Ok(false),
    }
}

fn route_uri(request: &Request) -> Option<&Uri>
    ensures { option_copied result
        ≡ option_map (λ route. route.uri) (slice_get request.entry.now.head.route 0) }
{
    match top_route(request) {
        Some(route) => Some(&route.uri),
        None => None,
    }
}

/// The own URI by which a request comes here: its top Route, or its Request-URI.
#[tactic(auto, unfolding(sc_hosts::specs::Taking::own_uri))]
pub fn own_uri<'a>(
    alloc: Global,
    config: &Config,
    request: &'a Request,
) -> Result<Option<&'a Uri>, NoMemory>
    ensures { IfOk result (λ uri. option_copied uri ≡ own_uri config.now request.entry.now) }
{
    if is_own_routed(alloc, config, request)? {
        return Ok(route_uri(request));
    }
    if is_own(alloc, config, &request.uri)? {
        return Ok(Some(&request.uri));
    }
    Ok(None)
}

fn drop_top(routes: &mut List<Address>)
    ensures { routes.new ≡ drop 1 routes.old }
{
    if !routes.is_empty() {
        routes.items.remove(0);
    }
}

/// The request without its top Route.
pub fn without_top(alloc: Global, request: &Request) -> Result<Request, NoMemory>
    ensures { IfOk result
        (λ r.
        r
        ≡ record request.now {
          head = record request.now.head { route = drop 1 request.now.head.route };
        }) }
{
    let mut copy = request.clone_in(alloc)?;
    drop_top(&mut copy.head.route);
    Ok(copy)
}

/// The own top Route is taken off.
#[tactic(auto, unfolding(sc_hosts::specs::Taking::without_own_route))]
pub fn unrouted(
    alloc: Global,
    config: &Config,
    request: &Shared<Request>,
) -> Result<Shared<Request>, NoMemory>
    ensures { IfOk result (λ r. r ≡ without_own_route config.now request.now) }
{
    if is_own_routed(alloc, config, request.get())? {
        Shared::new(alloc, without_top(alloc, request.get())?)
    } else {
        request.clone_in(alloc)
    }
}
