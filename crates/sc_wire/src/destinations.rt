//! Where a request goes that leaves the container: an IPv4 literal, `localhost`, or a name of the
//! settings; no DNS (RFC 3263) is asked.

ghost use Rattle.std.specs.Prelude.{◌≡◌, ◌∷◌, [], Some, position, if◌then◌else◌};
ghost use Rattle.std.specs.List.{find};
ghost use Rattle.std.specs.Option.{option_copied};
ghost use Rattle.sc_tokens.specs.Names.{same_name};
ghost use Rattle.sc_hosts.specs.Destinations.{localhost, literal, named_address, address_of, place_of_uri, next_uri, destination};

use sc_terms::{Config, HostEntry};
use sc_value::{Place, Request, Uri, same_name};
use std::net::Ipv4Addr;

fn literal(text: &[u8]) -> Option<[u8; 4]>
    ensures { result ≡ literal text.now }
{
    match Ipv4Addr::parse_ascii(text) {
        Ok(ip) => Some(ip.octets()),
        Err(_) => None,
    }
}

fn entry_place(entries: &[HostEntry], host: &[u8]) -> Option<usize>
    ensures { result ≡ position (λ entry. same_name entry.name host.now) entries.now }
{
    entries
        .iter()
        .position(|entry| same_name(entry.name.as_bytes(), host))
}

#[tactic(auto, using(sc_value::proofs::ListFacts::find_position, sc_value::proofs::ListFacts::find_none))]
fn entry_of<'a>(entries: &'a [HostEntry], host: &[u8]) -> Option<&'a HostEntry>
    ensures { option_copied result ≡ find (λ entry. same_name entry.name host.now) entries.now }
{
    match entry_place(entries, host) {
        Some(at) => Some(&entries[at]),
        None => None,
    }
}

#[tactic(auto, unfolding(sc_hosts::specs::Destinations::named_address))]
fn named_address(config: &Config, host: &[u8]) -> Option<[u8; 4]>
    ensures { result ≡ named_address config.now host.now }
{
    match entry_of(config.hosts.as_slice(), host) {
        Some(entry) => Some(entry.ip),
        None => None,
    }
}

#[tactic(auto, unfolding(sc_hosts::specs::Destinations::localhost))]
fn is_localhost(host: &[u8]) -> bool
    ensures { result ≡ same_name host.now localhost }
{
    same_name(host, b"localhost")
}

fn known_address(config: &Config, host: &[u8]) -> Option<[u8; 4]>
    ensures { result
        ≡ (if same_name host.now localhost then Some (127 ∷ 0 ∷ 0 ∷ 1 ∷ [])
        else named_address config.now host.now) }
{
    if is_localhost(host) {
        Some([127, 0, 0, 1])
    } else {
        named_address(config, host)
    }
}

#[tactic(auto, unfolding(sc_hosts::specs::Destinations::address_of))]
fn address_of(config: &Config, host: &[u8]) -> Option<[u8; 4]>
    ensures { result ≡ address_of config.now host.now }
{
    match literal(host) {
        Some(ip) => Some(ip),
        None => known_address(config, host),
    }
}

#[tactic(auto, unfolding(sc_hosts::specs::Destinations::place_of_uri))]
fn place_of_uri(config: &Config, uri: &Uri) -> Option<Place>
    ensures { result ≡ place_of_uri config.now uri.now }
{
    match uri {
        Uri::Sip(uri) => match address_of(config, uri.host.as_bytes()) {
            Some(ip) => Some(Place::To(ip, uri.port.unwrap_or(5060))),
            None => None,
        },
        Uri::Other(_) => None,
    }
}

/// Where a request goes next: its first Route, or its Request-URI.
#[tactic(auto, unfolding(sc_hosts::specs::Destinations::next_uri))]
pub fn next_uri(request: &Request) -> &Uri
    ensures { result.now ≡ next_uri request.now }
{
    match request.head.route.as_slice().first() {
        Some(route) => &route.uri,
        None => &request.uri,
    }
}

/// Where a request goes that leaves, None where its host has no address.
#[tactic(auto, unfolding(sc_hosts::specs::Destinations::destination))]
pub fn destination(config: &Config, request: &Request) -> Option<Place>
    ensures { result ≡ destination config.now request.now }
{
    place_of_uri(config, next_uri(request))
}
