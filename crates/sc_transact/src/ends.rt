//! The ends of a transaction, and the Vias by which it is found.

ghost use Rattle.std.specs.Prelude.{◌≡◌, false};
ghost use Rattle.std.specs.Option.{option_map_or};
ghost use Rattle.sc_hosts.specs.Transacting.{takes_from, goes_to, top_via, port_of, same_via, same_top};

use sc_stages::{branch_of, top_via};
use sc_state::Peer;
use sc_value::{Place, Via, same_name, same_place};

/// Whether a transaction with this end takes a message from there.
#[tactic(auto, unfolding(sc_hosts::specs::Transacting::takes_from))]
pub fn takes_from(peer: Peer, from: Peer) -> bool
    ensures { result ≡ takes_from peer from }
{
    match (peer, from) {
        (Peer::Outside(_), Peer::Outside(_)) => true,
        (Peer::Inside(host), Peer::Inside(from)) => host == from,
        _ => false,
    }
}

/// Whether what goes to this peer goes to the outside place.
#[tactic(auto, unfolding(sc_hosts::specs::Transacting::goes_to))]
pub fn goes_to(place: Place, peer: Peer) -> bool
    ensures { result ≡ goes_to place peer }
{
    match peer {
        Peer::Outside(other) => same_place(place, other),
        Peer::Inside(_) | Peer::Nowhere => false,
    }
}

#[tactic(auto, unfolding(sc_hosts::specs::Transacting::port_of))]
fn port_of(via: &Via) -> u16
    ensures { result ≡ port_of via.now }
{
    via.port.unwrap_or(5060)
}

#[tactic(auto, unfolding(sc_hosts::specs::Transacting::same_via))]
fn same_via(a: &Via, b: &Via) -> bool
    ensures { result ≡ same_via a.now b.now }
{
    branch_of(a) == branch_of(b)
        && same_name(a.host.as_bytes(), b.host.as_bytes())
        && port_of(a) == port_of(b)
}

fn is_top(via: &Via, other: &[Via]) -> bool
    ensures { result ≡ option_map_or (same_via via.now) (top_via other.now) false }
{
    match top_via(other) {
        Some(other) => same_via(via, other),
        None => false,
    }
}

/// Whether two lists of Vias have the same one on top: the same branch and sent-by.
#[tactic(auto, unfolding(sc_hosts::specs::Transacting::same_top))]
pub fn same_top(a: &[Via], b: &[Via]) -> bool
    ensures { result ≡ same_top a.now b.now }
{
    match top_via(a) {
        Some(via) => is_top(via, b),
        None => false,
    }
}
