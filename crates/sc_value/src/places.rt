//! When two outside places are one.

ghost use Rattle.std.specs.Prelude.{◌≡◌};
ghost use Rattle.sc_tokens.specs.Names.{same_bytes};
ghost use Rattle.sc_value.specs.declared.ids.Place.{Place};
ghost use Rattle.sc_value.specs.Places.{same_place};

use crate::Place;

fn same_ip(a: [u8; 4], b: [u8; 4]) -> bool
    ensures { result ≡ same_bytes a b }
{
    a == b
}

/// Whether two outside places are one: the same connection of a peer, or the same address.
#[tactic(auto, unfolding(crate::specs::Places::same_place))]
pub fn same_place(a: Place, b: Place) -> bool
    ensures { result ≡ same_place a b }
{
    match a {
        Place::Back(a) => is_back(a, b),
        Place::To(ip, port) => is_to(ip, port, b),
    }
}

#[tactic(auto, unfolding(crate::specs::Places::same_place))]
fn is_back(number: u64, place: Place) -> bool
    ensures { result ≡ same_place (Place.Back number) place }
{
    match place {
        Place::Back(other) => number == other,
        Place::To(_, _) => false,
    }
}

#[tactic(auto, unfolding(crate::specs::Places::same_place))]
fn is_to(ip: [u8; 4], port: u16, place: Place) -> bool
    ensures { result ≡ same_place (Place.To ip port) place }
{
    match place {
        Place::Back(_) => false,
        Place::To(other, other_port) => same_ip(ip, other) && port == other_port,
    }
}
