//! The words of a tuple: regions, modifiers, orders and names of applications.

ghost use Rattle.std.specs.Prelude.{◌≡◌, decimal, position};
ghost use Rattle.sc_tokens.specs.Names.{same_bytes};
ghost use Rattle.sc_dar.specs.Tuples.{app_of, modifier_of, region_of};

use itoa::Buffer;
use sc_terms::Modifier;
use sc_value::{Region, Text};

#[tactic(auto, unfolding(crate::specs::Tuples::region_of))]
pub fn region_of(text: &[u8]) -> Option<Region>
    ensures { result ≡ region_of text.now }
{
    if text == b"ORIGINATING".as_slice() {
        Some(Region::Originating)
    } else if text == b"TERMINATING".as_slice() {
        Some(Region::Terminating)
    } else if text == b"NEUTRAL".as_slice() {
        Some(Region::Neutral)
    } else {
        None
    }
}

#[tactic(auto, unfolding(crate::specs::Tuples::modifier_of))]
pub fn modifier_of(text: &[u8]) -> Option<Modifier>
    ensures { result ≡ modifier_of text.now }
{
    if text == b"ROUTE".as_slice() {
        Some(Modifier::Route)
    } else if text == b"ROUTE_BACK".as_slice() {
        Some(Modifier::RouteBack)
    } else if text == b"NO_ROUTE".as_slice() {
        Some(Modifier::NoRoute)
    } else {
        None
    }
}

// Whether the text is the decimal of this order.
pub fn is_order(order: usize, text: &[u8]) -> bool
    ensures { result ≡ same_bytes text.now (decimal order) }
{
    let mut buffer = Buffer::new();
    text == buffer.format(order).as_bytes()
}

fn place_of(apps: &[Text], name: &[u8]) -> Option<usize>
    ensures { result ≡ position (λ app. same_bytes app name.now) apps.now }
{
    apps.iter().position(|app| app.as_bytes() == name)
}

// The place of the first application of this name; a place has 32 bits.
pub fn app_of(apps: &[Text], name: &[u8]) -> Option<u32>
    ensures { result ≡ app_of apps.now name.now }
{
    match place_of(apps, name) {
        Some(place) if place < 4_294_967_296 => Some(place as u32),
        _ => None,
    }
}
