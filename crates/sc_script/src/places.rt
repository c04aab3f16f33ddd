//! The places of scripts.

ghost use Rattle.std.specs.Prelude.{◌≡◌, ◌≤◌, IfSome};
ghost use Rattle.sc_tokens.specs.Cuts.{pieces};
ghost use Rattle.sc_script.specs.ScriptTexts.{address_in, address_of, all_four, connection_of, decimal_upto, ip_of, place_of};
ghost use Rattle.sc_script.specs.Reading.{more_pieces};

use crate::cuts::cut;
use crate::numbers::decimal_upto;
use sc_value::Place;

/// So great are serials, moments and numbers of connections at most.
pub const MOST_COUNT: u64 = 9_223_372_036_854_775_808;

/// The place that a word names: `cN` for the connection N that a peer opened, from 1 on, or
/// `a.b.c.d:port`.
#[tactic(auto, unfolding(crate::specs::ScriptTexts::place_of))]
pub fn place_of(word: &[u8]) -> Option<Place>
    ensures { result ≡ place_of word.now }
{
    match word {
        [first, number @ ..] => {
            if *first == b'c' {
                return connection_of(decimal_upto(MOST_COUNT, number));
            }
            address_in(word)
        }
        [] => None,
    }
}

#[tactic(auto, unfolding(crate::specs::ScriptTexts::connection_of))]
fn connection_of(number: Option<u64>) -> Option<Place>
    ensures { result ≡ connection_of number }
{
    match number {
        Some(number) => {
            if number == 0 {
                return None;
            }
            Some(Place::Back(number))
        }
        None => None,
    }
}

#[tactic(auto, unfolding(crate::specs::ScriptTexts::address_in, crate::specs::Reading::more_pieces), using(crate::proofs::Cutting::address_long))]
fn address_in(word: &[u8]) -> Option<Place>
    ensures { result ≡ address_in (pieces 58 word.now) }
{
    let (ip, rest) = cut(word, b':');
    let (port, more) = cut(rest?, b':');
    match more {
        Some(_) => None,
        None => address_of(ip_of(ip), decimal_upto(65_535, port)),
    }
}

#[tactic(auto, unfolding(crate::specs::ScriptTexts::address_of))]
fn address_of(ip: Option<[u8; 4]>, port: Option<u64>) -> Option<Place>
    requires { IfSome port (λ port. port ≤ 65535) }
    ensures { result ≡ address_of ip port }
{
    match (ip, port) {
        (Some(ip), Some(port)) => Some(Place::To(ip, port as u16)),
        (Some(_), None) => None,
        (None, _) => None,
    }
}

#[tactic(auto, unfolding(crate::specs::ScriptTexts::ip_of, crate::specs::Reading::more_pieces), using(crate::proofs::Cutting::ip_long))]
fn ip_of(text: &[u8]) -> Option<[u8; 4]>
    ensures { result ≡ ip_of (pieces 46 text.now) }
{
    let (a, rest) = cut(text, b'.');
    let (b, rest) = cut(rest?, b'.');
    let (c, rest) = cut(rest?, b'.');
    let (d, rest) = cut(rest?, b'.');
    match rest {
        Some(_) => None,
        None => all_four(octet(a), octet(b), octet(c), octet(d)),
    }
}

#[tactic(auto, unfolding(crate::specs::ScriptTexts::all_four))]
fn all_four(a: Option<u8>, b: Option<u8>, c: Option<u8>, d: Option<u8>) -> Option<[u8; 4]>
    ensures { result ≡ all_four a b c d }
{
    Some([a?, b?, c?, d?])
}

fn octet(text: &[u8]) -> Option<u8>
    ensures { result ≡ decimal_upto 255 text.now }
{
    match decimal_upto(255, text) {
        Some(number) => Some(number as u8),
        None => None,
    }
}
