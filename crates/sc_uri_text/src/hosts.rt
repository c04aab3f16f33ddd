//! Hosts: names, and IPv6 literals in brackets (RFC 3261 section 25.1, RFC 3986 section 3.2.2).

ghost use Rattle.std.specs.Prelude.{◌≡◌, ◌≤◌, ◌+◌, IfSome, IsTrue, is_some, length};
ghost use Rattle.std.specs.List.{list_all};
ghost use Rattle.std.specs.Char.{is_ascii_hexdigit};
ghost use Rattle.sc_tokens.specs.Numbers.{number_below};
ghost use Rattle.sc_tokens.specs.Cuts.{pieces};
ghost use Rattle.sc_tokens.specs.Hosts.{begins_gap, gap_of, groups, groups_in, groups_of, host_len, is_group, is_host, is_ipv4, is_ipv6, is_literal_end, is_octet};

use crate::classes::is_host_name;
use sc_ascii::{begins, cut, place_or_len, read_u64};

/// Whether the text is a host: a name of letters, digits, `-` and `.`, or an IPv6 literal in its
/// brackets (RFC 3261 section 25.1).
#[tactic(auto, unfolding(sc_tokens::specs::Hosts::is_host))]
pub fn is_host(text: &[u8]) -> bool
    ensures { result ≡ is_host text.now }
{
    if begins(text, b'[') {
        is_literal_end(&text[1..])
    } else {
        is_host_name(text)
    }
}

// How many bytes of a host with its port are the host's.
#[tactic(auto, unfolding(sc_tokens::specs::Hosts::host_len))]
pub fn host_len(text: &[u8]) -> usize
    ensures exact { result ≡ host_len text.now }
    ensures within { result ≤ length text.now }
{
    if begins(text, b'[') {
        (place_or_len(text, b']') + 1).min(text.len())
    } else {
        place_or_len(text, b':')
    }
}

#[tactic(auto, unfolding(sc_tokens::specs::Hosts::is_literal_end, sc_tokens::specs::Hosts::is_none_left))]
fn is_literal_end(text: &[u8]) -> bool
    ensures { result ≡ is_literal_end text.now }
{
    match cut(text, b']') {
        (address, Some(rest)) => rest.is_empty() && is_ipv6(address),
        (_, None) => false,
    }
}

// With `::` the groups number at most seven, else eight.
#[tactic(auto, unfolding(sc_tokens::specs::Hosts::is_ipv6, sc_tokens::specs::Hosts::leaves_gap, sc_tokens::specs::Hosts::sum_of, sc_tokens::specs::Hosts::is_full))]
fn is_ipv6(text: &[u8]) -> bool
    ensures { result ≡ is_ipv6 text.now }
{
    match gap_of(text) {
        Some(gap) => match (groups(&text[..gap], false), groups(&text[gap + 2..], true)) {
            (Some(front), Some(back)) => front + back <= 7,
            _ => false,
        },
        None => match groups(text, true) {
            Some(count) => count == 8,
            None => false,
        },
    }
}

// The first place of two colons.
#[tactic(auto, using(crate::proofs::Addresses::gap_here, crate::proofs::Addresses::gap_more, crate::proofs::Addresses::gap_end))]
fn gap_of(text: &[u8]) -> Option<usize>
    ensures exact { result ≡ gap_of text.now }
    ensures within { IfSome result (λ gap. gap + 2 ≤ length text.now) }
{
    for i in 0..text.len() {
        if begins_gap(&text[i..]) {
            return Some(i);
        }
    }
    None
}

#[tactic(auto, unfolding(sc_tokens::specs::Hosts::begins_gap))]
fn begins_gap(text: &[u8]) -> bool
    ensures exact { result ≡ begins_gap text.now }
    ensures within { IsTrue result → 2 ≤ length text.now }
{
    begins(text, b':') && begins(&text[1..], b':')
}

// How many groups of 16 bits the text has, colons between; None where a part is no group.
#[tactic(auto, unfolding(sc_tokens::specs::Hosts::groups))]
fn groups(text: &[u8], ipv4: bool) -> Option<usize>
    ensures exact { result ≡ groups ipv4 text.now }
    ensures within { IfSome result (λ n. n ≤ length text.now + 2) }
{
    if text.is_empty() {
        return Some(0);
    }
    groups_in(text, ipv4)
}

#[tactic(auto, using(crate::proofs::Addresses::groups_on, crate::proofs::Addresses::groups_bad, crate::proofs::Addresses::groups_last, crate::proofs::Addresses::groups_none, crate::proofs::Addresses::sum_zero))]
fn groups_in(text: &[u8], ipv4: bool) -> Option<usize>
    ensures exact { result ≡ groups_in ipv4 (pieces 58 text.now) }
    ensures within { IfSome result (λ n. n ≤ length text.now + 2) }
{
    let mut count: usize = 0;
    let mut rest = text;
    loop {
        match cut(rest, b':') {
            (piece, Some(more)) => {
                if !is_group(piece) {
                    return None;
                }
                count += 1;
                rest = more;
            }
            (piece, None) => {
                return match groups_of(piece, ipv4) {
                    Some(last) => Some(count + last),
                    None => None,
                };
            }
        }
    }
}

#[tactic(auto, unfolding(sc_tokens::specs::Hosts::groups_of))]
fn groups_of(piece: &[u8], ipv4: bool) -> Option<usize>
    ensures exact { result ≡ groups_of ipv4 piece.now }
    ensures few { IfSome result (λ n. n ≤ 2) }
{
    if is_group(piece) {
        Some(1)
    } else if ipv4 && is_ipv4(piece) {
        Some(2)
    } else {
        None
    }
}

// Four octets with dots between.
#[tactic(auto, using(crate::proofs::Addresses::ipv4_on, crate::proofs::Addresses::ipv4_off, crate::proofs::Addresses::ipv4_last, crate::proofs::Addresses::ipv4_start))]
fn is_ipv4(text: &[u8]) -> bool
    ensures { result ≡ is_ipv4 text.now }
{
    let mut count: usize = 0;
    let mut rest = text;
    loop {
        match cut(rest, b'.') {
            (octet, Some(more)) => {
                if !is_octet(octet) {
                    return false;
                }
                count += 1;
                rest = more;
            }
            (octet, None) => return count == 3 && is_octet(octet),
        }
    }
}

// A number up to 255 without leading zero.
#[tactic(auto, unfolding(sc_tokens::specs::Hosts::is_octet))]
fn is_octet(text: &[u8]) -> bool
    ensures { result ≡ is_octet text.now }
{
    is_byte(text) && (text.len() == 1 || !begins(text, b'0'))
}

#[tactic(auto, using(sc_syntax::proofs::NumberLaws::below_none, sc_syntax::proofs::NumberLaws::below_small, sc_syntax::proofs::NumberLaws::below_large))]
fn is_byte(text: &[u8]) -> bool
    ensures { result ≡ is_some (number_below 256 text.now) }
{
    match read_u64(text) {
        Some(number) => number < 256,
        None => false,
    }
}

// One to four hexadecimal digits.
#[tactic(auto, unfolding(sc_tokens::specs::Hosts::is_group))]
fn is_group(text: &[u8]) -> bool
    ensures { result ≡ is_group text.now }
{
    !text.is_empty() && text.len() <= 4 && has_hex_digits(text)
}

fn has_hex_digits(text: &[u8]) -> bool
    ensures { result ≡ list_all is_ascii_hexdigit text.now }
{
    text.iter().all(|b| b.is_ascii_hexdigit())
}
