//! Session intervals (RFC 4028 sections 4 and 9): which one a request asks for, and which it gets.

ghost use Rattle.std.specs.Prelude.{◌≡◌, position, drop, false, codes};
ghost use Rattle.std.specs.List.{find};
ghost use Rattle.std.specs.Option.{option_copied, option_map_or};
ghost use Rattle.sc_tokens.specs.Blanks.{without_blanks};
ghost use Rattle.sc_tokens.specs.Cuts.{after, pieces};
ghost use Rattle.sc_tokens.specs.Names.{same_name};
ghost use Rattle.sc_hosts.specs.SessionTimers.{grant_to, granted_by, interval_text, is_refresher, is_session_expires, leading_number, refreshes_uas};
ghost use Rattle.sc_refreshes.specs.Intervals.{granted_of, IsGrantable};

use sc_ascii::same_name;
use sc_helpers::{cut, leading_number, lists_option};
use sc_message_text::trim;
use sc_value::{Field, Request, Text};

/// Which interval a session gets.
#[derive(Clone, Copy, Debug)]
pub enum Interval {
    /// None.
    Off,
    /// One that is too small was asked for.
    TooSmall,
    /// One of so many seconds, at most 4,000,000, and whether the application refreshes the
    /// session.
    On(u32, bool),
}

#[tactic(auto, unfolding(sc_hosts::specs::SessionTimers::is_session_expires, sc_hosts::specs::SessionTimers::session_expires))]
fn is_session_expires(field: &Field) -> bool
    ensures { result ≡ is_session_expires field.now }
{
    let name = field.name.as_bytes();
    same_name(name, b"Session-Expires") || same_name(name, b"x")
}

fn interval_place(fields: &[Field]) -> Option<usize>
    ensures { result ≡ position is_session_expires fields.now }
{
    fields.iter().position(|field| is_session_expires(field))
}

#[tactic(auto, using(sc_value::proofs::ListFacts::find_position, sc_value::proofs::ListFacts::find_none))]
fn interval_among(fields: &[Field]) -> Option<&Field>
    ensures { option_copied result ≡ find is_session_expires fields.now }
{
    match interval_place(fields) {
        Some(at) => Some(&fields[at]),
        None => None,
    }
}

#[tactic(auto, unfolding(sc_hosts::specs::SessionTimers::interval_text))]
fn interval_text(request: &Request) -> Option<&Text>
    ensures { option_copied result ≡ interval_text request.now }
{
    match interval_among(request.head.others.as_slice()) {
        Some(field) => Some(&field.value),
        None => None,
    }
}

#[tactic(auto, unfolding(sc_hosts::specs::SessionTimers::is_refresher))]
fn is_refresher(param: &[u8]) -> bool
    ensures { result ≡ is_refresher param.now }
{
    let (name, _) = cut(param, b'=');
    same_name(trim(name), b"refresher")
}

// The first parameter `refresher` of these.
#[tactic(auto, using(crate::proofs::Refreshers::refresher_found, crate::proofs::Refreshers::refresher_next, crate::proofs::Refreshers::refresher_last))]
fn refresher_among(params: &[u8]) -> Option<&[u8]>
    ensures { option_copied result ≡ find is_refresher (pieces 59 params.now) }
{
    let mut rest = params;
    loop {
        let (param, more) = cut(rest, b';');
        if is_refresher(param) {
            return Some(param);
        }
        match more {
            Some(more) => rest = more,
            None => return None,
        }
    }
}

#[tactic(auto, unfolding(sc_helpers::specs::Parts::more_pieces))]
fn refresher_of(value: &[u8]) -> Option<&[u8]>
    ensures { option_copied result ≡ find is_refresher (drop 1 (pieces 59 value.now)) }
{
    let (_, params) = cut(value, b';');
    match params {
        Some(params) => refresher_among(params),
        None => None,
    }
}

fn is_uas(param: &[u8]) -> bool
    ensures { result
        ≡ option_map_or (λ v. same_name (without_blanks v) (codes "uas")) (after 61 param.now) false }
{
    let (_, value) = cut(param, b'=');
    match value {
        Some(value) => same_name(trim(value), b"uas"),
        None => false,
    }
}

#[tactic(auto, unfolding(sc_hosts::specs::SessionTimers::refreshes_uas))]
fn refreshes_uas(value: &[u8]) -> bool
    ensures { result ≡ refreshes_uas value.now }
{
    match refresher_of(value) {
        Some(param) => is_uas(param),
        None => false,
    }
}

#[tactic(auto, unfolding(sc_hosts::specs::SessionTimers::granted_by, crate::specs::Intervals::granted_of, crate::specs::Intervals::IsGrantable))]
fn granted_by(supports: bool, least: u32, value: &[u8], number: Option<u64>) -> Interval
    ensures exact { granted_of result ≡ granted_by supports least value.now number }
    ensures within { IsGrantable result }
{
    let Some(seconds) = number else {
        return Interval::Off;
    };
    if 4_000_000 < seconds {
        return Interval::Off;
    }
    if seconds < u64::from(least) {
        return if supports {
            Interval::TooSmall
        } else {
            Interval::Off
        };
    }
    Interval::On(seconds as u32, refreshes_uas(value) || !supports)
}

/// The interval that a request gets, where the least one has so many seconds.
#[tactic(auto, unfolding(sc_hosts::specs::SessionTimers::grant_to, sc_hosts::specs::SessionTimers::timer_option, crate::specs::Intervals::granted_of, crate::specs::Intervals::IsGrantable))]
pub fn granted(request: &Request, least: u32) -> Interval
    ensures exact { granted_of result ≡ grant_to request.now least }
    ensures within { IsGrantable result }
{
    match interval_text(request) {
        Some(value) => granted_by(
            lists_option(request, b"timer"),
            least,
            value.as_bytes(),
            leading_number(value.as_bytes()),
        ),
        None => Interval::Off,
    }
}
