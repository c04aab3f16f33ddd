//! The package that an application notifies of (RFC 6665 sections 4.2 and 7.2), by its parameters,
//! and what a SUBSCRIBE asks of it.

ghost use Rattle.std.specs.Prelude.{◌≡◌, ◌≤◌, ◌&&◌, [], codes, min, nat_le, position, option_and_then, unwrap_or, IfOk};
ghost use Rattle.std.specs.List.{find};
ghost use Rattle.std.specs.Option.{option_copied};
ghost use Rattle.sc_tokens.specs.Blanks.{without_blanks};
ghost use Rattle.sc_tokens.specs.Cuts.{before};
ghost use Rattle.sc_tokens.specs.Numbers.{number_of};
ghost use Rattle.sc_tokens.specs.Names.{same_bytes};
ghost use Rattle.sc_hosts.specs.HelperParts.{field_of};
ghost use Rattle.sc_hosts.specs.Subscriptions.{asked_seconds, event_value, is_event, names_package, rule_in, rule_with};
ghost use Rattle.sc_notifies.specs.Notifying.{IsAtMost, asked_of, rule_of};

use crate::refused::{Asked, RuleRefused};
use sc_apps::small_number;
use sc_ascii::{read_u64, same_name};
use sc_helpers::{cut, field_of};
use sc_message_text::trim;
use sc_value::{Field, NoMemory, Request, Text};
use std::alloc::Global;
use std::marker::Model;

/// What an application notifies of: an event package, for how many seconds at least and at most,
/// and the body that tells the state. The least time is 1 to 3,600 seconds, as no SUBSCRIBE for an
/// hour or more may be refused as too brief (RFC 6665 section 4.2.1.1); the longest is no shorter,
/// and at most 4,000,000.
#[derive(Drop)]
pub struct Rule {
    event_package: Text,
    least: u32,
    longest: u32,
    body: Text,
}

impl Model for Rule {
    ghost use Rattle.std.specs.Prelude.{◌≤◌};
    ghost use Rattle.sc_hosts.specs.Subscriptions.{Rule as Told};

    ghost Value = { Told };

    ghost view = { λ r.
        record {
          event_package = r.event_package;
          least = r.least;
          longest = r.longest;
          body = r.body;
        } };

    ghost invariant = { λ r.
        (1 ≤ r.least) × (r.least ≤ 3600) × (r.least ≤ r.longest) × (r.longest ≤ 4000000) };
}

impl Rule {
    /// The rule of this event package, with these times in seconds and this body.
    ///
    /// # Errors
    ///
    /// The first of these that holds:
    /// - `Least`: the least time isn't 1 to 3,600.
    /// - `Longest`: the longest time is shorter than the least, or more than 4,000,000.
    #[tactic(auto, unfolding(crate::specs::Notifying::rule_of))]
    pub fn new(
        event_package: Text,
        least: u32,
        longest: u32,
        body: Text,
    ) -> Result<Rule, RuleRefused>
        ensures { result ≡ rule_of event_package least longest body }
    {
        if least < 1 || 3600 < least {
            return Err(RuleRefused::Least);
        }
        if longest < least || 4_000_000 < longest {
            return Err(RuleRefused::Longest);
        }
        Ok(Rule {
            event_package,
            least,
            longest,
            body,
        })
    }

    /// The name of the event package.
    pub fn event_package(&self) -> &[u8]
        ensures { result.now ≡ self.now.event_package }
    {
        self.event_package.as_bytes()
    }

    /// The least time of a subscription in seconds, 1 to 3,600.
    pub fn least(&self) -> u32
        ensures same { result ≡ self.now.least }
        ensures low { 1 ≤ result }
        ensures high { result ≤ 3600 }
    {
        self.least
    }

    /// The longest one, at least that and at most 4,000,000.
    pub fn longest(&self) -> u32
        ensures same { result ≡ self.now.longest }
        ensures low { self.now.least ≤ result }
        ensures high { result ≤ 4000000 }
    {
        self.longest
    }

    /// The body that tells the state.
    pub fn body(&self) -> &[u8]
        ensures { result.now ≡ self.now.body }
    {
        self.body.as_bytes()
    }
}

fn is_range(least: u32, longest: u32) -> bool
    ensures { result
        ≡ (nat_le 1 least && nat_le least 3600 && nat_le least longest && nat_le longest 4000000) }
{
    1 <= least && least <= 3600 && least <= longest && longest <= 4_000_000
}

#[tactic(auto, unfolding(sc_hosts::specs::Subscriptions::rule_with))]
fn rule_with(
    alloc: Global,
    event_package: &[u8],
    least: Option<u32>,
    longest: Option<u32>,
    body: &[u8],
) -> Result<Option<Rule>, NoMemory>
    ensures { IfOk result (λ rule. rule ≡ rule_with event_package.now least longest body.now) }
{
    let Some(least) = least else {
        return Ok(None);
    };
    let Some(longest) = longest else {
        return Ok(None);
    };
    if !is_range(least, longest) {
        return Ok(None);
    }
    Ok(Some(Rule {
        event_package: Text::from_slice(alloc, event_package)?,
        least,
        longest,
        body: Text::from_slice(alloc, body)?,
    }))
}

/// The rule that an application's parameters make: the package, its least and its longest time as
/// decimals, and perhaps the body; more parameters are of no account. None where there are fewer
/// than three, or the times are none that a rule has.
///
/// # Errors
///
/// `NoMemory` alone.
#[tactic(auto, unfolding(sc_hosts::specs::Subscriptions::rule_in))]
pub fn rule_in(alloc: Global, params: &[Text]) -> Result<Option<Rule>, NoMemory>
    ensures { IfOk result (λ rule. rule ≡ rule_in params.now) }
{
    match params {
        [event_package, least, longest] => {
            let least = small_number(least.as_bytes());
            let longest = small_number(longest.as_bytes());
            rule_with(alloc, event_package.as_bytes(), least, longest, b"")
        }
        [event_package, least, longest, body, ..] => {
            let least = small_number(least.as_bytes());
            let longest = small_number(longest.as_bytes());
            rule_with(
                alloc,
                event_package.as_bytes(),
                least,
                longest,
                body.as_bytes(),
            )
        }
        _ => Ok(None),
    }
}

#[tactic(auto, unfolding(sc_hosts::specs::Subscriptions::is_event))]
fn is_event(field: &Field) -> bool
    ensures { result ≡ is_event field.now }
{
    let name = field.name.as_bytes();
    same_name(name, b"Event") || same_name(name, b"o")
}

fn event_place(fields: &[Field]) -> Option<usize>
    ensures { result ≡ position is_event fields.now }
{
    fields.iter().position(|field| is_event(field))
}

#[tactic(auto, using(sc_value::proofs::ListFacts::find_position, sc_value::proofs::ListFacts::find_none))]
fn event_among(fields: &[Field]) -> Option<&Field>
    ensures { option_copied result ≡ find is_event fields.now }
{
    match event_place(fields) {
        Some(at) => Some(&fields[at]),
        None => None,
    }
}

#[tactic(auto, unfolding(sc_hosts::specs::Subscriptions::event_value))]
fn event_value(request: &Request) -> Option<&Text>
    ensures { option_copied result ≡ event_value request.now }
{
    match event_among(request.head.others.as_slice()) {
        Some(field) => Some(&field.value),
        None => None,
    }
}

/// The value of a request's Event, nothing where it has none.
pub fn event_of(request: &Request) -> &[u8]
    ensures { result.now ≡ unwrap_or (event_value request.now) [] }
{
    match event_value(request) {
        Some(value) => value.as_bytes(),
        None => b"",
    }
}

fn is_package(value: &[u8], event_package: &[u8]) -> bool
    ensures { result ≡ same_bytes (without_blanks (before 59 value.now)) event_package.now }
{
    let (name, _) = cut(value, b';');
    trim(name) == event_package
}

/// Whether a request's Event is of the rule's package.
#[tactic(auto, unfolding(sc_hosts::specs::Subscriptions::names_package))]
fn names_package(rule: &Rule, request: &Request) -> bool
    ensures { result ≡ names_package rule.now request.now }
{
    match event_value(request) {
        Some(value) => is_package(value.as_bytes(), rule.event_package()),
        None => false,
    }
}

fn expires_of(request: &Request) -> Option<u64>
    ensures { result ≡ option_and_then number_of (field_of (codes "Expires") request.now) }
{
    match field_of(request, b"Expires") {
        Some(value) => read_u64(value.as_bytes()),
        None => None,
    }
}

/// For how many seconds a subscription is asked: as Expires says, else for the longest time.
#[tactic(auto, unfolding(sc_hosts::specs::Subscriptions::asked_seconds))]
fn asked_seconds(rule: &Rule, request: &Request) -> u64
    ensures { result ≡ asked_seconds rule.now request.now }
{
    expires_of(request).unwrap_or(u64::from(rule.longest()))
}

fn seconds_of(asked: u64, longest: u32) -> u32
    ensures exact { result ≡ min asked longest }
    ensures within { result ≤ longest }
{
    if asked < u64::from(longest) {
        asked as u32
    } else {
        longest
    }
}

/// What a SUBSCRIBE asks for, by this rule (RFC 6665 section 4.2.1): `BadEvent` where its first
/// Event (or `o`) is missing or names another package before its `;`; else, where Expires is more
/// than 0 and less than the least time, `Brief`; else `For` the seconds of Expires, or the longest
/// time where it is missing or no number, and no more than that.
#[tactic(auto, unfolding(crate::specs::Notifying::asked_of, crate::specs::Notifying::IsAtMost))]
pub fn asked_for(request: &Request, rule: &Rule) -> Asked
    ensures exact { result ≡ asked_of rule.now request.now }
    ensures within { IsAtMost rule.now.longest result }
    ensures most { IsAtMost 4000000 result }
{
    if !names_package(rule, request) {
        return Asked::BadEvent;
    }
    let asked = asked_seconds(rule, request);
    if 0 < asked && asked < u64::from(rule.least()) {
        return Asked::Brief;
    }
    Asked::For(seconds_of(asked, rule.longest()))
}
