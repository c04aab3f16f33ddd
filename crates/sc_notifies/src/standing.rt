//! How the subscription of a SipSession stands, read before the first call of a turn.

ghost use Rattle.std.specs.Prelude.{◌≡◌, [], Some, IfOk, option_and_then, option_map, unwrap_or};
ghost use Rattle.sc_tokens.specs.Cuts.{pieces};
ghost use Rattle.sc_hosts.specs.Scripting.{attribute};
ghost use Rattle.sc_hosts.specs.Subscriptions.{event_of, seconds_left, subscription_in, subscription_of};
ghost use Rattle.sc_notifies.specs.Notifying.{live_by, live_of};
ghost use Rattle.sc_notifies.specs.SubScripts.{standing_of, timer_of_sub};

use crate::sub_texts::{Subscribed, ev_name, seconds_left, sub_name, subscription_in};
use sc_apps::attribute;
use sc_helpers::{has_attribute, timer_named};
use sc_terms::View;
use sc_value::{CloneIn, NoMemory, ReqId, SessId, Text, TimerId};
use std::alloc::Global;

/// How a subscription stands at the beginning of a turn.
#[derive(Clone, Copy, Debug)]
pub struct Standing {
    /// Its timer, where that runs.
    pub running: Option<TimerId>,
    /// Whether there is the attribute that tells of it.
    pub told: bool,
    /// Whether there is the attribute that keeps its Event.
    pub named: bool,
}

/// A subscription with what its calls need.
#[derive(Drop)]
pub struct Live {
    /// The subscription.
    pub sub: Subscribed,
    /// Its Event.
    pub event: Text,
    /// How many seconds are left, rounded up.
    pub left: u64,
    /// How it stands.
    pub standing: Standing,
    /// The number of the next request.
    pub next: ReqId,
}

fn subscription_at(view: &View, name: &[u8]) -> Option<Subscribed>
    ensures { result
        ≡ option_and_then (λ text. subscription_in (pieces 32 text))
        (attribute name.now view.entry.now) }
{
    match attribute(view, name) {
        Some(text) => subscription_in(text.as_bytes()),
        None => None,
    }
}

/// The subscription of a SipSession.
#[tactic(auto, unfolding(sc_hosts::specs::Subscriptions::subscription_of))]
pub fn subscription_of(
    alloc: Global,
    view: &View,
    sess: SessId,
) -> Result<Option<Subscribed>, NoMemory>
    ensures { IfOk result (λ sub. sub ≡ subscription_of view.entry.now sess) }
{
    let name = sub_name(alloc, sess)?;
    Ok(subscription_at(view, name.as_bytes()))
}

fn text_at(alloc: Global, view: &View, name: &[u8]) -> Result<Text, NoMemory>
    ensures { IfOk result (λ text. text ≡ unwrap_or (attribute name.now view.entry.now) []) }
{
    match attribute(view, name) {
        Some(text) => text.clone_in(alloc),
        None => Ok(Text::new(alloc)),
    }
}

/// The Event of a SipSession's subscription, nothing where none is kept.
#[tactic(auto, unfolding(sc_hosts::specs::Subscriptions::event_of))]
pub fn event_of(alloc: Global, view: &View, sess: SessId) -> Result<Text, NoMemory>
    ensures { IfOk result (λ text. text ≡ event_of view.entry.now sess) }
{
    let name = ev_name(alloc, sess)?;
    text_at(alloc, view, name.as_bytes())
}

#[tactic(auto, unfolding(crate::specs::SubScripts::timer_of_sub))]
fn timer_of(view: &View, sub: &Option<Subscribed>) -> Option<TimerId>
    ensures { result ≡ timer_of_sub view.entry.now sub.now }
{
    match sub {
        Some(sub) => timer_named(view, sub.timer),
        None => None,
    }
}

/// How a subscription of a SipSession stands.
#[tactic(auto, unfolding(crate::specs::SubScripts::standing_of))]
pub fn standing_of(
    alloc: Global,
    view: &View,
    sess: SessId,
    sub: &Option<Subscribed>,
) -> Result<Standing, NoMemory>
    ensures { IfOk result (λ standing. standing ≡ standing_of view.entry.now sess sub.now) }
{
    let told = sub_name(alloc, sess)?;
    let named = ev_name(alloc, sess)?;
    Ok(Standing {
        running: timer_of(view, sub),
        told: has_attribute(view, told.as_bytes()),
        named: has_attribute(view, named.as_bytes()),
    })
}

#[tactic(auto, unfolding(crate::specs::SubScripts::standing_of, crate::specs::SubScripts::timer_of_sub))]
fn standing_by(
    alloc: Global,
    view: &View,
    sess: SessId,
    sub: &Subscribed,
) -> Result<Standing, NoMemory>
    ensures { IfOk result (λ standing. standing ≡ standing_of view.entry.now sess (Some sub.now)) }
{
    let told = sub_name(alloc, sess)?;
    let named = ev_name(alloc, sess)?;
    Ok(Standing {
        running: timer_named(view, sub.timer),
        told: has_attribute(view, told.as_bytes()),
        named: has_attribute(view, named.as_bytes()),
    })
}

fn parts_of(
    alloc: Global,
    view: &View,
    sess: SessId,
    sub: &Subscribed,
) -> Result<(Text, u64, Standing), NoMemory>
    ensures { IfOk result
        (λ parts.
        (parts.0 ≡ event_of view.entry.now sess)
        × (parts.1 ≡ seconds_left sub.now.due view.entry.now.now)
        × (parts.2 ≡ standing_of view.entry.now sess (Some sub.now))) }
{
    let event = event_of(alloc, view, sess)?;
    let left = seconds_left(sub.due, view.now)?;
    let standing = standing_by(alloc, view, sess, sub)?;
    Ok((event, left, standing))
}

/// A subscription of a SipSession with what its calls need.
#[tactic(auto, unfolding(crate::specs::Notifying::live_by, crate::specs::Notifying::next_of))]
pub fn live_by(alloc: Global, view: &View, sess: SessId, sub: Subscribed) -> Result<Live, NoMemory>
    ensures { IfOk result (λ live. live ≡ live_by view.entry.now sess sub) }
{
    match parts_of(alloc, view, sess, &sub) {
        Ok((event, left, standing)) => Ok(Live {
            sub,
            event,
            left,
            standing,
            next: ReqId(view.next_request),
        }),
        Err(NoMemory) => Err(NoMemory),
    }
}

fn live_some(
    alloc: Global,
    view: &View,
    sess: SessId,
    sub: Option<Subscribed>,
) -> Result<Option<Live>, NoMemory>
    ensures { IfOk result (λ live. live ≡ option_map (live_by view.entry.now sess) sub) }
{
    match sub {
        Some(sub) => {
            let live = live_by(alloc, view, sess, sub)?;
            Ok(Some(live))
        }
        None => Ok(None),
    }
}

/// The subscription of a SipSession with what its calls need, None where there is none.
#[tactic(auto, unfolding(crate::specs::Notifying::live_of))]
pub fn live_of(alloc: Global, view: &View, sess: SessId) -> Result<Option<Live>, NoMemory>
    ensures { IfOk result (λ live. live ≡ live_of view.entry.now sess) }
{
    let sub = subscription_of(alloc, view, sess)?;
    live_some(alloc, view, sess, sub)
}
