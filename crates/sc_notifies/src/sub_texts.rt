//! Subscriptions, as their attributes tell them (RFC 6665 section 4.1.2).

ghost use Rattle.std.specs.Prelude.{◌≡◌, ◌++◌, ◌∷◌, [], codes, decimal, IfOk, slice_get, filter_map};
ghost use Rattle.sc_tokens.specs.Cuts.{pieces};
ghost use Rattle.sc_hosts.specs.Subscriptions.{ev_name, letter_of, letter_word, named_sub, seconds_left, state_word, sub_name, sub_text, subscription_in};

use sc_helpers::{numbered, session_after, strict_number, three_pieces};
use sc_value::{Field, NoMemory, SessId, Text, TimerId, sum, write_u64};
use std::alloc::Global;
use std::marker::Model;

/// A subscription.
#[derive(Drop)]
pub struct Subscribed {
    /// Whether it is active, and not pending.
    pub active: bool,
    /// The moment at which it ends, in milliseconds.
    pub due: u64,
    /// Its servlet timer.
    pub timer: u64,
}

impl Model for Subscribed {
    ghost use Rattle.sc_hosts.specs.Subscriptions.{Subscription};

    ghost Value = { Subscription };

    ghost view = { λ s. record { active = s.active; due = s.due; timer = s.timer } };
}

/// A subscription with the number of its SipSession.
#[derive(Drop)]
pub struct NamedSubscribed {
    pub sess: SessId,
    pub sub: Subscribed,
}

impl Model for NamedSubscribed {
    ghost use Rattle.sc_hosts.specs.Subscriptions.{NamedSub};

    ghost Value = { NamedSub };

    ghost view = { λ n. record { sess = n.sess; sub = n.sub } };
}

/// The name of the attribute, and of the servlet timer, of a SipSession's subscription.
#[tactic(auto, unfolding(sc_hosts::specs::Subscriptions::sub_name))]
pub fn sub_name(alloc: Global, sess: SessId) -> Result<Text, NoMemory>
    ensures { IfOk result (λ text. text ≡ sub_name sess) }
{
    numbered(alloc, b"sub", u64::from(sess.0))
}

/// The name of the attribute that keeps the Event of a SipSession's subscription.
#[tactic(auto, unfolding(sc_hosts::specs::Subscriptions::ev_name))]
pub fn ev_name(alloc: Global, sess: SessId) -> Result<Text, NoMemory>
    ensures { IfOk result (λ text. text ≡ ev_name sess) }
{
    numbered(alloc, b"ev", u64::from(sess.0))
}

#[tactic(auto, unfolding(sc_hosts::specs::Subscriptions::letter_word))]
fn letter_word(active: bool) -> &'static [u8]
    ensures { result.now ≡ letter_word active }
{
    if active { b"A " } else { b"P " }
}

/// A subscription, as its attribute tells it: whether it is active, when it ends, and its timer.
#[tactic(auto, unfolding(sc_hosts::specs::Subscriptions::sub_text))]
pub fn sub_text(alloc: Global, active: bool, due: u64, timer: u64) -> Result<Text, NoMemory>
    ensures { IfOk result (λ text. text ≡ sub_text active due timer) }
{
    let mut text = numbered(alloc, letter_word(active), due)?;
    text.append(b" ")?;
    write_u64(timer, &mut text)?;
    Ok(text)
}

#[tactic(auto, unfolding(sc_hosts::specs::Subscriptions::letter_of))]
fn letter_of(word: &[u8]) -> Option<bool>
    ensures { result ≡ letter_of word.now }
{
    if word == b"A".as_slice() {
        return Some(true);
    }
    if word == b"P".as_slice() {
        return Some(false);
    }
    None
}

#[tactic(auto, unfolding(sc_hosts::specs::Subscriptions::subscription_in))]
fn subscription_of(letter: &[u8], due: &[u8], timer: &[u8]) -> Option<Subscribed>
    ensures { result ≡ subscription_in (letter.now ∷ due.now ∷ timer.now ∷ []) }
{
    Some(Subscribed {
        active: letter_of(letter)?,
        due: strict_number(due)?,
        timer: strict_number(timer)?,
    })
}

/// The subscription that an attribute's value tells, None where it tells none.
#[tactic(auto, using(sc_helpers::proofs::Triples::subscription_other))]
pub fn subscription_in(text: &[u8]) -> Option<Subscribed>
    ensures { result ≡ subscription_in (pieces 32 text.now) }
{
    let (letter, due, timer) = three_pieces(text)?;
    subscription_of(letter, due, timer)
}

#[tactic(auto, unfolding(sc_hosts::specs::Subscriptions::named_sub))]
fn named_sub(field: &Field, id: TimerId) -> Option<NamedSubscribed>
    ensures { result ≡ named_sub id field.now }
{
    let sess = session_after(field.name.as_bytes(), b"sub")?;
    let sub = subscription_in(field.value.as_bytes())?;
    if sub.timer == u64::from(id.0) {
        Some(NamedSubscribed { sess, sub })
    } else {
        None
    }
}

/// The first attribute that tells of this servlet timer.
#[tactic(auto, using(sc_helpers::proofs::Firsts::first_found, sc_helpers::proofs::Firsts::first_later))]
pub fn first_sub(fields: &[Field], id: TimerId) -> Option<NamedSubscribed>
    ensures { result ≡ slice_get (filter_map (named_sub id) fields.now) 0 }
{
    for field in fields {
        match named_sub(field, id) {
            Some(named) => return Some(named),
            None => {}
        }
    }
    None
}

#[tactic(auto, unfolding(sc_hosts::specs::Subscriptions::state_word))]
fn state_word(active: bool) -> &'static [u8]
    ensures { result.now ≡ state_word active }
{
    if active { b"active" } else { b"pending" }
}

/// The state of a subscription that goes on for so many seconds.
pub fn state_text(alloc: Global, active: bool, seconds: u64) -> Result<Text, NoMemory>
    ensures { IfOk result
        (λ text. text ≡ state_word active ++ codes ";expires=" ++ decimal seconds) }
{
    let mut text = Text::from_slice(alloc, state_word(active))?;
    text.append(b";expires=")?;
    write_u64(seconds, &mut text)?;
    Ok(text)
}

/// How many seconds are left, rounded up.
#[tactic(auto, unfolding(sc_hosts::specs::Subscriptions::seconds_left))]
pub fn seconds_left(due: u64, now: u64) -> Result<u64, NoMemory>
    ensures { IfOk result (λ seconds. seconds ≡ seconds_left due now) }
{
    let left = sum(due.saturating_sub(now), 999)?;
    Ok(left / 1000)
}
