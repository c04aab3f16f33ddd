//! The offer of an INVITE that waits for its PRACK, and how it ends.

ghost use Rattle.std.specs.Prelude.{◌≡◌, ◌+◌, ◌<◌, IfOk, option_and_then};
ghost use Rattle.sc_tokens.specs.Cuts.{pieces};
ghost use Rattle.sc_hosts.specs.HelperParts.{accepted_then};
ghost use Rattle.sc_hosts.specs.Offers.{ended_offer_text, offer_in, pending_offer, rel_name};
ghost use Rattle.sc_hosts.specs.Scripting.{attribute};
ghost use Rattle.sc_helpers.specs.Stopping.{Leads};

use crate::offer_texts::{Waiting, ended_offer_text, offer_in, rel_name};
use sc_apps::{attribute, memory_of};
use sc_helpers::{Stopped, try_set_attribute, wanting};
use sc_terms::{Call, View};
use sc_turn::Turn;
use sc_value::{NoMemory, Text};
use std::alloc::Global;

fn offer_at(view: &View, name: &[u8]) -> Option<Waiting>
    ensures { result
        ≡ option_and_then (λ text. offer_in (pieces 32 text)) (attribute name.now view.entry.now) }
{
    match attribute(view, name) {
        Some(text) => offer_in(text.as_bytes()),
        None => None,
    }
}

/// The offer of the INVITE of this number that waits, None where none does.
#[tactic(auto, unfolding(sc_hosts::specs::Offers::pending_offer))]
pub fn pending_offer(alloc: Global, view: &View, number: u64) -> Result<Option<Waiting>, NoMemory>
    ensures { IfOk result (λ offer. offer ≡ pending_offer view.entry.now number) }
{
    let name = rel_name(alloc, number)?;
    Ok(offer_at(view, name.as_bytes()))
}

fn ended_texts(
    alloc: Global,
    number: u64,
    letter: u8,
    offer: &Waiting,
) -> Result<(Text, Text), NoMemory>
    ensures { IfOk result
        (λ texts. (texts.0 ≡ rel_name number) × (texts.1 ≡ ended_offer_text letter offer.now)) }
{
    let name = rel_name(alloc, number)?;
    let value = ended_offer_text(alloc, letter, offer)?;
    Ok((name, value))
}

/// Notes that an offer came to its end, by a PRACK with the letter `A`, without one with `F`.
#[tactic(auto, using(sc_helpers::proofs::Steps::led_wanting))]
pub fn note_ended(
    turn: &mut Turn,
    made: u8,
    number: u64,
    letter: u8,
    offer: &Waiting,
) -> Result<u8, Stopped>
    requires few { made < 100 }
    ensures same { turn.new.shown ≡ turn.old.shown }
    ensures led { Leads
        (accepted_then (Call.SetAttribute (rel_name number) (ended_offer_text letter offer.now)))
        made turn.old result turn.new }
    ensures count { IfOk result (λ after. after ≡ made + 1) }
{
    match ended_texts(memory_of(turn), number, letter, offer) {
        Ok((name, value)) => try_set_attribute(turn, made, name, value),
        Err(NoMemory) => Err(wanting(made)),
    }
}
