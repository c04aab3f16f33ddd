//! The offers of INVITEs, as their attributes tell them (RFC 3262 sections 3 and 7).

ghost use Rattle.std.specs.Prelude.{◌≡◌, ◌==◌, ◌∷◌, [], false, codes, IfOk};
ghost use Rattle.std.specs.Option.{option_map_or};
ghost use Rattle.sc_tokens.specs.Cuts.{pieces};
ghost use Rattle.sc_tokens.specs.Numbers.{number_of};
ghost use Rattle.sc_hosts.specs.HelperParts.{field_of};
ghost use Rattle.sc_hosts.specs.Offers.{offer_in, offer_text, ended_offer_text, rel_name};

use sc_ascii::read_u64;
use sc_helpers::{cut, numbered, strict_number};
use sc_value::{NoMemory, Text, write_u64};
use std::alloc::Global;
use std::marker::Model;

/// A reliable provisional response that waits for its PRACK.
#[derive(Drop)]
pub struct Waiting {
    /// Its RSeq.
    pub rseq: u64,
    /// The number in the CSeq of the INVITE.
    pub cseq: u64,
    /// Its timer, 0 for none.
    pub timer: u64,
}

impl Model for Waiting {
    ghost use Rattle.sc_hosts.specs.Offers.{Offer};

    ghost Value = { Offer };

    ghost view = { λ o. record { letter = 80; rseq = o.rseq; cseq = o.cseq; timer = o.timer } };
}

/// The name of the attribute of an INVITE's offer.
#[tactic(auto, unfolding(sc_hosts::specs::Offers::rel_name))]
pub fn rel_name(alloc: Global, number: u64) -> Result<Text, NoMemory>
    ensures { IfOk result (λ text. text ≡ rel_name number) }
{
    numbered(alloc, b"rel", number)
}

#[tactic(auto, unfolding(sc_hosts::specs::Offers::offer_in))]
fn offer_of(letter: &[u8], rseq: &[u8], cseq: &[u8], timer: &[u8]) -> Option<Waiting>
    ensures { result ≡ offer_in (letter.now ∷ rseq.now ∷ cseq.now ∷ timer.now ∷ []) }
{
    if letter != b"P".as_slice() {
        return None;
    }
    Some(Waiting {
        rseq: strict_number(rseq)?,
        cseq: strict_number(cseq)?,
        timer: strict_number(timer)?,
    })
}

/// The offer that an attribute's value tells, None where none waits.
#[tactic(auto, unfolding(sc_hosts::specs::Offers::offer_in, sc_helpers::specs::Parts::more_pieces), using(sc_helpers::proofs::Cuts::offer_long))]
pub fn offer_in(text: &[u8]) -> Option<Waiting>
    ensures { result ≡ offer_in (pieces 32 text.now) }
{
    let (letter, rest) = cut(text, b' ');
    let (rseq, rest) = cut(rest?, b' ');
    let (cseq, rest) = cut(rest?, b' ');
    let (timer, rest) = cut(rest?, b' ');
    match rest {
        Some(_) => None,
        None => offer_of(letter, rseq, cseq, timer),
    }
}

/// An offer that waits, as its attribute tells it.
#[tactic(auto, unfolding(sc_hosts::specs::Offers::offer_text))]
pub fn offer_text(alloc: Global, rseq: u64, cseq: u64, timer: u64) -> Result<Text, NoMemory>
    ensures { IfOk result (λ text. text ≡ offer_text rseq cseq timer) }
{
    let mut text = numbered(alloc, b"P ", rseq)?;
    text.append(b" ")?;
    write_u64(cseq, &mut text)?;
    text.append(b" ")?;
    write_u64(timer, &mut text)?;
    Ok(text)
}

/// An offer that came to its end: with the letter `A` by a PRACK, with `F` without.
#[tactic(auto, unfolding(sc_hosts::specs::Offers::ended_offer_text))]
pub fn ended_offer_text(alloc: Global, letter: u8, offer: &Waiting) -> Result<Text, NoMemory>
    ensures { IfOk result (λ text. text ≡ ended_offer_text letter offer.now) }
{
    let mut text = Text::from_slice(alloc, &[letter])?;
    text.append(b" ")?;
    write_u64(offer.rseq, &mut text)?;
    text.append(b" ")?;
    write_u64(offer.cseq, &mut text)?;
    Ok(text)
}

/// Whether a text is this number.
pub fn is_number(text: &[u8], number: u64) -> bool
    ensures { result ≡ option_map_or (λ n. n == number) (number_of text.now) false }
{
    match read_u64(text) {
        Some(n) => n == number,
        None => false,
    }
}
