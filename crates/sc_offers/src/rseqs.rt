//! The RSeq of the next offer to an INVITE (RFC 3262 sections 3 and 7.1).

ghost use Rattle.std.specs.Prelude.{◌≡◌, None, IfOk};
ghost use Rattle.sc_tokens.specs.Cuts.{pieces};
ghost use Rattle.sc_hosts.specs.Offers.{offer_in};
ghost use Rattle.sc_hosts.specs.Scripting.{attribute};
ghost use Rattle.sc_promised.specs.Reliable.{remembered_at, remembered_in, remembered_of, remembered_three};
ghost use Rattle.sc_offers.specs.Offering.{next_rseq, offer_rseq, rseq_behind};

use crate::offer_texts::{offer_in, rel_name};
use crate::refused::OfferRefused;
use sc_apps::attribute;
use sc_helpers::{lists_option, strict_number, three_pieces};
use sc_terms::View;
use sc_value::{NoMemory, ReqId, Request};
use std::alloc::Global;

#[tactic(auto, unfolding(crate::specs::Offering::rseq_behind))]
fn rseq_behind(rseq: u64) -> Result<u64, OfferRefused>
    ensures { result ≡ rseq_behind rseq }
{
    if 2_147_483_647 <= rseq {
        Err(OfferRefused::Exhausted)
    } else {
        Ok(rseq + 1)
    }
}

#[tactic(auto, unfolding(crate::specs::Offering::next_rseq, sc_promised::specs::Reliable::remembered_three))]
fn settled_rseq(letter: &[u8], rseq: Option<u64>, cseq: Option<u64>) -> Result<u64, OfferRefused>
    ensures { result ≡ next_rseq (remembered_three letter.now rseq cseq) }
{
    let Some(rseq) = rseq else {
        return Ok(1);
    };
    if cseq.is_none() {
        return Ok(1);
    }
    if letter == b"A".as_slice() {
        return rseq_behind(rseq);
    }
    if letter == b"F".as_slice() {
        return rseq_behind(rseq);
    }
    Ok(1)
}

// Of a text that tells of no offer that waits.
#[tactic(auto, unfolding(sc_promised::specs::Reliable::remembered_in), using(crate::proofs::RseqLaws::other_rseq))]
fn ended_rseq(text: &[u8]) -> Result<u64, OfferRefused>
    requires { offer_in (pieces 32 text.now) ≡ None }
    ensures { result ≡ next_rseq (remembered_in (pieces 32 text.now)) }
{
    match three_pieces(text) {
        Some((letter, rseq, cseq)) => {
            settled_rseq(letter, strict_number(rseq), strict_number(cseq))
        }
        None => Ok(1),
    }
}

#[tactic(auto, using(crate::proofs::RseqLaws::waiting_rseq))]
fn text_rseq(text: &[u8]) -> Result<u64, OfferRefused>
    ensures { result ≡ next_rseq (remembered_in (pieces 32 text.now)) }
{
    match offer_in(text) {
        Some(offer) => Err(OfferRefused::Pending(offer.rseq)),
        None => ended_rseq(text),
    }
}

#[tactic(auto, unfolding(crate::specs::Offering::next_rseq, sc_promised::specs::Reliable::remembered_of))]
fn attribute_rseq(view: &View, name: &[u8]) -> Result<u64, OfferRefused>
    ensures { result ≡ next_rseq (remembered_of (attribute name.now view.entry.now)) }
{
    match attribute(view, name) {
        Some(text) => text_rseq(text.as_bytes()),
        None => Ok(1),
    }
}

fn next_rseq(alloc: Global, view: &View, number: u64) -> Result<Result<u64, OfferRefused>, NoMemory>
    ensures { IfOk result (λ rseq. rseq ≡ next_rseq (remembered_at view.entry.now number)) }
{
    let name = rel_name(alloc, number)?;
    Ok(attribute_rseq(view, name.as_bytes()))
}

/// The RSeq that an offer to this INVITE has, or why there is none.
#[tactic(auto, unfolding(crate::specs::Offering::offer_rseq, sc_hosts::specs::Offers::rel_option))]
pub fn offer_rseq(
    alloc: Global,
    view: &View,
    req: ReqId,
    request: &Request,
) -> Result<Result<u64, OfferRefused>, NoMemory>
    ensures { IfOk result (λ rseq. rseq ≡ offer_rseq view.entry.now req request.now) }
{
    if lists_option(request, b"100rel") {
        next_rseq(alloc, view, u64::from(req.0))
    } else {
        Ok(Err(OfferRefused::Unsupported))
    }
}
