//! The calls of reliable provisional responses.

use crate::helping::{request_of, written};
use crate::reading::{number, word};
use sc_offers::{OfferRefused, Prack, invite_of, late, offer, take_prack};
use sc_turn::Turn;
use sc_value::{NoMemory, ReqId, Request, SessId, Text, TimerId};
use std::alloc::Global;

fn given(alloc: Global, answered: Result<u64, OfferRefused>) -> Option<String> {
    match answered {
        Ok(rseq) => written(format!(in alloc; "{rseq}")),
        Err(refused) => written(format!(in alloc; "{refused:?}")),
    }
}

fn offer_to(t: &mut Turn, alloc: Global, req: ReqId, request: &Request) -> Option<String> {
    match Text::from_slice(alloc, b"Session Progress") {
        Ok(reason) => given(alloc, offer(t, req, request, 183, reason, Text::new(alloc))),
        Err(NoMemory) => None,
    }
}

// An INVITE.
fn offer_row(t: &mut Turn, alloc: Global, row: &str) -> Option<String> {
    match request_of(alloc, row) {
        Some(request) => offer_to(t, alloc, ReqId(number(row, 1)), request.get()),
        None => None,
    }
}

fn taken(alloc: Global, answered: Result<Prack, OfferRefused>) -> Option<String> {
    match answered {
        Ok(prack) => written(format!(in alloc; "{prack:?}")),
        Err(refused) => written(format!(in alloc; "{refused:?}")),
    }
}

// An INVITE and a PRACK.
fn prack_row(t: &mut Turn, alloc: Global, row: &str) -> Option<String> {
    match request_of(alloc, row) {
        Some(prack) => taken(
            alloc,
            take_prack(t, ReqId(number(row, 1)), ReqId(number(row, 2)), prack.get()),
        ),
        None => None,
    }
}

// An INVITE and a timer.
fn late_row(t: &mut Turn, alloc: Global, row: &str) -> Option<String> {
    match late(t, ReqId(number(row, 1)), TimerId(number(row, 2))) {
        Ok(is_late) => written(format!(in alloc; "{is_late}")),
        Err(refused) => written(format!(in alloc; "{refused:?}")),
    }
}

// A SipSession.
fn invite_row(t: &Turn, alloc: Global, row: &str) -> Option<String> {
    match invite_of(t.view(), SessId(number(row, 1))) {
        Some(req) => {
            let n = req.0;
            written(format!(in alloc; "{n}"))
        }
        None => Some(String::new(alloc)),
    }
}

/// Makes the call that a row names. None where it names none of these.
pub fn help_offering(t: &mut Turn, alloc: Global, row: &str) -> Option<String> {
    let name = word(row, 0);
    if name == "offer" {
        return offer_row(t, alloc, row);
    }
    if name == "take_prack" {
        return prack_row(t, alloc, row);
    }
    if name == "late" {
        return late_row(t, alloc, row);
    }
    if name == "invite_of" {
        return invite_row(t, alloc, row);
    }
    None
}
