//! What the SipSessions of an application session know of their dialogs, by their numbers.

ghost use Rattle.std.specs.Prelude.{◌≡◌, false, position, option_and_then};
ghost use Rattle.std.specs.List.{find};
ghost use Rattle.std.specs.Option.{option_copied, option_map_or};
ghost use Rattle.sc_hosts.specs.Legs.{is_leg_of, leg_of, new_leg};
ghost use Rattle.sc_hosts.specs.PreparingResponses.{is_invalid};

use sc_state::{Known, Leg};
use sc_value::{List, ReqId, SessId, Text};
use std::alloc::Global;

/// The place of a SipSession's leg among these, None where it has none.
pub fn leg_place(legs: &[Leg], sess: SessId) -> Option<usize>
    ensures { result ≡ position (is_leg_of sess) legs.now }
{
    legs.iter().position(|leg| leg.id.0 == sess.0)
}

/// The leg of a SipSession among these, None where it has none.
#[tactic(auto, using(sc_value::proofs::ListFacts::find_position, sc_value::proofs::ListFacts::find_none))]
pub fn leg_among(legs: &[Leg], sess: SessId) -> Option<&Leg>
    ensures { option_copied result ≡ find (is_leg_of sess) legs.now }
{
    match leg_place(legs, sess) {
        Some(at) => Some(&legs[at]),
        None => None,
    }
}

/// What a SipSession knows of its dialog, None where there was never one of this number.
#[tactic(auto, unfolding(sc_hosts::specs::Legs::leg_of))]
pub fn leg_of(known: &Known, sess: SessId) -> Option<&Leg>
    ensures { option_copied result ≡ leg_of known.now sess }
{
    leg_among(known.legs.as_slice(), sess)
}

/// The leg of a SipSession that knows nothing of its dialog yet, with the request that began it,
/// where that has its number.
#[tactic(auto, unfolding(sc_hosts::specs::Legs::new_leg))]
pub fn new_leg(alloc: Global, sess: SessId, first: Option<ReqId>) -> Leg
    ensures { result ≡ new_leg sess first }
{
    Leg {
        id: sess,
        first,
        caller: None,
        dialog: None,
        got: List::new(alloc),
        invalidated: false,
        overtaken: false,
    }
}

/// The caller's tag in a SipSession.
pub fn caller_of(known: &Known, sess: SessId) -> Option<&Text>
    ensures { option_copied result ≡ option_and_then (λ leg. leg.caller) (leg_of known.now sess) }
{
    match leg_of(known, sess) {
        Some(leg) => leg.caller.as_ref(),
        None => None,
    }
}

/// Whether the application ended the SipSession by a call.
#[tactic(auto, unfolding(sc_hosts::specs::PreparingResponses::is_invalid))]
pub fn is_invalid(known: &Known, sess: SessId) -> bool
    ensures { result ≡ is_invalid known.now sess }
{
    match leg_of(known, sess) {
        Some(leg) => leg.invalidated,
        None => false,
    }
}

/// Whether the first 2xx in another SipSession of its INVITE ended the SipSession.
pub fn is_overtaken_leg(known: &Known, sess: SessId) -> bool
    ensures { result ≡ option_map_or (λ leg. leg.overtaken) (leg_of known.now sess) false }
{
    match leg_of(known, sess) {
        Some(leg) => leg.overtaken,
        None => false,
    }
}
