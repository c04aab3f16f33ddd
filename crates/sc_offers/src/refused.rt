//! How the calls of reliable provisional responses end.

ghost use Rattle.std.specs.Prelude.{◌≡◌};
ghost use Rattle.sc_offers.specs.Offering.{IsTold};

use sc_helpers::{Stopped, heard};
use sc_terms::Refusal;
use sc_value::NoMemory;

/// Why a call of reliable provisional responses was refused.
#[derive(Clone, Copy, Debug, PartialEq, Eq)]
pub enum OfferRefused {
    /// The INVITE has no `100rel` in a Supported or Require header. No call was made.
    Unsupported,
    /// The offer of this RSeq waits for its PRACK. No call was made.
    Pending(u64),
    /// The last RSeq, 2,147,483,647, was given. No call was made.
    Exhausted,
    /// The turn refused a call, and none was made behind it; `NoMemory` also where memory was
    /// wanting.
    Turn {
        /// Why it did.
        refusal: Refusal,
        /// How many calls were accepted before that one, from 0.
        made: u8,
    },
}

/// What a PRACK was for.
#[derive(Clone, Copy, Debug, PartialEq, Eq)]
pub enum Prack {
    /// The offer of this RSeq, which waited for it.
    Acknowledged(u64),
    /// No offer that waits.
    NoMatch,
}

/// Calls that stopped, as a refusal.
pub fn turned(stop: Stopped) -> OfferRefused
    ensures { result ≡ OfferRefused.Turn stop.refusal stop.made }
{
    OfferRefused::Turn {
        refusal: stop.refusal,
        made: stop.made,
    }
}

/// A servlet whose helper was refused makes no further call; for want of memory its turn is over.
#[tactic(auto, unfolding(crate::specs::Offering::IsTold))]
pub fn told(refused: OfferRefused) -> Result<(), NoMemory>
    ensures { IsTold refused result }
{
    match refused {
        OfferRefused::Unsupported => Ok(()),
        OfferRefused::Pending(_) => Ok(()),
        OfferRefused::Exhausted => Ok(()),
        OfferRefused::Turn { refusal, made } => heard(Stopped { refusal, made }),
    }
}
