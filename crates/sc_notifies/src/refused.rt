//! What SUBSCRIBEs ask for, and how rules and the calls of event notification are refused.

ghost use Rattle.std.specs.Prelude.{◌≡◌};
ghost use Rattle.sc_notifies.specs.Notifying.{IsTold};

use sc_helpers::{Stopped, heard};
use sc_terms::Refusal;
use sc_value::NoMemory;

/// What a SUBSCRIBE asks for (RFC 6665 section 4.2.1).
#[derive(Clone, Copy, Debug, PartialEq, Eq)]
pub enum Asked {
    /// An event package that isn't the rule's.
    BadEvent,
    /// A subscription of more than 0 seconds, and fewer than the rule's least.
    Brief,
    /// A subscription of so many seconds, at most the rule's longest; 0 ends it.
    For(u32),
}

/// Why there is no such rule.
#[derive(Clone, Copy, Debug, PartialEq, Eq)]
pub enum RuleRefused {
    /// Its least time isn't 1 to 3,600 seconds.
    Least,
    /// Its longest time is shorter than the least, or more than 4,000,000 seconds.
    Longest,
}

/// Why a call of event notification was refused.
#[derive(Clone, Copy, Debug, PartialEq, Eq)]
pub enum NotifyRefused {
    /// The SipSession has no subscription. No call was made.
    NotSubscribed,
    /// The subscription is active. No call was made.
    NotPending,
    /// The turn refused a call, and none was made behind it; `NoMemory` also where memory was
    /// wanting.
    Turn {
        /// Why it did.
        refusal: Refusal,
        /// How many calls were accepted before that one, from 0.
        made: u8,
    },
}

/// Calls that stopped, as a refusal.
pub fn turned(stop: Stopped) -> NotifyRefused
    ensures { result ≡ NotifyRefused.Turn stop.refusal stop.made }
{
    NotifyRefused::Turn {
        refusal: stop.refusal,
        made: stop.made,
    }
}

/// A servlet whose helper was refused makes no further call; for want of memory its turn is over.
#[tactic(auto, unfolding(crate::specs::Notifying::IsTold))]
pub fn told(refused: NotifyRefused) -> Result<(), NoMemory>
    ensures { IsTold refused result }
{
    match refused {
        NotifyRefused::NotSubscribed => Ok(()),
        NotifyRefused::NotPending => Ok(()),
        NotifyRefused::Turn { refusal, made } => heard(Stopped { refusal, made }),
    }
}
