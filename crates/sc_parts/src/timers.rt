//! The timers of an application session and of its transactions, by name.

ghost use Rattle.std.proofs.Common.{rules};
ghost use Rattle.std.specs.Prelude.{◌≡◌};
ghost use Rattle.std.specs.Cmp.{partial_order_from_own_ties};
ghost use Rattle.std.specs.Cmp.Rules.{comparing};
ghost use Rattle.std.specs.Ordering.{as_partial_cmp, eq_by_cmp};
ghost use Rattle.sc_parts.specs.TimerNames.{number_of, rank_of, timer_order};

use sc_value::TimerId;
use std::cmp::Ordering;

/// The name of a timer in its application session: what it is the timer of. Names are ordered by
/// the number of that, from 0 for the expiry, and of one number as they stand here.
#[derive(Clone, Copy, Debug)]
pub enum TimerName {
    /// The expiry of the application session (JSR 289 section 6.1.2).
    Expiry,
    /// The servlet timer of this number.
    Servlet(TimerId),
    /// The branch of a proxy of this number (RFC 3261 section 16.8).
    Branch(u64),
    /// The client transaction of the branch of this number (RFC 3261 section 17.1).
    Client(u64),
    /// The client transaction of the CANCEL of the branch of this number (RFC 3261 section 9.1).
    Cancel(u64),
    /// The server transaction whose request was queued as the event of this number (RFC 3261
    /// section 17.2).
    Server(u64),
}

fn number_of(timer: TimerName) -> u64
    ensures { result ≡ number_of timer }
{
    match timer {
        TimerName::Expiry => 0,
        TimerName::Servlet(id) => u64::from(id.0),
        TimerName::Branch(number) => number,
        TimerName::Client(branch) => branch,
        TimerName::Cancel(branch) => branch,
        TimerName::Server(event) => event,
    }
}

fn rank_of(timer: TimerName) -> u8
    ensures { result ≡ rank_of timer }
{
    match timer {
        TimerName::Expiry => 0,
        TimerName::Servlet(_) => 1,
        TimerName::Branch(_) => 2,
        TimerName::Client(_) => 3,
        TimerName::Cancel(_) => 4,
        TimerName::Server(_) => 5,
    }
}

impl PartialEq for TimerName {
    ghost eq = { eq_by_cmp timer_order };

    ghost laws = { Prim.search (comparing, rules) depth 9 };

    fn eq(&self, other: &TimerName) -> bool {
        self.cmp(other).is_eq()
    }
}

impl Eq for TimerName {
    ghost laws = { Prim.search (comparing, rules) depth 9 };
}

impl Ord for TimerName {
    ghost cmp = { timer_order };

    ghost total = { Prim.search (comparing, rules) depth 9 };

    ghost matches_partial_cmp = { Prim.search (comparing, rules) };

    ghost matches_eq = { Prim.search (comparing, rules) depth 9 };

    fn cmp(&self, other: &TimerName) -> Ordering {
        let numbers = number_of(*self).cmp(&number_of(*other));
        numbers.then(rank_of(*self).cmp(&rank_of(*other)))
    }
}

impl PartialOrd for TimerName {
    ghost partial_cmp = { as_partial_cmp timer_order };

    ghost laws = { partial_order_from_own_ties (Prim.search (comparing, rules) depth 9)
        (Prim.search (comparing, rules) depth 9) };

    fn partial_cmp(&self, other: &TimerName) -> Option<Ordering> {
        Some(self.cmp(other))
    }
}
