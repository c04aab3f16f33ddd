ghost use Rattle.std.proofs.Common.{rules};
ghost use Rattle.std.specs.Cmp.{partial_order_from_own_ties};
ghost use Rattle.std.specs.Cmp.Rules.{comparing};
ghost use Rattle.std.specs.Ordering.{as_partial_cmp};
ghost use Rattle.sc_model.specs.Timers.{due_order};

use sc_parts::TimerName;
use sc_value::AppId;
use std::cmp::Ordering;
use std::marker::Model;

/// What an entry is known by: its due moment in milliseconds, the application session that it
/// belongs to, and the name of its timer there. Keys are ordered by the moment, then by the
/// session's host and serial, then by the timer's name.
#[derive(Clone, Copy, Debug, PartialEq, Eq)]
pub struct DueKey {
    pub due: u64,
    pub app: AppId,
    pub timer: TimerName,
}

impl Model for DueKey {
    ghost use Rattle.sc_model.specs.Timers.{DueEntry};

    ghost Value = { DueEntry };

    ghost view = { λ k. record { due = k.due; app = k.app; timer = k.timer } };

    ghost inverse = { λ e. record { due = e.due; app = e.app; timer = e.timer } };
}

impl Ord for DueKey {
    ghost cmp = { due_order };

    ghost total = { Prim.search (comparing, rules) depth 9 };

    ghost matches_partial_cmp = { Prim.search (comparing, rules) };

    ghost matches_eq = { Prim.search (comparing, rules) depth 9 };

    fn cmp(&self, other: &DueKey) -> Ordering {
        self.due
            .cmp(&other.due)
            .then(self.app.host.cmp(&other.app.host))
            .then(self.app.serial.cmp(&other.app.serial))
            .then(self.timer.cmp(&other.timer))
    }
}

impl PartialOrd for DueKey {
    ghost partial_cmp = { as_partial_cmp due_order };

    ghost laws = { partial_order_from_own_ties (Prim.search (comparing, rules) depth 9)
        (Prim.search (comparing, rules) depth 9) };

    fn partial_cmp(&self, other: &DueKey) -> Option<Ordering> {
        Some(self.cmp(other))
    }
}
