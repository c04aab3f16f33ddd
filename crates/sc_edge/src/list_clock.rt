ghost use Rattle.std.specs.Prelude.{◌≡◌, ◌≤◌, ◌+◌, ◌^◌, ℕ, Some, IfSome, is_some, nat_le};
ghost use Rattle.std.specs.List.{list_all};
ghost use Rattle.sc_edge.specs.Answering.{after_now, moment_at};
ghost use Rattle.sc_edge.specs.Faults.{one_more};
ghost use Rattle.sc_edge.specs.Telling.{IsTold};

use crate::Clock;
use crate::plan::counted;
use sc_value::List;
use std::marker::Model;

// The last moment that a clock may tell.
const LAST: u64 = 1 << 63;

/// A clock that answers the moments of a list, and then its last moment for ever (0 where the list
/// is empty).
#[derive(Drop)]
pub struct ListClock {
    moments: List<u64>,
    next: usize,
    last: u64,
    asked: u64,
}

impl Model for ListClock {
    ghost use Rattle.std.specs.Prelude.{◌≡◌, ◌≤◌, ◌^◌, true, nat_le};
    ghost use Rattle.std.specs.List.{list_all};
    ghost use Rattle.std.proofs.Math.ListN.{drop};
    ghost use Rattle.sc_edge.specs.Answering.{ClockState};

    ghost Value = { ClockState };

    ghost view = { λ s. record { left = drop s.next s.moments; last = s.last; asked = s.asked } };

    ghost invariant = { λ s.
        (list_all (λ m. nat_le m (2 ^ 63)) (drop s.next s.moments) ≡ true) × (s.last ≤ 2 ^ 63) };
}

// Whether none of them is later than a clock may tell.
fn are_moments(moments: &[u64]) -> bool
    ensures { result ≡ list_all (λ m. nat_le m (2 ^ 63)) moments.now }
{
    moments.iter().all(|moment| *moment <= LAST)
}

impl ListClock {
    /// The clock of these moments; `None` where one of them is later than 2^63.
    pub fn new(moments: List<u64>) -> Option<ListClock>
        ensures some { is_some result ≡ list_all (λ m. nat_le m (2 ^ 63)) moments }
        ensures made { IfSome result (λ s. s ≡ record { left = moments; last = 0; asked = 0 }) }
    {
        if !are_moments(moments.as_slice()) {
            return None;
        }
        Some(ListClock {
            moments,
            next: 0,
            last: 0,
            asked: 0,
        })
    }

    /// How often it was asked.
    pub fn asked(&self) -> u64
        ensures { result ≡ self.now.asked }
    {
        self.asked
    }
}

impl Clock for ListClock {
    ghost asked = { λ s. s.asked };

    ghost comes = { λ s n. Some (moment_at s.left s.last n) };

    fn now(&mut self) -> u64
        ensures asked { self.new.asked ≡ one_more self.old.asked }
        ensures told { IsTold (Some (moment_at self.old.left self.old.last 0)) result }
        ensures comes { (n : ℕ)
            → Some (moment_at self.new.left self.new.last n)
            ≡ Some (moment_at self.old.left self.old.last (n + 1)) }
        ensures bound { result ≤ 2 ^ 63 }
        ensures after { self.new ≡ after_now self.old }
    {
        self.asked = counted(self.asked);
        if let Some(moment) = self.moments.as_slice().get(self.next) {
            self.last = *moment;
            self.next += 1;
        }
        self.last
    }
}
