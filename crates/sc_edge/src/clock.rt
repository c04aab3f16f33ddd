ghost use Rattle.std.specs.Prelude.{◌≡◌, ◌≤◌, ◌+◌, ◌^◌, ℕ, Option};
ghost use Rattle.sc_edge.specs.Faults.{one_more};
ghost use Rattle.sc_edge.specs.Telling.{IsTold};

/// Where moments come from.
pub trait Clock {
    // how often it was asked
    ghost asked: { Self → ℕ };

    // the moment that call `n` from here answers, the next one being call 0; `None` where it isn't
    // told
    ghost comes: { Self → ℕ → Option ℕ };

    /// The moment, in milliseconds, at most 2^63. It may be earlier than one before it.
    fn now(&mut self) -> u64
        ensures asked { asked self.new ≡ one_more (asked self.old) }
        ensures told { IsTold (comes self.old 0) result }
        ensures comes { (n : ℕ) → comes self.new n ≡ comes self.old (n + 1) }
        ensures bound { result ≤ 2 ^ 63 };
}
