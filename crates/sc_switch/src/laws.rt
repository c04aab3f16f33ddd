ghost use Rattle.std.specs.Prelude.{ℕ, ◌+◌, [], length};
ghost use Rattle.sc_terms.specs.declared.steps.Step.{Step};
ghost use Rattle.sc_parts.specs.declared.setup.Setup.{Setup};
ghost use Rattle.sc_servlets.specs.declared.done.Done.{Done};
ghost use Rattle.sc_servlets.specs.declared.lease.Lease.{Lease};
ghost use Rattle.sc_switch.specs.declared.refused.Committed.{Committed};
ghost use Rattle.sc_switch.specs.declared.refused.Epoch.{Epoch};
ghost use Rattle.sc_switch.specs.Answers.{IsGiven, IsTurned, Received, handing, with_step};
ghost use Rattle.sc_switch.specs.Ledger.{IsCounted, others_after};
ghost use Rattle.sc_switch.specs.Standing.{Known, AreKept, whole};

/// The number of the last lease is at most the steps of all epochs, the live leases and the answers
/// `Other` of `commit` together: so it is of a new switch, and what each call changes keeps it. The
/// contract is the law, and the call does nothing.
pub fn leases_are_counted()
    ensures new { (setup : Setup)
        → IsCounted 0 0
        (record {
          setup = setup;
          epoch = 0;
          began = 0;
          handed = [];
          journal = [];
          left = [];
          kept = [];
          leases = 0;
        }) }
    ensures step { (earlier others : ℕ) (old : Known) (step : Step) → AreKept old
        → IsCounted earlier others old → IsCounted earlier others (with_step old step) }
    ensures given { (earlier others : ℕ) (old new : Known) (lease : Lease) → IsGiven old new lease
        → IsCounted earlier others old → IsCounted earlier others new }
    ensures brought { (earlier others : ℕ) (old new : Known) (done : Done) (answer : Committed)
        → Received old new done answer → AreKept old → IsCounted earlier others old
        → IsCounted earlier (others_after others answer) new }
    ensures turned { (earlier others : ℕ) (old new : Known) (ended : Epoch) → IsTurned old new ended
        → IsCounted earlier others old → IsCounted (earlier + length (whole old)) others new }
    ensures handed { (earlier others : ℕ) (old : Known) → IsCounted earlier others old
        → IsCounted earlier others (handing old) }
{}
