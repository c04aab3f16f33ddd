ghost use Rattle.std.specs.Prelude.{◌≡◌, List, ◌++◌};
ghost use Rattle.sc_terms.specs.declared.steps.Line.{Line};
ghost use Rattle.sc_terms.specs.declared.steps.Step.{Step};
ghost use Rattle.sc_edge.specs.declared.edge.Polled.{Polled};
ghost use Rattle.sc_parts.specs.declared.setup.Setup.{Setup};
ghost use Rattle.sc_hosts.specs.Histories.{as_history, as_session};
ghost use Rattle.sc_runs.specs.Following.{Follows, Upto};
ghost use Rattle.sc_runs.specs.Heard.{Heard, HeardPart};
ghost use Rattle.sc_runs.specs.Outputs.{output};

/// Whether sessions are kept as their histories or as what they are, a journal has the same output,
/// and it follows a script, or a beginning of it, in the one form where it does in the other. The
/// contract is the law, and the call does nothing.
pub fn scripts_agree()
    ensures output { (setup : Setup) (journal : List Step)
        → output (as_history setup.config) setup journal ≡ output as_session setup journal }
    ensures follows { (setup : Setup) (lines : List Line) (journal : List Step)
        → Follows (as_history setup.config) setup lines journal
        → Follows as_session setup lines journal }
    ensures follows_back { (setup : Setup) (lines : List Line) (journal : List Step)
        → Follows as_session setup lines journal
        → Follows (as_history setup.config) setup lines journal }
    ensures upto { (setup : Setup) (lines : List Line) (journal : List Step)
        → Upto (as_history setup.config) setup lines journal → Upto as_session setup lines journal }
    ensures upto_back { (setup : Setup) (lines : List Line) (journal : List Step)
        → Upto as_session setup lines journal → Upto (as_history setup.config) setup lines journal }
{}

/// Each beginning of the steps that are heard is heard in part, also one that ends within what an
/// answer of an edge makes. The contract is the law, and the call does nothing.
pub fn beginnings_are_heard()
    ensures { (given : List Polled) (taken later : List Step) → Heard given (taken ++ later)
        → HeardPart given taken }
{}
