ghost use Rattle.std.specs.Prelude.{ℕ, List};
ghost use Rattle.sc_terms.specs.declared.steps.Step.{Step};
ghost use Rattle.sc_parts.specs.declared.setup.Setup.{Setup};
ghost use Rattle.sc_hosts.specs.Histories.{as_history, as_session};
ghost use Rattle.sc_hosts.specs.Runs.{net_from};
ghost use Rattle.sc_vias.specs.Vias.{HaveOwnVias};

/// After any journal, lawful or not, the request of each client transaction stands under the Via
/// that its session drew for its branch; that of a CANCEL stands under the Via of its INVITE. The
/// contract is the law, for each form in which sessions are kept, and the call does nothing.
pub fn clients_have_own_vias()
    ensures session { (setup : Setup) (epoch began : ℕ) (journal : List Step)
        → HaveOwnVias setup.config (net_from as_session setup epoch began journal) }
    ensures history { (setup : Setup) (epoch began : ℕ) (journal : List Step)
        → HaveOwnVias setup.config (net_from (as_history setup.config) setup epoch began journal) }
{}
