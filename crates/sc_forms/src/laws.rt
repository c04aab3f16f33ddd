ghost use Rattle.std.specs.Prelude.{◌≡◌, ℕ, List, option_map};
ghost use Rattle.sc_value.specs.declared.ids.AppId.{AppId};
ghost use Rattle.sc_terms.specs.declared.steps.Step.{Step};
ghost use Rattle.sc_parts.specs.declared.setup.Setup.{Setup};
ghost use Rattle.sc_hosts.specs.EventLists.{dropped_events, events_of_session, listing_of, waiting};
ghost use Rattle.sc_hosts.specs.Histories.{as_history, as_session, session_of};
ghost use Rattle.sc_hosts.specs.Runs.{AreLawful, Epoch, IsLawful, all_sent, all_sent_by, is_idle, live_count, net_from, waiting_count};
ghost use Rattle.sc_hosts.specs.Steps.{live_at};
ghost use Rattle.sc_forms.specs.Simulations.{map_live, map_net};

/// Whether sessions are kept as their histories or as what they are, a journal sends the same; the
/// nets that it makes are the same, each history read as the session that it is; and it is lawful
/// in the one where it is in the other. The contract is the law, and the call does nothing.
pub fn forms_agree()
    ensures sent { (setup : Setup) (epoch began : ℕ) (journal : List Step)
        → all_sent (as_history setup.config) setup epoch began journal
        ≡ all_sent as_session setup epoch began journal }
    ensures net { (setup : Setup) (epoch began : ℕ) (journal : List Step)
        → net_from as_session setup epoch began journal
        ≡ map_net (session_of setup.config)
        (net_from (as_history setup.config) setup epoch began journal) }
    ensures lawful { (setup : Setup) (epoch began : ℕ) (journal : List Step)
        → IsLawful (as_history setup.config) setup epoch began journal
        → IsLawful as_session setup epoch began journal }
    ensures lawful_back { (setup : Setup) (epoch began : ℕ) (journal : List Step)
        → IsLawful as_session setup epoch began journal
        → IsLawful (as_history setup.config) setup epoch began journal }
{}

/// What a reader from outside is shown of a net is the same in both forms: its counts, the live
/// session of a name, and the events of a session. The contract is the law, and the call does
/// nothing.
pub fn readers_agree()
    ensures live { (setup : Setup) (epoch began : ℕ) (journal : List Step)
        → live_count (net_from as_session setup epoch began journal)
        ≡ live_count (net_from (as_history setup.config) setup epoch began journal) }
    ensures waiting_count { (setup : Setup) (epoch began : ℕ) (journal : List Step)
        → waiting_count (net_from as_session setup epoch began journal)
        ≡ waiting_count (net_from (as_history setup.config) setup epoch began journal) }
    ensures idle { (setup : Setup) (epoch began : ℕ) (journal : List Step)
        → is_idle (net_from as_session setup epoch began journal)
        ≡ is_idle (net_from (as_history setup.config) setup epoch began journal) }
    ensures session { (setup : Setup) (epoch began : ℕ) (app : AppId) (journal : List Step)
        → live_at app (net_from as_session setup epoch began journal)
        ≡ option_map (map_live (session_of setup.config))
        (live_at app (net_from (as_history setup.config) setup epoch began journal)) }
    ensures queued { (setup : Setup) (epoch began : ℕ) (app : AppId) (journal : List Step)
        → events_of_session as_session setup epoch began app journal
        ≡ events_of_session (as_history setup.config) setup epoch began app journal }
    ensures waiting { (setup : Setup) (epoch began : ℕ) (app : AppId) (journal : List Step)
        → waiting as_session setup epoch began app journal
        ≡ waiting (as_history setup.config) setup epoch began app journal }
    ensures purged { (setup : Setup) (epoch began : ℕ) (app : AppId) (journal : List Step)
        → dropped_events as_session setup epoch began app journal
        ≡ dropped_events (as_history setup.config) setup epoch began app journal }
    ensures listing { (setup : Setup) (epoch began : ℕ) (journal : List Step)
        → listing_of as_session setup epoch began journal
        ≡ listing_of (as_history setup.config) setup epoch began journal }
{}

/// Epochs that follow each other send the same in both forms, and are lawful in the one where they
/// are in the other. The contract is the law, and the call does nothing.
pub fn epochs_agree()
    ensures sent { (setup : Setup) (epochs : List Epoch)
        → all_sent_by (as_history setup.config) setup epochs ≡ all_sent_by as_session setup epochs }
    ensures lawful { (setup : Setup) (epochs : List Epoch)
        → AreLawful (as_history setup.config) setup epochs → AreLawful as_session setup epochs }
    ensures lawful_back { (setup : Setup) (epochs : List Epoch) → AreLawful as_session setup epochs
        → AreLawful (as_history setup.config) setup epochs }
{}
