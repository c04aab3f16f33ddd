ghost use Rattle.std.specs.Prelude.{◌≡◌, ◌++◌, ℕ, List, [], ◌∷◌, None, Some};
ghost use Rattle.sc_value.specs.declared.ids.AppId.{AppId};
ghost use Rattle.sc_terms.specs.declared.steps.Step.{Step};
ghost use Rattle.sc_parts.specs.declared.setup.Setup.{Setup};
ghost use Rattle.sc_state.specs.declared.host.Live.{Live};
ghost use Rattle.sc_state.specs.declared.session.Session.{Session};
ghost use Rattle.sc_hosts.specs.EventLists.{dropped_events, events_of_session, turns_of, waiting};
ghost use Rattle.sc_hosts.specs.Histories.{History};
ghost use Rattle.sc_hosts.specs.Runs.{IsLawful, after_step, net_from};
ghost use Rattle.sc_hosts.specs.Sessions.{Form};
ghost use Rattle.sc_hosts.specs.Steps.{live_at};
ghost use Rattle.sc_once.specs.OneHistory.{IsOneHistory};

/// After a lawful journal each event that was queued for an application session was handled by one
/// of its turns, was purged as it ended, or waits, and no two of these. Events are handled in the
/// order in which they were queued. The contract is the law, for each form in which sessions are
/// kept, and the call does nothing.
pub fn one_history()
    ensures session { (form : Form Session) (setup : Setup) (epoch began : ℕ) (journal : List Step)
        (app : AppId) → IsLawful form setup epoch began journal
        → IsOneHistory (events_of_session form setup epoch began app journal) (turns_of app journal)
        (dropped_events form setup epoch began app journal) (waiting form setup epoch began app journal)
        (net_from form setup epoch began journal).count }
    ensures history { (form : Form History) (setup : Setup) (epoch began : ℕ) (journal : List Step)
        (app : AppId) → IsLawful form setup epoch began journal
        → IsOneHistory (events_of_session form setup epoch began app journal) (turns_of app journal)
        (dropped_events form setup epoch began app journal) (waiting form setup epoch began app journal)
        (net_from form setup epoch began journal).count }
{}

/// After the step that ends an application session it takes no more turns, and nothing waits in it.
/// The contract is the law, for each form in which sessions are kept, and the call does nothing.
pub fn ended_sessions_are_quiet()
    ensures session { (form : Form Session) (setup : Setup) (epoch began : ℕ)
        (before later : List Step) (step : Step) (app : AppId) (live : Live Session)
        → IsLawful form setup epoch began (before ++ step ∷ later)
        → live_at app (net_from form setup epoch began before) ≡ Some live
        → live_at app (after_step form setup (net_from form setup epoch began before) step) ≡ None
        → (turns_of app later ≡ [])
        × (waiting form setup epoch began app (before ++ step ∷ later) ≡ []) }
    ensures history { (form : Form History) (setup : Setup) (epoch began : ℕ)
        (before later : List Step) (step : Step) (app : AppId) (live : Live History)
        → IsLawful form setup epoch began (before ++ step ∷ later)
        → live_at app (net_from form setup epoch began before)
        ≡ Some live
        → live_at app (after_step form setup (net_from form setup epoch began before) step) ≡ None
        → (turns_of app later ≡ [])
        × (waiting form setup epoch began app (before ++ step ∷ later) ≡ []) }
{}
