ghost use Rattle.std.specs.Prelude.{◌≡◌, ℕ, List, Some, slice_get};
ghost use Rattle.sc_value.specs.declared.ids.AppId.{AppId};
ghost use Rattle.sc_terms.specs.declared.calls.CallRecord.{CallRecord};
ghost use Rattle.sc_terms.specs.declared.calls.End.{End};
ghost use Rattle.sc_terms.specs.declared.steps.Step.{Step};
ghost use Rattle.sc_parts.specs.declared.setup.Setup.{Setup};
ghost use Rattle.sc_state.specs.declared.host.Live.{Live};
ghost use Rattle.sc_state.specs.declared.queue.Waiting.{Waiting};
ghost use Rattle.sc_state.specs.declared.session.Session.{Session};
ghost use Rattle.sc_hosts.specs.Histories.{History, as_history, as_session};
ghost use Rattle.sc_hosts.specs.Runs.{IsLawful, net_from};
ghost use Rattle.sc_hosts.specs.Steps.{live_at, outcome_by, turn_of};
ghost use Rattle.sc_lasting.specs.Lasting.{All};
ghost use Rattle.sc_hops.specs.Hops.{IsUntagged};
ghost use Rattle.sc_begun.specs.Begun.{IsFirst};

/// A request with a To tag begins no application session: after any journal, lawful or not, the
/// request that began a live session has none. The contract is the law, and the call does nothing.
pub fn sessions_begin_without_tag()
    ensures { (setup : Setup) (epoch began : ℕ) (journal : List Step) (app : AppId)
        (live : Live History)
        → live_at app (net_from (as_history setup.config) setup epoch began journal) ≡ Some live
        → IsFirst live.session.request }
{}

/// No initial request that an application session gives to send has a To tag: it is one that its
/// application made, or the one that began it, proxied; a later request is proxied to no target. So
/// it is of each turn that a live session may take after a lawful journal, whatever its application
/// does in it. The contract is the law, for each form in which sessions are kept, and the call does
/// nothing.
pub fn initial_requests_have_no_tag()
    ensures session { (setup : Setup) (epoch began : ℕ) (journal : List Step) (app : AppId)
        (live : Live Session) (waiting : Waiting) (now : ℕ) (made : List CallRecord) (end : End)
        → IsLawful as_session setup epoch began journal
        → live_at app (net_from as_session setup epoch began journal) ≡ Some live
        → slice_get live.inbox 0 ≡ Some waiting
        → All IsUntagged
        (outcome_by as_session setup.config live.session
        (turn_of (net_from as_session setup epoch began journal) app waiting now made end)).orders }
    ensures history { (setup : Setup) (epoch began : ℕ) (journal : List Step) (app : AppId)
        (live : Live History) (waiting : Waiting) (now : ℕ) (made : List CallRecord) (end : End)
        → IsLawful (as_history setup.config) setup epoch began journal
        → live_at app (net_from (as_history setup.config) setup epoch began journal) ≡ Some live
        → slice_get live.inbox 0 ≡ Some waiting
        → All IsUntagged
        (outcome_by (as_history setup.config) setup.config live.session
        (turn_of (net_from (as_history setup.config) setup epoch began journal) app waiting now made
        end)).orders }
{}
