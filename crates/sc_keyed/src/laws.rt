ghost use Rattle.std.specs.Prelude.{ℕ, List};
ghost use Rattle.sc_terms.specs.declared.calls.CallRecord.{CallRecord};
ghost use Rattle.sc_terms.specs.declared.calls.End.{End};
ghost use Rattle.sc_terms.specs.declared.settings.Config.{Config};
ghost use Rattle.sc_terms.specs.declared.steps.Step.{Step};
ghost use Rattle.sc_parts.specs.declared.setup.Setup.{Setup};
ghost use Rattle.sc_state.specs.declared.queue.Waiting.{Waiting};
ghost use Rattle.sc_state.specs.declared.session.Session.{Session};
ghost use Rattle.sc_hosts.specs.Finishing.{outcome};
ghost use Rattle.sc_hosts.specs.Histories.{as_history, as_session};
ghost use Rattle.sc_hosts.specs.Runs.{net_from};
ghost use Rattle.sc_once.specs.Growing.{IsBetween};
ghost use Rattle.sc_keyed.specs.Keyed.{AreOn, HaveOwnKeys, new_branches};

/// Each request that a turn sends goes on a branch of its own: the branches rise, from above the
/// last number that its session drew before the turn up to the last that it has drawn after it. An
/// ACK to a 2xx, which has no transaction, has one of them too, and each request stands under the
/// Via of its branch. So it is for any session, event and calls. The contract is the law, and the
/// call does nothing.
pub fn branches_are_new()
    ensures vias { (config : Config) (ringing : List ℕ) (session : Session) (waiting : Waiting)
        (now : ℕ) (made : List CallRecord) (end : End)
        → AreOn config session.view.epoch session.view.app session.view.counter
        (outcome config ringing session waiting now made end).orders
        (outcome config ringing session waiting now made end).session.view.counter }
    ensures branches { (config : Config) (ringing : List ℕ) (session : Session) (waiting : Waiting)
        (now : ℕ) (made : List CallRecord) (end : End)
        → IsBetween (new_branches (outcome config ringing session waiting now made end).orders)
        session.view.counter
        (outcome config ringing session waiting now made end).session.view.counter }
{}

/// A host knows each of its transactions by a key that no other has: after any journal, lawful or
/// not, no two clients of a host are of one session, branch and kind, a request and its CANCEL
/// being two kinds, no two servers are of one event, and each is of a session of that host. So
/// there is one CANCEL at most for an INVITE. The contract is the law, for each form in which
/// sessions are kept, and the call does nothing.
pub fn keys_are_own()
    ensures session { (setup : Setup) (epoch began : ℕ) (journal : List Step)
        → HaveOwnKeys (net_from as_session setup epoch began journal) }
    ensures history { (setup : Setup) (epoch began : ℕ) (journal : List Step)
        → HaveOwnKeys (net_from (as_history setup.config) setup epoch began journal) }
{}
