ghost use Rattle.std.specs.Prelude.{◌≡◌, ◌+◌, ◌++◌, ℕ, List, [], ◌∷◌, false, Some, slice_get};
ghost use Rattle.std.specs.List.{All, find};
ghost use Rattle.sc_value.specs.declared.ids.AppId.{AppId};
ghost use Rattle.sc_terms.specs.declared.settings.Config.{Config};
ghost use Rattle.sc_terms.specs.declared.steps.Step.{Step};
ghost use Rattle.sc_terms.specs.declared.steps.Step.TheVariants as steps;
ghost use Rattle.sc_parts.specs.declared.setup.Setup.{Setup};
ghost use Rattle.sc_state.specs.declared.host.Live.{Live};
ghost use Rattle.sc_state.specs.declared.net.Net.{Net};
ghost use Rattle.sc_state.specs.declared.queue.Waiting.{Waiting};
ghost use Rattle.sc_state.specs.declared.session.Session.{Session};
ghost use Rattle.sc_servlets.specs.declared.lease.Lease.{Lease};
ghost use Rattle.sc_hosts.specs.Histories.{History};
ghost use Rattle.sc_hosts.specs.Preparing.{prepared_session};
ghost use Rattle.sc_hosts.specs.Runs.{IsAllowed, IsLawful, IsLawfulFrom, after_step, all_sent, all_sent_from, chained_from, live_count, net_from};
ghost use Rattle.sc_hosts.specs.Sessions.{Form};
ghost use Rattle.sc_hosts.specs.Steps.{live_at};
ghost use Rattle.sc_runs.specs.Next.{Next};
ghost use Rattle.sc_leases.specs.Leases.{AreLeases, IsLeaseOf, has_number, is_leased, is_own, kept_after, next_free, without_number};
ghost use Rattle.sc_leases.specs.Staying.{StillFirst};

/// A step that is no turn and no withdrawal of an application session leaves its first event first:
/// it lives on as it was, and later events only come at the end of its inbox. Nothing is asked of
/// the net or of the step. The contract is the law, for each form in which sessions are kept, and
/// the call does nothing.
pub fn first_events_stay()
    ensures session { (form : Form Session) (setup : Setup) (net : Net Session) (step : Step)
        (app : AppId) (live : Live Session) (waiting : Waiting) → is_own app step ≡ false
        → live_at app net ≡ Some live → slice_get live.inbox 0 ≡ Some waiting
        → StillFirst live waiting (live_at app (after_step form setup net step)) }
    ensures history { (form : Form History) (setup : Setup) (net : Net History) (step : Step)
        (app : AppId) (live : Live History) (waiting : Waiting) → is_own app step ≡ false
        → live_at app net ≡ Some live → slice_get live.inbox 0 ≡ Some waiting
        → StillFirst live waiting (live_at app (after_step form setup net step)) }
{}

/// The view and the event that a turn shows don't depend on which branches are ringing. The
/// contract is the law, and the call does nothing.
pub fn views_leave_out_ringing()
    ensures view { (config : Config) (a b : List ℕ) (session : Session) (waiting : Waiting)
        (now : ℕ)
        → (prepared_session config a session waiting now).view
        ≡ (prepared_session config b session waiting now).view }
    ensures event { (config : Config) (a b : List ℕ) (session : Session) (waiting : Waiting)
        (now : ℕ)
        → (prepared_session config a session waiting now).event
        ≡ (prepared_session config b session waiting now).event }
{}

/// A lease that shows what there is goes on to, over each allowed step and each lawful list of
/// steps with no turn and no withdrawal of its session. The contract is the law, for each form in
/// which sessions are kept, and the call does nothing.
pub fn leases_stay()
    ensures session_step { (form : Form Session) (setup : Setup) (net : Net Session) (step : Step)
        (lease : Lease) → IsAllowed form setup net step → is_own lease.app step ≡ false
        → IsLeaseOf form setup net lease
        → IsLeaseOf form setup (after_step form setup net step) lease }
    ensures history_step { (form : Form History) (setup : Setup) (net : Net History) (step : Step)
        (lease : Lease) → IsAllowed form setup net step → is_own lease.app step ≡ false
        → IsLeaseOf form setup net lease
        → IsLeaseOf form setup (after_step form setup net step) lease }
    ensures session_journal { (form : Form Session) (setup : Setup) (epoch began : ℕ)
        (before later : List Step) (lease : Lease)
        → IsLawful form setup epoch began (before ++ later)
        → All (λ step. is_own lease.app step ≡ false) later
        → IsLeaseOf form setup (net_from form setup epoch began before) lease
        → IsLeaseOf form setup (net_from form setup epoch began (before ++ later)) lease }
    ensures history_journal { (form : Form History) (setup : Setup) (epoch began : ℕ)
        (before later : List Step) (lease : Lease)
        → IsLawful form setup epoch began (before ++ later)
        → All (λ step. is_own lease.app step ≡ false) later
        → IsLeaseOf form setup (net_from form setup epoch began before) lease
        → IsLeaseOf form setup (net_from form setup epoch began (before ++ later)) lease }
{}

/// The leases that a container keeps go on to show what there is, no two of one session and in the
/// order of their numbers: over each allowed step, where those of its session end; as one ends
/// without a step; and as one more is given, of a session that has none. The next free event is of
/// such a session. The contract is the law, for each form in which sessions are kept, and the call
/// does nothing.
pub fn kept_leases_stay()
    ensures session_after { (form : Form Session) (setup : Setup) (net : Net Session) (step : Step)
        (kept : List Lease) (low last : ℕ) → IsAllowed form setup net step
        → AreLeases form setup net kept low last
        → AreLeases form setup (after_step form setup net step) (kept_after step kept) low last }
    ensures history_after { (form : Form History) (setup : Setup) (net : Net History) (step : Step)
        (kept : List Lease) (low last : ℕ) → IsAllowed form setup net step
        → AreLeases form setup net kept low last
        → AreLeases form setup (after_step form setup net step) (kept_after step kept) low last }
    ensures session_step { (form : Form Session) (setup : Setup) (net : Net Session) (step : Step)
        (kept : List Lease) (low last : ℕ) → IsAllowed form setup net step
        → ((app : AppId) → is_own app step ≡ false) → AreLeases form setup net kept low last
        → AreLeases form setup (after_step form setup net step) kept low last }
    ensures history_step { (form : Form History) (setup : Setup) (net : Net History) (step : Step)
        (kept : List Lease) (low last : ℕ) → IsAllowed form setup net step
        → ((app : AppId) → is_own app step ≡ false) → AreLeases form setup net kept low last
        → AreLeases form setup (after_step form setup net step) kept low last }
    ensures session_other { (form : Form Session) (setup : Setup) (net : Net Session)
        (kept : List Lease) (low last number : ℕ) → AreLeases form setup net kept low last
        → AreLeases form setup net (without_number number kept) low last }
    ensures history_other { (form : Form History) (setup : Setup) (net : Net History)
        (kept : List Lease) (low last number : ℕ) → AreLeases form setup net kept low last
        → AreLeases form setup net (without_number number kept) low last }
    ensures session_given { (form : Form Session) (setup : Setup) (net : Net Session)
        (lease : Lease) (kept : List Lease) (low last : ℕ)
        → AreLeases form setup net kept low last → IsLeaseOf form setup net lease
        → lease.number ≡ last + 1 → is_leased kept lease.app ≡ false
        → AreLeases form setup net (kept ++ lease ∷ []) low (last + 1) }
    ensures history_given { (form : Form History) (setup : Setup) (net : Net History)
        (lease : Lease) (kept : List Lease) (low last : ℕ)
        → AreLeases form setup net kept low last → IsLeaseOf form setup net lease
        → lease.number ≡ last + 1 → is_leased kept lease.app ≡ false
        → AreLeases form setup net (kept ++ lease ∷ []) low (last + 1) }
    ensures session_next { (net : Net Session) (kept : List Lease) (next : Next)
        → next_free net kept ≡ Some next → is_leased kept next.app ≡ false }
    ensures history_next { (net : Net History) (kept : List Lease) (next : Next)
        → next_free net kept ≡ Some next → is_leased kept next.app ≡ false }
{}

/// A kept lease shows what there is, and where no session lives no lease is kept. The contract is
/// the law, for each form in which sessions are kept, and the call does nothing.
pub fn leases_are_of_live_sessions()
    ensures session_shows { (form : Form Session) (setup : Setup) (net : Net Session)
        (kept : List Lease) (low last number : ℕ) (lease : Lease)
        → AreLeases form setup net kept low last → find (has_number number) kept ≡ Some lease
        → IsLeaseOf form setup net lease }
    ensures history_shows { (form : Form History) (setup : Setup) (net : Net History)
        (kept : List Lease) (low last number : ℕ) (lease : Lease)
        → AreLeases form setup net kept low last → find (has_number number) kept ≡ Some lease
        → IsLeaseOf form setup net lease }
    ensures session_none { (form : Form Session) (setup : Setup) (net : Net Session)
        (kept : List Lease) (low last : ℕ) → live_count net ≡ 0
        → AreLeases form setup net kept low last → kept ≡ [] }
    ensures history_none { (form : Form History) (setup : Setup) (net : Net History)
        (kept : List Lease) (low last : ℕ) → live_count net ≡ 0
        → AreLeases form setup net kept low last → kept ≡ [] }
{}

/// A journal may be cut anywhere: its run, whether it is lawful, and what it sends are those of its
/// beginning and then those of the rest from there on. The contract is the law, for each form in
/// which sessions are kept, and the call does nothing.
pub fn journals_are_joined()
    ensures session_run { (form : Form Session) (setup : Setup) (epoch began : ℕ)
        (before later : List Step)
        → net_from form setup epoch began (before ++ later)
        ≡ chained_from form setup (net_from form setup epoch began before) later }
    ensures history_run { (form : Form History) (setup : Setup) (epoch began : ℕ)
        (before later : List Step)
        → net_from form setup epoch began (before ++ later)
        ≡ chained_from form setup (net_from form setup epoch began before) later }
    ensures session_sent { (form : Form Session) (setup : Setup) (epoch began : ℕ)
        (before later : List Step)
        → all_sent form setup epoch began (before ++ later)
        ≡ all_sent form setup epoch began before
        ++ all_sent_from form setup (net_from form setup epoch began before) later }
    ensures history_sent { (form : Form History) (setup : Setup) (epoch began : ℕ)
        (before later : List Step)
        → all_sent form setup epoch began (before ++ later)
        ≡ all_sent form setup epoch began before
        ++ all_sent_from form setup (net_from form setup epoch began before) later }
    ensures session_lawful { (form : Form Session) (setup : Setup) (epoch began : ℕ)
        (before later : List Step) → IsLawful form setup epoch began before
        → IsLawfulFrom form setup (net_from form setup epoch began before) later
        → IsLawful form setup epoch began (before ++ later) }
    ensures history_lawful { (form : Form History) (setup : Setup) (epoch began : ℕ)
        (before later : List Step) → IsLawful form setup epoch began before
        → IsLawfulFrom form setup (net_from form setup epoch began before) later
        → IsLawful form setup epoch began (before ++ later) }
    ensures session_parted { (form : Form Session) (setup : Setup) (epoch began : ℕ)
        (before later : List Step) → IsLawful form setup epoch began (before ++ later)
        → IsLawful form setup epoch began before
        × IsLawfulFrom form setup (net_from form setup epoch began before) later }
    ensures history_parted { (form : Form History) (setup : Setup) (epoch began : ℕ)
        (before later : List Step) → IsLawful form setup epoch began (before ++ later)
        → IsLawful form setup epoch began before
        × IsLawfulFrom form setup (net_from form setup epoch began before) later }
{}
