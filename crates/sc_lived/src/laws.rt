ghost use Rattle.std.specs.Prelude.{◌≡◌, ◌++◌, ℕ, List, Some, false};
ghost use Rattle.sc_value.specs.declared.ids.AppId.{AppId};
ghost use Rattle.sc_value.specs.declared.ids.SessId.{SessId};
ghost use Rattle.sc_terms.specs.declared.steps.Step.{Step};
ghost use Rattle.sc_parts.specs.declared.setup.Setup.{Setup};
ghost use Rattle.sc_state.specs.declared.host.Live.{Live};
ghost use Rattle.sc_state.specs.declared.session.Session.{Session};
ghost use Rattle.sc_hosts.specs.Histories.{History, as_history, as_session, session_of};
ghost use Rattle.sc_hosts.specs.Looking.{is_gone_in, partner};
ghost use Rattle.sc_hosts.specs.Runs.{IsLawful, net_from};
ghost use Rattle.sc_hosts.specs.Steps.{live_at};
ghost use Rattle.sc_lasting.specs.Lasting.{All, AreDirect, Continues, Directly, GoOn, IsHeld, IsOnward, IsSteady, LeavesApart, LeavesLinked, Proxies};
ghost use Rattle.sc_lived.specs.Lived.{AreAccepted, HasLived, HasMore, IsLived, IsMoreOf, turns_in};

/// After a lawful journal the history of each live session is a life of it: its turns are those
/// that the journal tells of it, each with what its application might do at what the session was,
/// and of the events that they took and those that wait only the first is an initial one, with the
/// request that began the session. A session that is kept as what it is comes of such a history.
/// The contract is the law, and the call does nothing.
pub fn lives_are_of_journals()
    ensures history { (setup : Setup) (epoch began : ℕ) (journal : List Step) (app : AppId)
        (live : Live History) → IsLawful (as_history setup.config) setup epoch began journal
        → live_at app (net_from (as_history setup.config) setup epoch began journal) ≡ Some live
        → IsLived setup app (turns_in app journal) live.session live.inbox }
    ensures session { (setup : Setup) (epoch began : ℕ) (journal : List Step) (app : AppId)
        (live : Live Session) → IsLawful as_session setup epoch began journal
        → live_at app (net_from as_session setup epoch began journal) ≡ Some live
        → HasLived setup app (turns_in app journal) live.session live.inbox }
{}

/// Where a session lives after a part of a lawful journal and after the whole of it, its history
/// after the whole is its history after the part with the turns on top that the rest of the journal
/// tells of it. The contract is the law, and the call does nothing.
pub fn lives_go_on()
    ensures history { (setup : Setup) (epoch began : ℕ) (before later : List Step) (app : AppId)
        (first live : Live History)
        → IsLawful (as_history setup.config) setup epoch began (before ++ later)
        → live_at app (net_from (as_history setup.config) setup epoch began before) ≡ Some first
        → live_at app (net_from (as_history setup.config) setup epoch began (before ++ later))
        ≡ Some live → IsMoreOf first.session (turns_in app later) live.session }
    ensures session { (setup : Setup) (epoch began : ℕ) (before later : List Step) (app : AppId)
        (first live : Live Session) → IsLawful as_session setup epoch began (before ++ later)
        → live_at app (net_from as_session setup epoch began before) ≡ Some first
        → live_at app (net_from as_session setup epoch began (before ++ later)) ≡ Some live
        → HasMore setup first.session (turns_in app later) live.session }
{}

/// While an application session lives, each of its SipSessions keeps its place, its Call-ID and its
/// own tag; one that was gone is gone, and one that was a proxy's is one. Where none of the calls
/// that the rest of a lawful journal tells of it, and that weren't refused, proxies, it keeps its
/// role. The contract is the law, and the call does nothing.
pub fn live_sessions_last()
    ensures any_history { (setup : Setup) (epoch began : ℕ) (before later : List Step) (app : AppId)
        (first live : Live History)
        → IsLawful (as_history setup.config) setup epoch began (before ++ later)
        → live_at app (net_from (as_history setup.config) setup epoch began before) ≡ Some first
        → live_at app (net_from (as_history setup.config) setup epoch began (before ++ later))
        ≡ Some live
        → Continues IsHeld (session_of setup.config first.session).view.sessions
        (session_of setup.config live.session).view.sessions }
    ensures any_session { (setup : Setup) (epoch began : ℕ) (before later : List Step) (app : AppId)
        (first live : Live Session) → IsLawful as_session setup epoch began (before ++ later)
        → live_at app (net_from as_session setup epoch began before) ≡ Some first
        → live_at app (net_from as_session setup epoch began (before ++ later)) ≡ Some live
        → Continues IsHeld first.session.view.sessions live.session.view.sessions }
    ensures direct_history { (setup : Setup) (epoch began : ℕ) (before later : List Step)
        (app : AppId) (first live : Live History)
        → IsLawful (as_history setup.config) setup epoch began (before ++ later)
        → live_at app (net_from (as_history setup.config) setup epoch began before) ≡ Some first
        → live_at app (net_from (as_history setup.config) setup epoch began (before ++ later))
        ≡ Some live → AreAccepted Directly (turns_in app later)
        → Continues IsSteady (session_of setup.config first.session).view.sessions
        (session_of setup.config live.session).view.sessions }
    ensures direct_session { (setup : Setup) (epoch began : ℕ) (before later : List Step)
        (app : AppId) (first live : Live Session)
        → IsLawful as_session setup epoch began (before ++ later)
        → live_at app (net_from as_session setup epoch began before) ≡ Some first
        → live_at app (net_from as_session setup epoch began (before ++ later)) ≡ Some live
        → AreAccepted Directly (turns_in app later)
        → Continues IsSteady first.session.view.sessions live.session.view.sessions }
{}

/// After a lawful journal what a live session proxied is the request that began it. Where none of
/// the calls that the journal tells of it, and that weren't refused, proxies, none of its
/// SipSessions is a proxy's. The contract is the law, and the call does nothing.
pub fn live_requests_last()
    ensures began_history { (setup : Setup) (epoch began : ℕ) (journal : List Step) (app : AppId)
        (live : Live History) → IsLawful (as_history setup.config) setup epoch began journal
        → live_at app (net_from (as_history setup.config) setup epoch began journal) ≡ Some live
        → All (Proxies live.session.request) (session_of setup.config live.session).known.proxies }
    ensures began_session { (setup : Setup) (app : AppId) (journal : List Step)
        (live : Live Session)
        → (lived : HasLived setup app (turns_in app journal) live.session live.inbox)
        → All (Proxies lived.history.request) live.session.known.proxies }
    ensures direct_history { (setup : Setup) (epoch began : ℕ) (journal : List Step) (app : AppId)
        (live : Live History) → IsLawful (as_history setup.config) setup epoch began journal
        → live_at app (net_from (as_history setup.config) setup epoch began journal) ≡ Some live
        → AreAccepted Directly (turns_in app journal)
        → AreDirect (session_of setup.config live.session) }
    ensures direct_session { (setup : Setup) (epoch began : ℕ) (journal : List Step) (app : AppId)
        (live : Live Session) → IsLawful as_session setup epoch began journal
        → live_at app (net_from as_session setup epoch began journal) ≡ Some live
        → AreAccepted Directly (turns_in app journal) → AreDirect live.session }
{}

/// While an application session lives, links of its SipSessions are what calls make that weren't
/// refused, and only such calls and the end of a SipSession take one away: where none that the rest
/// of a lawful journal tells of it links two that are there, they are linked only if they were
/// before; and where none takes away the link of either, two that were linked are, as long as both
/// are there. The contract is the law, and the call does nothing.
pub fn live_links_are_of_calls()
    ensures made_history { (setup : Setup) (epoch began : ℕ) (before later : List Step)
        (app : AppId) (a b : SessId) (first live : Live History)
        → IsLawful (as_history setup.config) setup epoch began (before ++ later)
        → live_at app (net_from (as_history setup.config) setup epoch began before) ≡ Some first
        → live_at app (net_from (as_history setup.config) setup epoch began (before ++ later))
        ≡ Some live → AreAccepted (LeavesApart a b) (turns_in app later)
        → is_gone_in (session_of setup.config first.session).view a ≡ false
        → is_gone_in (session_of setup.config first.session).view b ≡ false
        → partner (session_of setup.config live.session).view a ≡ Some b
        → partner (session_of setup.config first.session).view a ≡ Some b }
    ensures made_session { (setup : Setup) (epoch began : ℕ) (before later : List Step)
        (app : AppId) (a b : SessId) (first live : Live Session)
        → IsLawful as_session setup epoch began (before ++ later)
        → live_at app (net_from as_session setup epoch began before) ≡ Some first
        → live_at app (net_from as_session setup epoch began (before ++ later)) ≡ Some live
        → AreAccepted (LeavesApart a b) (turns_in app later) → is_gone_in first.session.view a ≡ false
        → is_gone_in first.session.view b ≡ false → partner live.session.view a ≡ Some b
        → partner first.session.view a ≡ Some b }
    ensures kept_history { (setup : Setup) (epoch began : ℕ) (before later : List Step)
        (app : AppId) (a b : SessId) (first live : Live History)
        → IsLawful (as_history setup.config) setup epoch began (before ++ later)
        → live_at app (net_from (as_history setup.config) setup epoch began before) ≡ Some first
        → live_at app (net_from (as_history setup.config) setup epoch began (before ++ later))
        ≡ Some live → AreAccepted (LeavesLinked a b) (turns_in app later)
        → partner (session_of setup.config first.session).view a ≡ Some b
        → is_gone_in (session_of setup.config live.session).view a ≡ false
        → is_gone_in (session_of setup.config live.session).view b ≡ false
        → partner (session_of setup.config live.session).view a ≡ Some b }
    ensures kept_session { (setup : Setup) (epoch began : ℕ) (before later : List Step)
        (app : AppId) (a b : SessId) (first live : Live Session)
        → IsLawful as_session setup epoch began (before ++ later)
        → live_at app (net_from as_session setup epoch began before) ≡ Some first
        → live_at app (net_from as_session setup epoch began (before ++ later)) ≡ Some live
        → AreAccepted (LeavesLinked a b) (turns_in app later) → partner first.session.view a ≡ Some b
        → is_gone_in live.session.view a ≡ false → is_gone_in live.session.view b ≡ false
        → partner live.session.view a ≡ Some b }
{}

/// While an application session lives, the state of each of its SipSessions moves on: one that was
/// TERMINATED is, one that was CONFIRMED is that or TERMINATED, and that of one that isn't a UAC's
/// never goes back. The contract is the law, for each form in which sessions are kept, and the call
/// does nothing.
pub fn live_states_move_on()
    ensures history { (setup : Setup) (epoch began : ℕ) (before later : List Step) (app : AppId)
        (first live : Live History)
        → IsLawful (as_history setup.config) setup epoch began (before ++ later)
        → live_at app (net_from (as_history setup.config) setup epoch began before) ≡ Some first
        → live_at app (net_from (as_history setup.config) setup epoch began (before ++ later))
        ≡ Some live
        → Continues IsOnward (session_of setup.config first.session).view.sessions
        (session_of setup.config live.session).view.sessions }
    ensures session { (setup : Setup) (epoch began : ℕ) (before later : List Step) (app : AppId)
        (first live : Live Session) → IsLawful as_session setup epoch began (before ++ later)
        → live_at app (net_from as_session setup epoch began before) ≡ Some first
        → live_at app (net_from as_session setup epoch began (before ++ later)) ≡ Some live
        → Continues IsOnward first.session.view.sessions live.session.view.sessions }
{}

/// While an application session lives, a request that it proxied goes on: it has the targets that
/// it had, in order, and maybe more behind them; where its search had ended it is so, and the final
/// response that was forwarded first is the one that was. The contract is the law, for each form in
/// which sessions are kept, and the call does nothing.
pub fn live_proxies_go_on()
    ensures history { (setup : Setup) (epoch began : ℕ) (before later : List Step) (app : AppId)
        (first live : Live History)
        → IsLawful (as_history setup.config) setup epoch began (before ++ later)
        → live_at app (net_from (as_history setup.config) setup epoch began before) ≡ Some first
        → live_at app (net_from (as_history setup.config) setup epoch began (before ++ later))
        ≡ Some live
        → GoOn (session_of setup.config first.session).known.proxies
        (session_of setup.config live.session).known.proxies }
    ensures session { (setup : Setup) (epoch began : ℕ) (before later : List Step) (app : AppId)
        (first live : Live Session) → IsLawful as_session setup epoch began (before ++ later)
        → live_at app (net_from as_session setup epoch began before) ≡ Some first
        → live_at app (net_from as_session setup epoch began (before ++ later)) ≡ Some live
        → GoOn first.session.known.proxies live.session.known.proxies }
{}
