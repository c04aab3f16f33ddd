ghost use Rattle.std.specs.Prelude.{◌≡◌, ℕ, List, Some};
ghost use Rattle.sc_value.specs.declared.ids.AppId.{AppId};
ghost use Rattle.sc_terms.specs.declared.settings.Config.{Config};
ghost use Rattle.sc_terms.specs.declared.steps.Step.{Step};
ghost use Rattle.sc_parts.specs.declared.setup.Setup.{Setup};
ghost use Rattle.sc_state.specs.declared.host.Live.{Live};
ghost use Rattle.sc_state.specs.declared.session.Session.{Session};
ghost use Rattle.sc_hosts.specs.Histories.{History, as_history, as_session, session_of};
ghost use Rattle.sc_hosts.specs.Runs.{IsLawful, net_from};
ghost use Rattle.sc_hosts.specs.Steps.{live_at};
ghost use Rattle.sc_lasting.specs.Lasting.{All};
ghost use Rattle.sc_lived.specs.Lived.{turns_in};
ghost use Rattle.sc_proxying.specs.Proxying.{HasItsList, HasLists, HaveLists};

/// Each request that an application session proxies, and each later one that it passes on, has the
/// list of all that happened to it, and is what that list says. The list is what the turns of the
/// session told of it, one after the other, from the one that began to proxy it: of the event of a
/// turn at most one thing, a response on one of its branches, a CANCEL for it, or that the time of
/// a branch was up; then all that the accepted calls of the turn said of it, in their order, the
/// targets that they named and that they stopped it; then what followed from what it was by then,
/// exactly: each target that was to be started got its branch, what waited was forwarded where it
/// could go, then the best response once that could, and it rested; or nothing, where the
/// application had ended its SipSession. Each branch that was started is a new one and took a
/// target that waited, or is the one on which a later request was passed on. So it is in every
/// history; and of a live session after a lawful journal it is so of the turns that the journal
/// tells of it, for each form in which sessions are kept. The contract is the law, and the call
/// does nothing.
pub fn proxied_requests_have_their_lists()
    ensures life { (config : Config) (history : History)
        → All (HasItsList config history history.turns) (session_of config history).known.proxies }
    ensures history { (setup : Setup) (epoch began : ℕ) (journal : List Step) (app : AppId)
        (live : Live History) → IsLawful (as_history setup.config) setup epoch began journal
        → live_at app (net_from (as_history setup.config) setup epoch began journal) ≡ Some live
        → HaveLists setup app (turns_in app journal) live.session (session_of setup.config live.session)
        live.inbox }
    ensures session { (setup : Setup) (epoch began : ℕ) (journal : List Step) (app : AppId)
        (live : Live Session) → IsLawful as_session setup epoch began journal
        → live_at app (net_from as_session setup epoch began journal) ≡ Some live
        → HasLists setup app (turns_in app journal) live.session live.inbox }
{}
