ghost use Rattle.std.specs.Prelude.{◌≡◌, ◌++◌, ℕ, List, Some, false};
ghost use Rattle.sc_value.specs.declared.ids.AppId.{AppId};
ghost use Rattle.sc_value.specs.declared.ids.SessId.{SessId};
ghost use Rattle.sc_terms.specs.declared.settings.Config.{Config};
ghost use Rattle.sc_terms.specs.declared.steps.Step.{Step};
ghost use Rattle.sc_parts.specs.declared.setup.Setup.{Setup};
ghost use Rattle.sc_state.specs.declared.host.Live.{Live};
ghost use Rattle.sc_state.specs.declared.session.Session.{Session};
ghost use Rattle.sc_hosts.specs.Histories.{History, as_session, session_of, session_after};
ghost use Rattle.sc_hosts.specs.Looking.{is_gone_in, partner};
ghost use Rattle.sc_hosts.specs.Runs.{net_from};
ghost use Rattle.sc_hosts.specs.Sessions.{Turn};
ghost use Rattle.sc_hosts.specs.Steps.{live_at};
ghost use Rattle.sc_lasting.specs.Lasting.{All, ArePaired, AreDirect, Continues, Directly, GoOn, IsHeld, IsLife, IsOf, IsOnward, IsSince, IsSteady, LeavesApart, LeavesLinked, Numbered, Proxies};

/// In every history of an application session a SipSession that is linked is there, and is linked
/// to another that is linked to it; so each is in one pair at most, and one that is gone has no
/// link. It is so of each live session of a host after any journal. The contract is the law, and
/// the call does nothing.
pub fn links_are_pairs()
    ensures life { (config : Config) (history : History)
        → ArePaired (session_of config history).view }
    ensures live { (setup : Setup) (epoch began : ℕ) (journal : List Step) (app : AppId)
        (live : Live Session)
        → live_at app (net_from as_session setup epoch began journal) ≡ Some live
        → ArePaired live.session.view }
{}

/// Links are what accepted calls make, and only calls and the end of a SipSession take one away:
/// where no accepted call of some turns links two SipSessions that are there, they are linked after
/// these turns only if they were before; and where none takes away the link of either, two that are
/// linked still are, as long as both are there. The contract is the law, and the call does nothing.
pub fn links_are_of_calls()
    ensures made { (config : Config) (history : History) (later earlier : List Turn) (a b : SessId)
        → IsSince (λ event. Unit {0}) (LeavesApart a b) config history earlier later
        → is_gone_in (session_after config history earlier).view a ≡ false
        → is_gone_in (session_after config history earlier).view b ≡ false
        → partner (session_after config history (later ++ earlier)).view a ≡ Some b
        → partner (session_after config history earlier).view a ≡ Some b }
    ensures kept { (config : Config) (history : History) (later earlier : List Turn) (a b : SessId)
        → IsSince (λ event. Unit {0}) (LeavesLinked a b) config history earlier later
        → partner (session_after config history earlier).view a ≡ Some b
        → is_gone_in (session_after config history (later ++ earlier)).view a ≡ false
        → is_gone_in (session_after config history (later ++ earlier)).view b ≡ false
        → partner (session_after config history (later ++ earlier)).view a ≡ Some b }
{}

/// After more turns, whatever they were, a SipSession has its place, its Call-ID and its own tag;
/// one that was gone is gone, and one that was a proxy's is one. Where no accepted call of these
/// turns proxies it keeps its role. The contract is the law, and the call does nothing.
pub fn sessions_last()
    ensures any { (config : Config) (history : History) (later earlier : List Turn)
        → Continues IsHeld (session_after config history earlier).view.sessions
        (session_after config history (later ++ earlier)).view.sessions }
    ensures direct { (config : Config) (history : History) (later earlier : List Turn)
        → IsSince (λ event. Unit {0}) Directly config history earlier later
        → Continues IsSteady (session_after config history earlier).view.sessions
        (session_after config history (later ++ earlier)).view.sessions }
{}

/// The number of a request that is shown or kept is below the next one. Where no accepted call of a
/// life proxies, no SipSession is a proxy's. Where only the request that began a session comes as
/// an initial one, it is what the application proxied. The contract is the law, and the call does
/// nothing.
pub fn requests_last()
    ensures numbers { (config : Config) (history : History) → Numbered (session_of config history) }
    ensures direct { (config : Config) (history : History) (turns : List Turn)
        → IsLife (λ event. Unit {0}) Directly config history turns
        → AreDirect (session_after config history turns) }
    ensures began { (config : Config) (history : History) (turns : List Turn)
        → IsLife (IsOf history.request) (λ call. Unit {0}) config history turns
        → All (Proxies history.request) (session_after config history turns).known.proxies }
{}

/// After more turns, whatever they were, a SipSession whose state was TERMINATED has it still, and
/// one that was CONFIRMED is that or TERMINATED. The state of one that isn't a UAC's never goes
/// back, so that of a UAC's alone can, and from EARLY to INITIAL alone. The contract is the law,
/// and the call does nothing.
pub fn states_move_on()
    ensures { (config : Config) (history : History) (later earlier : List Turn)
        → Continues IsOnward (session_after config history earlier).view.sessions
        (session_after config history (later ++ earlier)).view.sessions }
{}

/// After more turns, whatever they were, a request that was proxied is, with the same options: it
/// has the targets that it had, in order, and maybe more behind them; where its search had ended it
/// is so, and the final response that was forwarded first is the one that was. The contract is the
/// law, and the call does nothing.
pub fn proxies_go_on()
    ensures { (config : Config) (history : History) (later earlier : List Turn)
        → GoOn (session_after config history earlier).known.proxies
        (session_after config history (later ++ earlier)).known.proxies }
{}
