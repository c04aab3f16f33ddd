ghost use Rattle.std.specs.Prelude.{◌≡◌, ◌++◌, ℕ, List, Some};
ghost use Rattle.sc_value.specs.declared.ids.AppId.{AppId};
ghost use Rattle.sc_terms.specs.declared.steps.Step.{Step};
ghost use Rattle.sc_terms.specs.declared.settings.Config.{Config};
ghost use Rattle.sc_parts.specs.declared.setup.Setup.{Setup};
ghost use Rattle.sc_state.specs.declared.host.Live.{Live};
ghost use Rattle.sc_state.specs.declared.queue.Waiting.{Waiting};
ghost use Rattle.sc_state.specs.declared.session.Session.{Session};
ghost use Rattle.sc_hosts.specs.Finishing.{goodbye};
ghost use Rattle.sc_hosts.specs.Histories.{History, as_history, as_session, session_of};
ghost use Rattle.sc_hosts.specs.Runs.{IsLawful, net_from};
ghost use Rattle.sc_hosts.specs.Sessions.{Turn};
ghost use Rattle.sc_hosts.specs.Steps.{live_at};
ghost use Rattle.sc_lasting.specs.Lasting.{All};
ghost use Rattle.sc_lived.specs.Lived.{turned_events, turns_in};
ghost use Rattle.sc_answered.specs.Happened.{at_moment, happened_by};
ghost use Rattle.sc_replies.specs.Came.{AreAsTheyCame, AreSingle, HasKept, HaveKept, came_of};
ghost use Rattle.sc_replies.specs.Fields.{AnswersAll, AnswersAlone, HasAnsweredAll};
ghost use Rattle.sc_replies.specs.Replies.{GaveAll, HasGivenAll, came, gave};

/// What a turn tells of its SipSessions is what it gave, and before it what came with its event, a
/// response to a request of one's own and what comes of that. In every history of an application
/// session each answer that a turn gave, by a call, by the container or as a proxy, is an order of
/// its own among those that the turn gives to its host: a response of that code, with a To tag or
/// without, in the order in which they are told, and under the number of the event that brought the
/// request that it answers, which came then or before. The contract is the law, and the call does
/// nothing.
pub fn answers_are_given()
    ensures parts { (config : Config) (session : Session) (turn : Turn)
        → happened_by config session turn
        ≡ gave config session turn ++ came (at_moment turn.now session) turn.waiting.event }
    ensures given { (config : Config) (history : History) → GaveAll config history history.turns }
{}

/// After a lawful journal each answer that a turn of a live session gave is an order of that turn,
/// under the event that brought its request. A session that is kept as what it is comes of such a
/// history, whose turns are those that the journal tells of it. The contract is the law, and the
/// call does nothing.
pub fn live_answers_are_given()
    ensures history { (setup : Setup) (epoch began : ℕ) (journal : List Step) (app : AppId)
        (live : Live History) → IsLawful (as_history setup.config) setup epoch began journal
        → live_at app (net_from (as_history setup.config) setup epoch began journal) ≡ Some live
        → GaveAll setup.config live.session live.session.turns }
    ensures session { (setup : Setup) (epoch began : ℕ) (journal : List Step) (app : AppId)
        (live : Live Session) → IsLawful as_session setup epoch began journal
        → live_at app (net_from as_session setup epoch began journal) ≡ Some live
        → HasGivenAll setup app (turns_in app journal) live.session live.inbox }
{}

/// A request that an application session keeps as one that came under the number of an event, by
/// which its answers go, is the one that this event brought to it, and an INVITE that can be
/// cancelled under such a number is of a request that this event brought; and no two requests came
/// under one number. So it is in every history; and of a live session after a lawful journal it is
/// so of the turns that the journal tells of it, for each form in which sessions are kept. The
/// contract is the law, and the call does nothing.
pub fn requests_are_kept_as_they_came()
    ensures life { (config : Config) (history : History)
        → AreAsTheyCame (came_of config history history.turns) (session_of config history).known }
    ensures numbers { (config : Config) (history : History)
        → AreSingle (came_of config history history.turns) }
    ensures history { (setup : Setup) (epoch began : ℕ) (journal : List Step) (app : AppId)
        (live : Live History) → IsLawful (as_history setup.config) setup epoch began journal
        → live_at app (net_from (as_history setup.config) setup epoch began journal) ≡ Some live
        → HaveKept setup app (turns_in app journal) live.session (session_of setup.config live.session)
        live.inbox }
    ensures session { (setup : Setup) (epoch began : ℕ) (journal : List Step) (app : AppId)
        (live : Live Session) → IsLawful as_session setup epoch began journal
        → live_at app (net_from as_session setup epoch began journal) ≡ Some live
        → HasKept setup app (turns_in app journal) live.session live.inbox }
{}

/// Each response that a turn of an application session gives to send answers the request that the
/// event of its number brought, in this turn or before, or the session proxies that request and
/// forwards the response. Where it answers it, its Via, From, Call-ID and CSeq are those of the
/// request, and so is its To, but for a tag where that of the request has none (RFC 3261 section
/// 8.2.6.2); its Record-Route is that of the request where this is an initial INVITE or SUBSCRIBE
/// and the answer makes a dialog or may, and else it has none (section 12.1.1). So it is of what
/// the application answers, by a call or for its second leg, of what the container answers by
/// itself and after a fault, and of what it answers as a SipSession is invalidated. As the
/// application session ends, each response that this sends answers so a request that came to it,
/// handled or still waiting. So it is in every history, and of the turns of a live session after a
/// lawful journal, for each form in which sessions are kept. The contract is the law, and the call
/// does nothing.
pub fn answers_have_the_fields_of_their_requests()
    ensures life { (config : Config) (history : History)
        → AnswersAll config history history.turns }
    ensures ended { (config : Config) (history : History) (inbox : List Waiting)
        → All (AnswersAlone (turned_events history.turns ++ inbox))
        (goodbye config (session_of config history) inbox) }
    ensures history { (setup : Setup) (epoch began : ℕ) (journal : List Step) (app : AppId)
        (live : Live History) → IsLawful (as_history setup.config) setup epoch began journal
        → live_at app (net_from (as_history setup.config) setup epoch began journal) ≡ Some live
        → AnswersAll setup.config live.session live.session.turns }
    ensures session { (setup : Setup) (epoch began : ℕ) (journal : List Step) (app : AppId)
        (live : Live Session) → IsLawful as_session setup epoch began journal
        → live_at app (net_from as_session setup epoch began journal) ≡ Some live
        → HasAnsweredAll setup app (turns_in app journal) live.session live.inbox }
{}
