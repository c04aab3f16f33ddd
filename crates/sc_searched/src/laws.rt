ghost use Rattle.std.specs.Prelude.{◌≡◌, ◌&&◌, ℕ, List, Option, Some, true, false, not};
ghost use Rattle.sc_value.specs.declared.ids.AppId.{AppId};
ghost use Rattle.sc_value.specs.declared.ids.ReqId.{ReqId};
ghost use Rattle.sc_value.specs.declared.ids.SessId.{SessId};
ghost use Rattle.sc_value.specs.declared.message.Request.{Request};
ghost use Rattle.sc_value.specs.declared.message.Response.{Response};
ghost use Rattle.sc_terms.specs.declared.calls.ProxyOptions.{ProxyOptions};
ghost use Rattle.sc_terms.specs.declared.settings.Config.{Config};
ghost use Rattle.sc_terms.specs.declared.steps.Step.{Step};
ghost use Rattle.sc_parts.specs.declared.setup.Setup.{Setup};
ghost use Rattle.sc_state.specs.declared.host.Live.{Live};
ghost use Rattle.sc_state.specs.declared.proxy.Proxy.{Proxy};
ghost use Rattle.sc_state.specs.declared.session.Session.{Session};
ghost use Rattle.sc_model.specs.SessionStates.{is_final};
ghost use Rattle.sc_hosts.specs.Branches.{ended_by, ends_last, has_open, is_exhausted, new_proxy, proxy_after_response, without_search};
ghost use Rattle.sc_hosts.specs.Histories.{History, as_history, as_session, session_of};
ghost use Rattle.sc_hosts.specs.Runs.{IsLawful, net_from};
ghost use Rattle.sc_hosts.specs.Steps.{live_at};
ghost use Rattle.sc_lasting.specs.Lasting.{All};
ghost use Rattle.sc_lived.specs.Lived.{turns_in};
ghost use Rattle.sc_proxied.specs.ProxyLists.{IsHad, ProxyEvent, proxy_after};
ghost use Rattle.sc_searched.specs.Endings.{HasAnswers, HasItsAnswer, HaveAnswers, is_over};
ghost use Rattle.sc_searched.specs.Searches.{has_answer, is_open_in};

/// The first final response of an open branch ends the search of a proxied request exactly where it
/// ends the last branch: no other is open, no target is left, and it adds none (`ends_last`); so
/// does the 408 of a branch whose time is up. Then a final response was forwarded, or is there to
/// be: this one, as a candidate or as the 2xx that waits. Any other response ends no search. Where
/// the request is stopped in that turn, its targets are dropped and the search is over where no
/// branch is open, whether or not there is a response to be forwarded. The contract is the law, and
/// the call does nothing.
pub fn searches_end_with_a_response()
    ensures heard { (number : ℕ) (sess : SessId) (response : Response) (now : ℕ) (proxy : Proxy)
        → is_open_in number proxy ≡ true → is_final response.code ≡ true
        → is_exhausted (proxy_after_response number sess response now proxy) ≡ ends_last number response proxy }
    ensures answered { (number : ℕ) (sess : SessId) (response : Response) (now : ℕ) (proxy : Proxy)
        → is_open_in number proxy ≡ true → is_final response.code ≡ true
        → ends_last number response proxy ≡ true
        → has_answer (proxy_after_response number sess response now proxy) ≡ true }
    ensures timed_out { (number : ℕ) (sess : SessId) (response : Response) (proxy : Proxy)
        → is_exhausted (ended_by number sess response proxy) ≡ ends_last number response proxy }
    ensures timed_out_answered { (number : ℕ) (sess : SessId) (response : Response) (proxy : Proxy)
        → ends_last number response proxy ≡ true
        → has_answer (ended_by number sess response proxy) ≡ true }
    ensures ended { (number : ℕ) (sess : SessId) (response : Response) (now : ℕ) (proxy : Proxy)
        → is_open_in number proxy ≡ false → proxy.heard_final ≡ false
        → is_exhausted (proxy_after_response number sess response now proxy) ≡ false }
    ensures provisional { (number : ℕ) (sess : SessId) (response : Response) (now : ℕ)
        (proxy : Proxy) → is_open_in number proxy ≡ true → is_final response.code ≡ false
        → proxy.heard_final ≡ false → is_exhausted (proxy_after_response number sess response now proxy) ≡ false }
    ensures stopped { (proxy : Proxy)
        → is_exhausted (without_search proxy) ≡ (proxy.heard_final && not (has_open proxy)) }
    ensures stopped_answered { (proxy : Proxy)
        → has_answer (without_search proxy) ≡ has_answer proxy }
{}

/// Wherever a turn leaves a proxied request at rest with its search over, so that branches were
/// started, each has its final response and no target waits, a final response was forwarded by
/// then, in that turn or before. One case has none: the application was told of a redirect that was
/// followed, and stopped the search in that same turn, so that the new targets were dropped
/// (`was_dropped`); it can proxy the request to further targets then, or end its SipSession. So it
/// is of each request that an application session proxies, a later one that it passes on too, by
/// the list of all that happened to it (`HasItsList`): in every history, and of a live session
/// after a lawful journal, for each form in which sessions are kept. Where hosts find the search
/// exhausted (`is_exhausted`), which ends its SipSessions, it is over by its list. The contract is
/// the law, and the call does nothing.
pub fn ended_searches_are_answered()
    ensures life { (config : Config) (history : History)
        → All (HasItsAnswer config history history.turns)
        (session_of config history).known.proxies }
    ensures history { (setup : Setup) (epoch began : ℕ) (journal : List Step) (app : AppId)
        (live : Live History) → IsLawful (as_history setup.config) setup epoch began journal
        → live_at app (net_from (as_history setup.config) setup epoch began journal) ≡ Some live
        → HaveAnswers setup app (turns_in app journal) live.session
        (session_of setup.config live.session) live.inbox }
    ensures session { (setup : Setup) (epoch began : ℕ) (journal : List Step) (app : AppId)
        (live : Live Session) → IsLawful as_session setup epoch began journal
        → live_at app (net_from as_session setup epoch began journal) ≡ Some live
        → HasAnswers setup app (turns_in app journal) live.session live.inbox }
    ensures exhausted { (req : ReqId) (sess : SessId) (event : ℕ) (request : Request)
        (how : Option ProxyOptions) (events : List ProxyEvent)
        → IsHad (new_proxy req sess event request how) events
        → is_exhausted (proxy_after (new_proxy req sess event request how) events) ≡ true
        → is_over (new_proxy req sess event request how) events ≡ true }
{}
