ghost use Rattle.std.specs.Prelude.{◌≡◌, ◌<◌, ◌^◌, ◌==◌, ◌&&◌, ℕ, Bool, true, List, None, Some, option_and_then};
ghost use Rattle.sc_value.specs.declared.ids.AppId.{AppId};
ghost use Rattle.sc_value.specs.declared.ids.ReqId.{ReqId};
ghost use Rattle.sc_value.specs.declared.ids.SessId.{SessId};
ghost use Rattle.sc_value.specs.declared.message.Request.{Request};
ghost use Rattle.sc_terms.specs.declared.events.Event.{Event};
ghost use Rattle.sc_terms.specs.declared.settings.Config.{Config};
ghost use Rattle.sc_terms.specs.declared.steps.Step.{Step};
ghost use Rattle.sc_terms.specs.declared.views.View.{View};
ghost use Rattle.sc_parts.specs.declared.setup.Setup.{Setup};
ghost use Rattle.sc_state.specs.declared.host.Live.{Live};
ghost use Rattle.sc_state.specs.declared.session.Session.{Session};
ghost use Rattle.sc_hosts.specs.Histories.{History, as_history};
ghost use Rattle.sc_model.specs.Transactions.{is_success};
ghost use Rattle.sc_hosts.specs.Runs.{IsLawful, net_from};
ghost use Rattle.sc_hosts.specs.Scripting.{attribute};
ghost use Rattle.sc_hosts.specs.SessionTimers.{On, Timed, grant_to, least_interval, timed_name, timed_of, timed_script};
ghost use Rattle.sc_hosts.specs.Steps.{live_at};
ghost use Rattle.sc_lived.specs.Lived.{HasLived, turns_in};
ghost use Rattle.sc_promised.specs.Refreshing.{IsAccepted, IsBegun};
ghost use Rattle.sc_remembered.specs.Played.{ArePlayed};
ghost use Rattle.sc_timed.specs.TimedActs.{Grants, IsChain, IsOneAct, Refreshes, TimedHappened, after, calls_of};
ghost use Rattle.sc_timed.specs.TimedLives.{AreActs, HasActs, HaveRoom, IsTimed};

/// Whatever event an application that keeps session timers is told of, its script is that of one
/// act of one SipSession, the answer to an INVITE or UPDATE with what is granted, the answer to a
/// BYE, what follows the answer to a refresh, or what follows a servlet timer, or it leaves the
/// attributes. The contract is the law, and the call does nothing.
pub fn timed_turns_are_acts()
    ensures { (view : View) (event : Event) → IsOneAct view event (timed_script view event) }
{}

/// Where each turn of a session makes one act of a SipSession at most, and leaves else what is
/// remembered of its session timer, these acts are a list of which each begins with what the one
/// before left, the first with nothing. The contract is the law, and the call does nothing.
pub fn timed_acts_are_chained()
    ensures { (config : Config) (history : History) (n : ℕ) (acts : List TimedHappened)
        → AreActs config history n history.turns acts → IsChain n None acts }
{}

/// The turns of a session of the kind that keeps session timers make, of each SipSession, such a
/// list of acts, so it is a chain over the whole life of the session. Premised are that the calls
/// of each turn are those of the kind's script, or none where nobody is called, and that numbers of
/// SipSessions have 64 bits. The contract is the law, and the call does nothing.
pub fn timed_lives_make_acts()
    ensures { (config : Config) (history : History) (n : ℕ) → n < 2 ^ 64
        → ArePlayed timed_script config history history.turns
        → HaveRoom config history history.turns
        → HasActs config history n history.turns }
{}

/// Where an act of such a list grants a session timer of so many seconds, or is the 2xx to a
/// refresh, and no call of it is refused, a servlet timer that fires once is due at the deadline of
/// the side behind the act's moment, and the attribute of the SipSession names it, with which the
/// next act of the list begins. The contract is the law, and the call does nothing.
pub fn granted_timers_are_in_time()
    ensures granted { (h : TimedHappened) (req : ReqId) (sess : SessId) (request : Request) (n : ℕ)
        (me : Bool) → h.act ≡ Grants req sess request
        → grant_to request (least_interval h.play.view) ≡ On n me
        → IsAccepted h.play (calls_of h.play.view h.act)
        → IsBegun h.play.view.now sess n me (after h).view }
    ensures refreshed { (h : TimedHappened) (sess : SessId) (code : ℕ) (timed : Timed)
        → h.act ≡ Refreshes sess code
        → option_and_then timed_of (attribute (timed_name sess) h.play.view) ≡ Some timed
        → (timed.me && timed.timer == 0) ≡ true → is_success code ≡ true
        → IsAccepted h.play (calls_of h.play.view h.act)
        → IsBegun h.play.view.now sess timed.seconds true (after h).view }
{}

/// After a lawful journal the turns of a live session of that kind, for whose own events nobody
/// listens, made of each SipSession such a list of acts. Premised is only that numbers of
/// SipSessions have 64 bits. The contract is the law, for each form in which sessions are kept, and
/// the call does nothing.
pub fn live_timed_sessions_make_acts()
    ensures history { (setup : Setup) (epoch began : ℕ) (journal : List Step) (app : AppId)
        (live : Live History) (n : ℕ)
        → IsLawful (as_history setup.config) setup epoch began journal
        → live_at app (net_from (as_history setup.config) setup epoch began journal) ≡ Some live
        → IsTimed setup app → n < 2 ^ 64 → HaveRoom setup.config live.session live.session.turns
        → ∥ HasActs setup.config live.session n live.session.turns ∥₁ }
    ensures session { (setup : Setup) (app : AppId) (journal : List Step) (live : Live Session)
        (n : ℕ) → (lived : HasLived setup app (turns_in app journal) live.session live.inbox)
        → IsTimed setup app → n < 2 ^ 64 → HaveRoom setup.config lived.history lived.history.turns
        → ∥ HasActs setup.config lived.history n lived.history.turns ∥₁ }
{}
