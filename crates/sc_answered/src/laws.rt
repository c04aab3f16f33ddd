ghost use Rattle.std.specs.Prelude.{◌≡◌, ◌||◌, ℕ, Bool, true, false, List, ◌∷◌, ◌++◌, Some};
ghost use Rattle.std.specs.List.{list_any};
ghost use Rattle.sc_value.specs.declared.ids.AppId.{AppId};
ghost use Rattle.sc_terms.specs.declared.steps.Step.{Step};
ghost use Rattle.sc_terms.specs.declared.settings.Config.{Config};
ghost use Rattle.sc_terms.specs.declared.views.RequestView.{RequestView};
ghost use Rattle.sc_terms.specs.declared.views.Role.{Role};
ghost use Rattle.sc_terms.specs.declared.views.State.TheVariants.{Initial};
ghost use Rattle.sc_parts.specs.declared.setup.Setup.{Setup};
ghost use Rattle.sc_state.specs.declared.host.Live.{Live};
ghost use Rattle.sc_state.specs.declared.session.Session.{Session};
ghost use Rattle.sc_hosts.specs.Histories.{History, as_history, as_session, session_of};
ghost use Rattle.sc_hosts.specs.Looking.{is_confirmed, is_early, is_terminated};
ghost use Rattle.sc_hosts.specs.Runs.{IsLawful, net_from};
ghost use Rattle.sc_hosts.specs.States.{after_response};
ghost use Rattle.sc_hosts.specs.Steps.{live_at};
ghost use Rattle.sc_lived.specs.Lived.{turns_in};
ghost use Rattle.sc_answered.specs.Causes.{HaveCauses};
ghost use Rattle.sc_answered.specs.Happened.{HaveStates, asked_of, happened_of};
ghost use Rattle.sc_answered.specs.LiveStates.{HasLivedStates};
ghost use Rattle.sc_answered.specs.Needed.{can_end, hangs_up, makes_dialog, makes_early, takes_call};
ghost use Rattle.sc_answered.specs.StateOf.{Happening, Response, state_of};

/// The state that is searched from a list of what happened in a SipSession goes, with one response
/// more, where hosts go (`after_response`). The contract is the law, and the call does nothing.
pub fn states_go_with_responses()
    ensures { (role : Role) (request : RequestView) (tagged : Bool) (code : ℕ)
        (earlier : List Happening)
        → state_of (Response role (asked_of request) tagged code ∷ earlier)
        ≡ after_response role request tagged (state_of earlier) code }
{}

/// A state that is searched from a list of what happened in a SipSession is EARLY only where a
/// provisional response with a To tag to its INVITE stands there, CONFIRMED only where a 2xx to its
/// INVITE or SUBSCRIBE does, TERMINATED only where something does that can end it, and INITIAL
/// where none of the three does. Where a 2xx to its INVITE stands there it is CONFIRMED or
/// TERMINATED, and where the final response to a BYE came later it is TERMINATED, whatever else
/// happened. The contract is the law, and the call does nothing.
pub fn states_need_their_messages()
    ensures early { (items : List Happening) → is_early (state_of items) ≡ true
        → list_any makes_early items ≡ true }
    ensures confirmed { (items : List Happening) → is_confirmed (state_of items) ≡ true
        → list_any makes_dialog items ≡ true }
    ensures terminated { (items : List Happening) → is_terminated (state_of items) ≡ true
        → list_any can_end items ≡ true }
    ensures initial { (items : List Happening) → list_any makes_early items ≡ false
        → list_any makes_dialog items ≡ false → list_any can_end items ≡ false
        → state_of items ≡ Initial }
    ensures taken { (items : List Happening) → list_any takes_call items ≡ true
        → (is_confirmed (state_of items) || is_terminated (state_of items)) ≡ true }
    ensures hung_up { (later : List Happening) (one : Happening) (earlier : List Happening)
        → hangs_up one ≡ true → list_any takes_call earlier ≡ true
        → is_terminated (state_of (later ++ one ∷ earlier)) ≡ true }
{}

/// In every history of an application session each SipSession has the state that is searched from
/// the list of what happened in it (`state_of`): the responses that it got, gave or forwarded, as
/// the events and the accepted calls of the turns tell them, and what came of those in other
/// SipSessions of its request. The contract is the law, and the call does nothing.
pub fn states_are_of_what_happened()
    ensures { (config : Config) (history : History)
        → HaveStates (happened_of config history) (session_of config history).view.sessions }
{}

/// In every history of an application session what comes of another SipSession has its cause in the
/// list of what happened: where the INVITE that began a SipSession was taken in another one, that
/// one's 2xx stands there; where what it was derived of failed, that failure does. The contract is
/// the law, and the call does nothing.
pub fn what_comes_of_others_has_its_cause()
    ensures { (config : Config) (history : History)
        → HaveCauses (happened_of config history) (happened_of config history) }
{}

/// After a lawful journal each SipSession of a live session has the state that is searched from the
/// list of what happened in it, as the session's history tells it, whose turns are those that the
/// journal tells of the session. A session that is kept as what it is comes of such a history. The
/// contract is the law, and the call does nothing.
pub fn live_states_are_of_what_happened()
    ensures history { (setup : Setup) (epoch began : ℕ) (journal : List Step) (app : AppId)
        (live : Live History) → IsLawful (as_history setup.config) setup epoch began journal
        → live_at app (net_from (as_history setup.config) setup epoch began journal) ≡ Some live
        → HaveStates (happened_of setup.config live.session)
        (session_of setup.config live.session).view.sessions }
    ensures session { (setup : Setup) (epoch began : ℕ) (journal : List Step) (app : AppId)
        (live : Live Session) → IsLawful as_session setup epoch began journal
        → live_at app (net_from as_session setup epoch began journal) ≡ Some live
        → HasLivedStates setup app (turns_in app journal) live.session live.inbox }
{}
