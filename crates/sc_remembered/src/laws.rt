ghost use Rattle.std.specs.Prelude.{◌≡◌, ◌<◌, ◌^◌, ℕ, List};
ghost use Rattle.sc_terms.specs.declared.calls.CallRecord.{CallRecord};
ghost use Rattle.sc_terms.specs.declared.calls.End.{End};
ghost use Rattle.sc_terms.specs.declared.events.Event.{Event};
ghost use Rattle.sc_terms.specs.declared.settings.Config.{Config};
ghost use Rattle.sc_terms.specs.declared.views.View.{View};
ghost use Rattle.sc_state.specs.declared.queue.Waiting.{Waiting};
ghost use Rattle.sc_state.specs.declared.session.Session.{Session};
ghost use Rattle.sc_hosts.specs.Effects.{after_calls, first_play};
ghost use Rattle.sc_hosts.specs.Finishing.{outcome};
ghost use Rattle.sc_hosts.specs.Histories.{History};
ghost use Rattle.sc_hosts.specs.Offers.{early_script};
ghost use Rattle.sc_hosts.specs.Preparing.{prepared_session};
ghost use Rattle.sc_hosts.specs.Scripting.{Script, calls_of_script};
ghost use Rattle.sc_promised.specs.Reliable.{Fresh, Happened, IsTrace, play_after};
ghost use Rattle.sc_remembered.specs.Acts.{AreActs};
ghost use Rattle.sc_remembered.specs.Early.{AreEarly, IsOneAct, IsUnknown, MakesActs};

/// The attributes of an application session are what its calls make of them: a turn shows those
/// that the session has, whatever its event is, and after the turn the session has those that the
/// calls of the turn left, whatever follows from them. So each turn begins with what the calls of
/// the one before it left. The contract is the law, and the call does nothing.
pub fn attributes_are_of_calls()
    ensures shown { (config : Config) (ringing : List ℕ) (session : Session) (waiting : Waiting)
        (now : ℕ)
        → (prepared_session config ringing session waiting now).view.attributes ≡ session.view.attributes }
    ensures left { (config : Config) (ringing : List ℕ) (session : Session) (waiting : Waiting)
        (now : ℕ) (made : List CallRecord) (end : End)
        → (outcome config ringing session waiting now made end).session.view.attributes
        ≡ (after_calls (prepared_session config ringing session waiting now).view made).view.attributes }
{}

/// Where each turn of a session makes one act of an INVITE at most, an offer of a reliable
/// provisional response, what follows a PRACK or a timer, and leaves else what the session
/// remembers of it, and no offer is refused behind its response, these acts are a list of which
/// each begins with what the one before left, the first with nothing. So what is said of every such
/// list holds over the whole life of a session, whatever happens to it between its turns. The
/// contract is the law, and the call does nothing.
pub fn acts_are_chained()
    ensures { (config : Config) (history : History) (n : ℕ) (acts : List Happened)
        → AreActs config history n history.turns acts → IsTrace n Fresh acts }
{}

/// What a script of calls makes of a turn is what the list of the calls that it makes there does.
/// Whatever event an application of the kind that gives provisional responses reliably is told of,
/// its script is that of one act of an INVITE, an offer, what follows a PRACK, or what follows a
/// timer, or it leaves the attributes. Where the event brings the request that begins a SipSession,
/// it is premised that nothing is remembered of it yet. The contract is the law, and the call does
/// nothing.
pub fn early_turns_are_acts()
    ensures played { (view : View) (script : Script)
        → after_calls view (calls_of_script view script) ≡ play_after (first_play view) script }
    ensures early { (view : View) (event : Event) → IsUnknown view event
        → IsOneAct view event (early_script view event) }
{}

/// The turns of a session of the kind that gives provisional responses reliably make, of each
/// INVITE, a list of acts of which each turn makes one at most; so that list is a chain, over the
/// whole life of the session. Premised are, of each turn, that its calls are those of the kind's
/// script, or none where nobody is called, that nothing is remembered yet of an INVITE that comes,
/// that numbers of INVITEs have 64 bits, and that no offer is refused behind its response. The
/// contract is the law, and the call does nothing.
pub fn early_lives_make_acts()
    ensures { (config : Config) (history : History) (n : ℕ) → n < 2 ^ 64
        → AreEarly config history history.turns → MakesActs config history n history.turns }
{}
