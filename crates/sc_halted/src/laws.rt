ghost use Rattle.std.specs.Prelude.{◌≡◌, ◌⊎◌, ℕ, List, Some, false, slice_get, suc, true, zero};
ghost use Rattle.sc_value.specs.declared.ids.AppId.{AppId};
ghost use Rattle.sc_value.specs.declared.message.Request.{Request};
ghost use Rattle.sc_terms.specs.declared.calls.CallRecord.{CallRecord};
ghost use Rattle.sc_terms.specs.declared.calls.End.{End};
ghost use Rattle.sc_terms.specs.declared.settings.Config.{Config};
ghost use Rattle.sc_terms.specs.declared.steps.Step.{Step};
ghost use Rattle.sc_parts.specs.declared.setup.Setup.{Setup};
ghost use Rattle.sc_state.specs.declared.queue.Queued.TheVariants as queued;
ghost use Rattle.sc_state.specs.declared.queue.Waiting.{Waiting};
ghost use Rattle.sc_state.specs.declared.session.Session.{Session};
ghost use Rattle.sc_model.specs.Names.{IsOf64};
ghost use Rattle.sc_hosts.specs.Effects.{first_play};
ghost use Rattle.sc_hosts.specs.Finishing.{goodbye, outcome};
ghost use Rattle.sc_hosts.specs.Histories.{as_history, as_session};
ghost use Rattle.sc_hosts.specs.PreparingResponses.{is_invalid};
ghost use Rattle.sc_hosts.specs.Runs.{IsLawful, net_from};
ghost use Rattle.sc_hosts.specs.Working.{worked_all};
ghost use Rattle.sc_paths.specs.Moments.{Got, Moment, moments};
ghost use Rattle.sc_ways.specs.Ways.{AreSmallDraws};
ghost use Rattle.sc_onward.specs.Onward.{AnswersLast, AreCounted, AreSmallNumbers, ComesNext, ComesToProxy, PassesLast, TurnsTo};
ghost use Rattle.sc_halted.specs.Halted.{AnswersIn, EndsThere, IsHalted, given_for, shown_of};

/// In the turn of a session for a later request that comes to the SipSession of a proxy, and whose
/// sequence number isn't too low: where a call that is accepted ends that SipSession, the turn
/// answers the request 500 (RFC 3261 section 21.5.1), whatever the application does before and
/// after it. Where none does, and none has ended it by the end of the calls, the last order passes
/// the request on, on a branch of its own, where it may go a hop further, and answers it 483 where
/// it may not. An ACK gets no answer. It is so of any session whose requests are numbered below the
/// next number. The contract is the law, and the call does nothing.
pub fn later_requests_are_passed_on_or_answered()
    ensures ended { (config : Config) (ringing : List ℕ) (session : Session) (number : ℕ)
        (request : Request) (now : ℕ) (made : List CallRecord) (end : End) → AreCounted session
        → (comes : ComesToProxy session request)
        → EndsThere comes.found.id
        (first_play (shown_of config ringing session number request now).view) made
        → AnswersIn number 500 request
        (given_for config ringing session number request now made end) }
    ensures onward { (config : Config) (ringing : List ℕ) (session : Session) (number : ℕ)
        (request : Request) (now : ℕ) (made : List CallRecord) (end : End) (hops : ℕ)
        → AreCounted session → (comes : ComesToProxy session request)
        → (EndsThere comes.found.id
        (first_play (shown_of config ringing session number request now).view) made → ⊥)
        → is_invalid
        (worked_all config (shown_of config ringing session number request now) made).known
        comes.found.id ≡ false
        → request.hops ≡ suc hops
        → PassesLast config request
        (given_for config ringing session number request now made end) }
    ensures spent { (config : Config) (ringing : List ℕ) (session : Session) (number : ℕ)
        (request : Request) (now : ℕ) (made : List CallRecord) (end : End) → AreCounted session
        → (comes : ComesToProxy session request)
        → (EndsThere comes.found.id
        (first_play (shown_of config ringing session number request now).view) made → ⊥)
        → is_invalid
        (worked_all config (shown_of config ringing session number request now) made).known
        comes.found.id ≡ false
        → request.hops ≡ zero
        → AnswersLast number 483 request
        (given_for config ringing session number request now made end) }
    ensures closed { (config : Config) (ringing : List ℕ) (session : Session) (number : ℕ)
        (request : Request) (now : ℕ) (made : List CallRecord) (end : End) (hops : ℕ)
        → AreCounted session → (comes : ComesToProxy session request)
        → (EndsThere comes.found.id
        (first_play (shown_of config ringing session number request now).view) made → ⊥)
        → is_invalid
        (worked_all config (shown_of config ringing session number request now) made).known
        comes.found.id ≡ false
        → request.hops ≡ suc hops
        → (outcome config ringing session
        (record { number = number; event = queued.Request request }) now made end).ends ≡ true
        → (inbox : List Waiting)
        → AnswersIn number 500 request
        (goodbye config
        (outcome config ringing session
        (record { number = number; event = queued.Request request }) now made end).session
        inbox) }
{}

/// In each lawful run of the hosts: where a session turns to a later request whose next own URI
/// names a session, that session has the request among its events in the same step, as it was
/// passed on, or one of the stops that `IsHalted` lists is there with its answer. The turn answers
/// it 481 where no SipSession has its dialog, 500 where its number is too low, 500 where an
/// accepted call ends its SipSession, 483 where it may go no hop further; one of a SipSession that
/// isn't a proxy's is shown to the application. Where the turn passes it on, and the session that
/// it is to go to doesn't live before the step, the container answers it 481 at once; where as many
/// events wait for that session, as the request comes to its host, as may, that host answers 503 to
/// the host that sent the request. Both answers are among the events of the session that passed it
/// on in the same step, on the branch of the request, where that session lives after the step; the
/// 503 where nobody guessed that branch, which is new (`IsUnguessed`). A request that names the
/// very session that passes it on, which its turn ended, is answered 481 as it comes back to its
/// host, and nobody is told. An ACK gets no answer. The premises are those of
/// `later_requests_go_to_the_next` of `sc_onward`, and the numbers in the name of the session that
/// it is to go to have 64 bits. The contract is the law, for a journal that is lawful in either
/// form in which sessions are kept, and the call does nothing.
pub fn later_requests_go_on_or_are_answered()
    ensures session { (setup : Setup) (epoch began : ℕ) (journal : List Step)
        → IsLawful as_session setup epoch began journal
        → AreSmallNumbers setup epoch (net_from as_session setup epoch began journal)
        → AreSmallDraws setup (moments setup epoch began journal)
        → (place : ℕ) (moment : Moment) (got : Got) (to : AppId)
        → slice_get (moments setup epoch began journal) place ≡ Some moment
        → IsOf64 epoch to 0 → (turn : TurnsTo setup moment got to)
        → ComesNext moment got to ⊎ IsHalted setup moment got to turn }
    ensures history { (setup : Setup) (epoch began : ℕ) (journal : List Step)
        → IsLawful (as_history setup.config) setup epoch began journal
        → AreSmallNumbers setup epoch (net_from as_session setup epoch began journal)
        → AreSmallDraws setup (moments setup epoch began journal)
        → (place : ℕ) (moment : Moment) (got : Got) (to : AppId)
        → slice_get (moments setup epoch began journal) place ≡ Some moment
        → IsOf64 epoch to 0 → (turn : TurnsTo setup moment got to)
        → ComesNext moment got to ⊎ IsHalted setup moment got to turn }
{}
