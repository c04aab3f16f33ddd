ghost use Rattle.std.specs.Prelude.{◌≡◌, ◌⊎◌, ℕ, List, Some, ◌∷◌, false, length, slice_get, suc, true, zero};
ghost use Rattle.sc_value.specs.declared.ids.AppId.{AppId};
ghost use Rattle.sc_value.specs.declared.message.Request.{Request};
ghost use Rattle.sc_terms.specs.declared.calls.CallRecord.{CallRecord};
ghost use Rattle.sc_terms.specs.declared.calls.End.{End};
ghost use Rattle.sc_terms.specs.declared.settings.Config.{Config};
ghost use Rattle.sc_terms.specs.declared.steps.Step.{Step};
ghost use Rattle.sc_parts.specs.declared.setup.Setup.{Setup};
ghost use Rattle.sc_state.specs.declared.host.Live.{Live};
ghost use Rattle.sc_state.specs.declared.host.Peer.TheVariants as peers;
ghost use Rattle.sc_state.specs.declared.queue.Queued.TheVariants as queued;
ghost use Rattle.sc_state.specs.declared.session.Session.{Session};
ghost use Rattle.sc_hosts.specs.Finishing.{outcome};
ghost use Rattle.sc_hosts.specs.Histories.{as_history, as_session};
ghost use Rattle.sc_hosts.specs.Inboxes.{is_full};
ghost use Rattle.sc_hosts.specs.Runs.{IsLawful, net_from};
ghost use Rattle.sc_hosts.specs.Steps.{live_at};
ghost use Rattle.sc_lasting.specs.Lasting.{All};
ghost use Rattle.sc_paths.specs.LaterRequests.{Occurrence, SetOut, carries, set_out, visits};
ghost use Rattle.sc_paths.specs.Moments.{Got, Moment, moments};
ghost use Rattle.sc_paths.specs.Pieces.{Dialog, Direction, IsPiece, Piece, ahead};
ghost use Rattle.sc_ways.specs.Ways.{AreSmallDraws, AreSmallNames, IsApart, VisitsFirst};
ghost use Rattle.sc_onward.specs.Onward.{AnswersLast, AreCounted, AreSmallNumbers, ComesNext, ComesToProxy, GoesAllTheWay, HasNewBranches, IsLeftAlone, IsUnstopped, PassesLast, Stops, TurnsTo};

/// In the turn of a session for a later request that comes to the SipSession of a proxy, and whose
/// sequence number isn't too low, the last order passes the request on, on a branch of its own,
/// whatever the application does besides, where the request may go a hop further and no call ends
/// that SipSession. Where it may go no further the last order answers it 483; an ACK gets no
/// answer. It is so of any session whose requests are numbered below the next number. The contract
/// is the law, and the call does nothing.
pub fn later_requests_are_passed_on()
    ensures onward { (config : Config) (ringing : List ℕ) (session : Session) (number : ℕ)
        (request : Request) (now : ℕ) (made : List CallRecord) (end : End) (hops : ℕ)
        → AreCounted session → (comes : ComesToProxy session request)
        → IsLeftAlone config ringing session number request now made comes.found.id
        → request.hops ≡ suc hops
        → PassesLast config request
        (outcome config ringing session
        (record { number = number; event = queued.Request request }) now made end).orders }
    ensures spent { (config : Config) (ringing : List ℕ) (session : Session) (number : ℕ)
        (request : Request) (now : ℕ) (made : List CallRecord) (end : End) → AreCounted session
        → (comes : ComesToProxy session request)
        → IsLeftAlone config ringing session number request now made comes.found.id
        → request.hops ≡ zero
        → AnswersLast number 483 request
        (outcome config ringing session
        (record { number = number; event = queued.Request request }) now made end).orders }
{}

/// In each lawful run of the hosts: the branch of each request that a turn sends, an initial one, a
/// later one or the ACK to a 2xx, is new to all hosts: no server transaction of a request that came
/// from a host of the container has it. So a host to which the request comes doesn't take it for
/// one that came before (RFC 3261 sections 8.1.1.7 and 17.2.3). The numbers in names have 64 bits:
/// the epoch, the hosts, the events, and the number that a session drew last by the end of each of
/// its turns. The contract is the law, for a journal that is lawful in either form in which
/// sessions are kept, and the call does nothing.
pub fn requests_have_new_branches()
    ensures session { (setup : Setup) (epoch began : ℕ) (journal : List Step)
        → IsLawful as_session setup epoch began journal
        → AreSmallNumbers setup epoch (net_from as_session setup epoch began journal)
        → AreSmallDraws setup (moments setup epoch began journal)
        → All (HasNewBranches setup) (moments setup epoch began journal) }
    ensures history { (setup : Setup) (epoch began : ℕ) (journal : List Step)
        → IsLawful (as_history setup.config) setup epoch began journal
        → AreSmallNumbers setup epoch (net_from as_session setup epoch began journal)
        → AreSmallDraws setup (moments setup epoch began journal)
        → All (HasNewBranches setup) (moments setup epoch began journal) }
{}

/// In each lawful run of the hosts: where a session turns to a later request and nothing stops it
/// there (`IsUnstopped` lists what may, each with its answer), the session that its next own URI
/// names has the request among its events in the same step, as it was passed on. The numbers in
/// names have 64 bits: the epoch, the hosts, the events, and the number that a session drew last by
/// the end of each of its turns. The contract is the law, for a journal that is lawful in either
/// form in which sessions are kept, and the call does nothing.
pub fn later_requests_go_to_the_next()
    ensures session { (setup : Setup) (epoch began : ℕ) (journal : List Step)
        → IsLawful as_session setup epoch began journal
        → AreSmallNumbers setup epoch (net_from as_session setup epoch began journal)
        → AreSmallDraws setup (moments setup epoch began journal)
        → (place : ℕ) (moment : Moment) (got : Got)
        → slice_get (moments setup epoch began journal) place ≡ Some moment
        → (unstopped : IsUnstopped setup moment got)
        → ComesNext moment got unstopped.to }
    ensures history { (setup : Setup) (epoch began : ℕ) (journal : List Step)
        → IsLawful (as_history setup.config) setup epoch began journal
        → AreSmallNumbers setup epoch (net_from as_session setup epoch began journal)
        → AreSmallDraws setup (moments setup epoch began journal)
        → (place : ℕ) (moment : Moment) (got : Got)
        → slice_get (moments setup epoch began journal) place ≡ Some moment
        → (unstopped : IsUnstopped setup moment got)
        → ComesNext moment got unstopped.to }
{}

/// A later request that keeps to the way of the INVITE of its dialog visits all of the sessions
/// that stayed on the way and are ahead of it, where it is queued at the first of them and nothing
/// stops it in the turns of all but the last (`GoesAllTheWay`). The premises are those of
/// `later_requests_keep_to_the_way` of `sc_ways`. The contract is the law, for a journal that is
/// lawful in either form in which sessions are kept, and the call does nothing.
pub fn later_requests_go_all_the_way()
    ensures session { (setup : Setup) (epoch began : ℕ) (journal : List Step) (dialog : Dialog)
        (direction : Direction) (piece : Piece) (occurrence : Occurrence)
        → IsLawful as_session setup epoch began journal
        → IsPiece setup epoch (moments setup epoch began journal) dialog piece
        → IsApart (moments setup epoch began journal) dialog piece
        → AreSmallNames setup epoch (net_from as_session setup epoch began journal) piece
        → AreSmallDraws setup (moments setup epoch began journal)
        → carries setup (moments setup epoch began journal) dialog direction piece occurrence ≡ true
        → (n : ℕ) → length (ahead (moments setup epoch began journal) direction piece) ≡ suc n
        → GoesAllTheWay setup (moments setup epoch began journal) occurrence n
        → visits setup (moments setup epoch began journal) occurrence
        ≡ ahead (moments setup epoch began journal) direction piece }
    ensures history { (setup : Setup) (epoch began : ℕ) (journal : List Step) (dialog : Dialog)
        (direction : Direction) (piece : Piece) (occurrence : Occurrence)
        → IsLawful (as_history setup.config) setup epoch began journal
        → IsPiece setup epoch (moments setup epoch began journal) dialog piece
        → IsApart (moments setup epoch began journal) dialog piece
        → AreSmallNames setup epoch (net_from as_session setup epoch began journal) piece
        → AreSmallDraws setup (moments setup epoch began journal)
        → carries setup (moments setup epoch began journal) dialog direction piece occurrence ≡ true
        → (n : ℕ) → length (ahead (moments setup epoch began journal) direction piece) ≡ suc n
        → GoesAllTheWay setup (moments setup epoch began journal) occurrence n
        → visits setup (moments setup epoch began journal) occurrence
        ≡ ahead (moments setup epoch began journal) direction piece }
{}

/// A later request that a session sends by its turn, and that keeps to the way of the INVITE of its
/// dialog, visits the first of the sessions that stayed on the way and are ahead of it, where that
/// session lives before the step and after it and has room after it; behind it, it visits a
/// beginning of the others. The premises are those of `later_requests_keep_to_the_way` of
/// `sc_ways`. The contract is the law, for a journal that is lawful in either form in which
/// sessions are kept, and the call does nothing.
pub fn sent_requests_come_to_the_first()
    ensures session { (setup : Setup) (epoch began : ℕ) (journal : List Step) (dialog : Dialog)
        (direction : Direction) (piece : Piece) (occurrence : Occurrence)
        → IsLawful as_session setup epoch began journal
        → IsPiece setup epoch (moments setup epoch began journal) dialog piece
        → IsApart (moments setup epoch began journal) dialog piece
        → AreSmallNames setup epoch (net_from as_session setup epoch began journal) piece
        → AreSmallDraws setup (moments setup epoch began journal)
        → carries setup (moments setup epoch began journal) dialog direction piece occurrence ≡ true
        → (out : SetOut) (host : ℕ)
        → set_out setup (moments setup epoch began journal) occurrence ≡ Some out
        → out.sender ≡ peers.Inside host → (app : AppId) (more : List AppId)
        → ahead (moments setup epoch began journal) direction piece ≡ app ∷ more
        → (was last : Live Session) → live_at app out.moment.before ≡ Some was
        → live_at app out.moment.after ≡ Some last → is_full last ≡ false
        → VisitsFirst app more (visits setup (moments setup epoch began journal) occurrence) }
    ensures history { (setup : Setup) (epoch began : ℕ) (journal : List Step) (dialog : Dialog)
        (direction : Direction) (piece : Piece) (occurrence : Occurrence)
        → IsLawful (as_history setup.config) setup epoch began journal
        → IsPiece setup epoch (moments setup epoch began journal) dialog piece
        → IsApart (moments setup epoch began journal) dialog piece
        → AreSmallNames setup epoch (net_from as_session setup epoch began journal) piece
        → AreSmallDraws setup (moments setup epoch began journal)
        → carries setup (moments setup epoch began journal) dialog direction piece occurrence ≡ true
        → (out : SetOut) (host : ℕ)
        → set_out setup (moments setup epoch began journal) occurrence ≡ Some out
        → out.sender ≡ peers.Inside host → (app : AppId) (more : List AppId)
        → ahead (moments setup epoch began journal) direction piece ≡ app ∷ more
        → (was last : Live Session) → live_at app out.moment.before ≡ Some was
        → live_at app out.moment.after ≡ Some last → is_full last ≡ false
        → VisitsFirst app more (visits setup (moments setup epoch began journal) occurrence) }
{}

/// In each lawful run of the hosts: where a session turns to a later request whose next own URI
/// names another session, that session has the request among its events in the same step, as it was
/// passed on, or one of the stops that `Stops` lists, each with its answer, is there: nothing else
/// stops it. The premises are those of `later_requests_go_to_the_next`. The contract is the law,
/// for a journal that is lawful in either form in which sessions are kept, and the call does
/// nothing.
pub fn later_requests_go_on_or_stop()
    ensures session { (setup : Setup) (epoch began : ℕ) (journal : List Step)
        → IsLawful as_session setup epoch began journal
        → AreSmallNumbers setup epoch (net_from as_session setup epoch began journal)
        → AreSmallDraws setup (moments setup epoch began journal)
        → (place : ℕ) (moment : Moment) (got : Got) (to : AppId)
        → slice_get (moments setup epoch began journal) place ≡ Some moment
        → (turn : TurnsTo setup moment got to)
        → ComesNext moment got to ⊎ Stops setup moment got to turn }
    ensures history { (setup : Setup) (epoch began : ℕ) (journal : List Step)
        → IsLawful (as_history setup.config) setup epoch began journal
        → AreSmallNumbers setup epoch (net_from as_session setup epoch began journal)
        → AreSmallDraws setup (moments setup epoch began journal)
        → (place : ℕ) (moment : Moment) (got : Got) (to : AppId)
        → slice_get (moments setup epoch began journal) place ≡ Some moment
        → (turn : TurnsTo setup moment got to)
        → ComesNext moment got to ⊎ Stops setup moment got to turn }
{}
