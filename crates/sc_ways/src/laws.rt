ghost use Rattle.std.specs.Prelude.{◌≡◌, ℕ, List, [], ◌∷◌, Some, false, true};
ghost use Rattle.sc_value.specs.declared.ids.AppId.{AppId};
ghost use Rattle.sc_value.specs.declared.ids.Place.{Place};
ghost use Rattle.sc_terms.specs.declared.calls.ProxyOptions.{ProxyOptions};
ghost use Rattle.sc_terms.specs.declared.steps.Step.{Step};
ghost use Rattle.sc_parts.specs.declared.setup.Setup.{Setup};
ghost use Rattle.sc_state.specs.declared.host.Live.{Live};
ghost use Rattle.sc_state.specs.declared.host.Peer.TheVariants as peers;
ghost use Rattle.sc_state.specs.declared.session.Session.{Session};
ghost use Rattle.sc_tokens.specs.Bytes.{Bytes};
ghost use Rattle.sc_hosts.specs.Histories.{as_history, as_session};
ghost use Rattle.sc_hosts.specs.Inboxes.{is_full};
ghost use Rattle.sc_hosts.specs.Runs.{IsLawful, net_from};
ghost use Rattle.sc_hosts.specs.Steps.{live_at};
ghost use Rattle.sc_lasting.specs.Lasting.{All};
ghost use Rattle.sc_paths.specs.LaterRequests.{Occurrence, SetOut, carries, set_out, visits};
ghost use Rattle.sc_paths.specs.Moments.{moments, proxied_with};
ghost use Rattle.sc_paths.specs.Pieces.{Dialog, Direction, IsPiece, Piece, ahead};
ghost use Rattle.sc_stopped.specs.Stopped.{net_with_answer};
ghost use Rattle.sc_ways.specs.Ways.{AreSmallDraws, AreSmallNames, IsApart, IsFollowed, IsPrefix, Stays, StopsBefore, VisitsFirst};

/// A later request that keeps to the way of the INVITE of its dialog, whether it comes from outside
/// or a session sends it, visits a beginning of the application sessions that stayed on the way, in
/// the direction in which it goes, without the one at the end from which it comes. It is so after
/// every lawful journal in which the numbers in names have 64 bits (the epoch, the hosts, the
/// events, the number that a session drew last by the end of each of its turns, and the serial of
/// the session that sent the INVITE first), and that session, where it proxied a request besides,
/// is a proxy in no dialog of that INVITE's Call-ID. The contract is the law, for a journal that is
/// lawful in either form in which sessions are kept, and the call does nothing.
pub fn later_requests_keep_to_the_way()
    ensures session { (setup : Setup) (epoch began : ℕ) (journal : List Step) (dialog : Dialog)
        (direction : Direction) (piece : Piece) (occurrence : Occurrence)
        → IsLawful as_session setup epoch began journal
        → IsPiece setup epoch (moments setup epoch began journal) dialog piece
        → IsApart (moments setup epoch began journal) dialog piece
        → AreSmallNames setup epoch (net_from as_session setup epoch began journal) piece
        → AreSmallDraws setup (moments setup epoch began journal)
        → carries setup (moments setup epoch began journal) dialog direction piece occurrence ≡ true
        → IsPrefix (visits setup (moments setup epoch began journal) occurrence)
        (ahead (moments setup epoch began journal) direction piece) }
    ensures history { (setup : Setup) (epoch began : ℕ) (journal : List Step) (dialog : Dialog)
        (direction : Direction) (piece : Piece) (occurrence : Occurrence)
        → IsLawful (as_history setup.config) setup epoch began journal
        → IsPiece setup epoch (moments setup epoch began journal) dialog piece
        → IsApart (moments setup epoch began journal) dialog piece
        → AreSmallNames setup epoch (net_from as_session setup epoch began journal) piece
        → AreSmallDraws setup (moments setup epoch began journal)
        → carries setup (moments setup epoch began journal) dialog direction piece occurrence ≡ true
        → IsPrefix (visits setup (moments setup epoch began journal) occurrence)
        (ahead (moments setup epoch began journal) direction piece) }
{}

/// A later request that keeps to the way of the INVITE of its dialog visits those alone that stayed
/// on the way: the session at its end, and the proxies of the way that record-routed the INVITE. So
/// an application session that proxied the INVITE without record-routing isn't visited, from
/// whichever end the request comes; one that sent an INVITE of its own first stands at the end of
/// that INVITE's way, whatever else it proxied. The premises are those of
/// `later_requests_keep_to_the_way`. The contract is the law, for a journal that is lawful in
/// either form in which sessions are kept, and the call does nothing.
pub fn later_requests_pass_by_who_left()
    ensures staying_session { (setup : Setup) (epoch began : ℕ) (journal : List Step)
        (dialog : Dialog) (direction : Direction) (piece : Piece) (occurrence : Occurrence)
        → IsLawful as_session setup epoch began journal
        → IsPiece setup epoch (moments setup epoch began journal) dialog piece
        → IsApart (moments setup epoch began journal) dialog piece
        → AreSmallNames setup epoch (net_from as_session setup epoch began journal) piece
        → AreSmallDraws setup (moments setup epoch began journal)
        → carries setup (moments setup epoch began journal) dialog direction piece occurrence ≡ true
        → All (Stays (moments setup epoch began journal) direction piece)
        (visits setup (moments setup epoch began journal) occurrence) }
    ensures staying_history { (setup : Setup) (epoch began : ℕ) (journal : List Step)
        (dialog : Dialog) (direction : Direction) (piece : Piece) (occurrence : Occurrence)
        → IsLawful (as_history setup.config) setup epoch began journal
        → IsPiece setup epoch (moments setup epoch began journal) dialog piece
        → IsApart (moments setup epoch began journal) dialog piece
        → AreSmallNames setup epoch (net_from as_session setup epoch began journal) piece
        → AreSmallDraws setup (moments setup epoch began journal)
        → carries setup (moments setup epoch began journal) dialog direction piece occurrence ≡ true
        → All (Stays (moments setup epoch began journal) direction piece)
        (visits setup (moments setup epoch began journal) occurrence) }
    ensures left_session { (setup : Setup) (epoch began : ℕ) (journal : List Step) (dialog : Dialog)
        (direction : Direction) (piece : Piece) (occurrence : Occurrence) (app : AppId)
        (how : ProxyOptions) → IsLawful as_session setup epoch began journal
        → IsPiece setup epoch (moments setup epoch began journal) dialog piece
        → IsApart (moments setup epoch began journal) dialog piece
        → AreSmallNames setup epoch (net_from as_session setup epoch began journal) piece
        → AreSmallDraws setup (moments setup epoch began journal)
        → carries setup (moments setup epoch began journal) dialog direction piece occurrence ≡ true
        → proxied_with (moments setup epoch began journal) app ≡ Some how → how.record_route ≡ false
        → (piece.caller ≡ Some app → ⊥)
        → All (λ (visited : AppId). visited ≡ app → ⊥)
        (visits setup (moments setup epoch began journal) occurrence) }
    ensures left_history { (setup : Setup) (epoch began : ℕ) (journal : List Step) (dialog : Dialog)
        (direction : Direction) (piece : Piece) (occurrence : Occurrence) (app : AppId)
        (how : ProxyOptions) → IsLawful (as_history setup.config) setup epoch began journal
        → IsPiece setup epoch (moments setup epoch began journal) dialog piece
        → IsApart (moments setup epoch began journal) dialog piece
        → AreSmallNames setup epoch (net_from as_session setup epoch began journal) piece
        → AreSmallDraws setup (moments setup epoch began journal)
        → carries setup (moments setup epoch began journal) dialog direction piece occurrence ≡ true
        → proxied_with (moments setup epoch began journal) app ≡ Some how → how.record_route ≡ false
        → (piece.caller ≡ Some app → ⊥)
        → All (λ (visited : AppId). visited ≡ app → ⊥)
        (visits setup (moments setup epoch began journal) occurrence) }
{}

/// A later request that comes from outside and keeps to the way of the INVITE of its dialog visits
/// the first of the sessions that stayed on the way and are ahead of it, where that session lives
/// and has room as the request comes; behind it, it visits a beginning of the others. So where one
/// session alone is ahead, it visits the whole of the way. The premises are those of
/// `later_requests_keep_to_the_way`. The contract is the law, for a journal that is lawful in
/// either form in which sessions are kept, and the call does nothing.
pub fn later_requests_come_to_the_first()
    ensures session { (setup : Setup) (epoch began : ℕ) (journal : List Step) (dialog : Dialog)
        (direction : Direction) (piece : Piece) (occurrence : Occurrence)
        → IsLawful as_session setup epoch began journal
        → IsPiece setup epoch (moments setup epoch began journal) dialog piece
        → IsApart (moments setup epoch began journal) dialog piece
        → AreSmallNames setup epoch (net_from as_session setup epoch began journal) piece
        → AreSmallDraws setup (moments setup epoch began journal)
        → carries setup (moments setup epoch began journal) dialog direction piece occurrence ≡ true
        → (out : SetOut) (place : Place)
        → set_out setup (moments setup epoch began journal) occurrence ≡ Some out
        → out.sender ≡ peers.Outside place → (app : AppId) (more : List AppId)
        → ahead (moments setup epoch began journal) direction piece ≡ app ∷ more
        → (live : Live Session) → live_at app out.moment.before ≡ Some live → is_full live ≡ false
        → VisitsFirst app more (visits setup (moments setup epoch began journal) occurrence) }
    ensures history { (setup : Setup) (epoch began : ℕ) (journal : List Step) (dialog : Dialog)
        (direction : Direction) (piece : Piece) (occurrence : Occurrence)
        → IsLawful (as_history setup.config) setup epoch began journal
        → IsPiece setup epoch (moments setup epoch began journal) dialog piece
        → IsApart (moments setup epoch began journal) dialog piece
        → AreSmallNames setup epoch (net_from as_session setup epoch began journal) piece
        → AreSmallDraws setup (moments setup epoch began journal)
        → carries setup (moments setup epoch began journal) dialog direction piece occurrence ≡ true
        → (out : SetOut) (place : Place)
        → set_out setup (moments setup epoch began journal) occurrence ≡ Some out
        → out.sender ≡ peers.Outside place → (app : AppId) (more : List AppId)
        → ahead (moments setup epoch began journal) direction piece ≡ app ∷ more
        → (live : Live Session) → live_at app out.moment.before ≡ Some live → is_full live ≡ false
        → VisitsFirst app more (visits setup (moments setup epoch began journal) occurrence) }
{}

/// A later request that comes from outside, keeps to the way of the INVITE of its dialog and can
/// come to none of the sessions ahead of it is answered at once, and nothing else happens. It gets
/// 481 where none is ahead of it or the first doesn't live as it comes, and 503 where as many
/// events wait for that session as may; an ACK gets nothing. No session and no transaction changes.
/// The numbers in names have 64 bits. The contract is the law, for a journal that is lawful in
/// either form in which sessions are kept, and the call does nothing.
pub fn later_requests_stop_before_the_first()
    ensures session { (setup : Setup) (epoch began : ℕ) (journal : List Step) (dialog : Dialog)
        (direction : Direction) (piece : Piece) (occurrence : Occurrence)
        → IsLawful as_session setup epoch began journal
        → IsPiece setup epoch (moments setup epoch began journal) dialog piece
        → AreSmallNames setup epoch (net_from as_session setup epoch began journal) piece
        → carries setup (moments setup epoch began journal) dialog direction piece occurrence ≡ true
        → (out : SetOut) (place : Place)
        → set_out setup (moments setup epoch began journal) occurrence ≡ Some out
        → out.sender ≡ peers.Outside place → (code : ℕ) (reason : Bytes)
        → StopsBefore (ahead (moments setup epoch began journal) direction piece) out.moment.before
        code reason
        → out.moment.after
        ≡ net_with_answer setup.config place code reason out.request
        (record out.moment.before { sent = [] }) }
    ensures history { (setup : Setup) (epoch began : ℕ) (journal : List Step) (dialog : Dialog)
        (direction : Direction) (piece : Piece) (occurrence : Occurrence)
        → IsLawful (as_history setup.config) setup epoch began journal
        → IsPiece setup epoch (moments setup epoch began journal) dialog piece
        → AreSmallNames setup epoch (net_from as_session setup epoch began journal) piece
        → carries setup (moments setup epoch began journal) dialog direction piece occurrence ≡ true
        → (out : SetOut) (place : Place)
        → set_out setup (moments setup epoch began journal) occurrence ≡ Some out
        → out.sender ≡ peers.Outside place → (code : ℕ) (reason : Bytes)
        → StopsBefore (ahead (moments setup epoch began journal) direction piece) out.moment.before
        code reason
        → out.moment.after
        ≡ net_with_answer setup.config place code reason out.request
        (record out.moment.before { sent = [] }) }
{}

/// A later request that comes from outside and keeps to the way of the INVITE of its dialog visits
/// the first of the sessions that stayed on the way and are ahead of it, and then a beginning of
/// the others, or it can come to none of them and is answered at once: one of the two is so, and
/// nothing else stops it before that session. The premises are those of
/// `later_requests_keep_to_the_way`. The contract is the law, for a journal that is lawful in
/// either form in which sessions are kept, and the call does nothing.
pub fn later_requests_come_first_or_are_answered()
    ensures session { (setup : Setup) (epoch began : ℕ) (journal : List Step) (dialog : Dialog)
        (direction : Direction) (piece : Piece) (occurrence : Occurrence)
        → IsLawful as_session setup epoch began journal
        → IsPiece setup epoch (moments setup epoch began journal) dialog piece
        → IsApart (moments setup epoch began journal) dialog piece
        → AreSmallNames setup epoch (net_from as_session setup epoch began journal) piece
        → AreSmallDraws setup (moments setup epoch began journal)
        → carries setup (moments setup epoch began journal) dialog direction piece occurrence ≡ true
        → (out : SetOut) (place : Place)
        → set_out setup (moments setup epoch began journal) occurrence ≡ Some out
        → out.sender ≡ peers.Outside place
        → IsFollowed setup (moments setup epoch began journal) direction piece occurrence place
        out }
    ensures history { (setup : Setup) (epoch began : ℕ) (journal : List Step) (dialog : Dialog)
        (direction : Direction) (piece : Piece) (occurrence : Occurrence)
        → IsLawful (as_history setup.config) setup epoch began journal
        → IsPiece setup epoch (moments setup epoch began journal) dialog piece
        → IsApart (moments setup epoch began journal) dialog piece
        → AreSmallNames setup epoch (net_from as_session setup epoch began journal) piece
        → AreSmallDraws setup (moments setup epoch began journal)
        → carries setup (moments setup epoch began journal) dialog direction piece occurrence ≡ true
        → (out : SetOut) (place : Place)
        → set_out setup (moments setup epoch began journal) occurrence ≡ Some out
        → out.sender ≡ peers.Outside place
        → IsFollowed setup (moments setup epoch began journal) direction piece occurrence place
        out }
{}
